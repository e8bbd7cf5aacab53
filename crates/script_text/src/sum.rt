//! The input of `sum`.
#![tactic(auto, using(text_lines::proofs::lemmas::Spelled::spelled, std::proofs::lemmas::Grind::common_steps))]

ghost use Rattle.std.specs.Prelude.{◌≡◌, length, IfOk, OnOk, IfErr};
ghost use Rattle.text_lines.specs.Lines.{fields_of, texts};
ghost use Rattle.text_lines.specs.Fields.{IsBytes};
ghost use Rattle.line_forms.specs.Kinds.{form_cause};
ghost use Rattle.line_forms.specs.Tables.{Gives};
ghost use Rattle.line_forms.specs.Texts.{IsFaultless, IsRefusal};
ghost use Rattle.script_text.specs.Sum.{IsSum, sum_text, sum_script, value_fields, value_form};

use cross_sum::Bytes;
use line_forms::{
    Cause, LineRefusal, ScriptRefusal, needed_line, read_head, refused, value_of_len,
};
use quorum_rules::Config;
use std::alloc::Global;
use text_lines::fields;

/// The configuration and the value that the input of `sum` spells.
///
/// The text is the two head lines of a script and one line `value`, with a value of the length of a
/// block.
pub fn read_sum(alloc: Global, text: &[u8]) -> Result<(Config, Bytes), ScriptRefusal>
    // What is read is spelled so, and no line of it has a cause.
    ensures sum { IfOk result (λ read. IsSum read.0 read.1 × (text.now ≡ sum_text read.0 read.1)) }
    ensures faultless { OnOk result (IsFaultless sum_script text.now) }
    // A refusal is the first line that has a cause, and its first cause.
    ensures fault { IfErr result (IsRefusal sum_script text.now) }
{
    let (config, at) = read_head(alloc, text)?;
    let (line, rest) = needed_line(&text[at..], 3, Cause::MissingLine)?;
    let value = match read_value(alloc, line, config.size() as usize) {
        Ok(value) => value,
        Err(refusal) => return Err(refused(3, refusal)),
    };
    if rest.is_empty() {
        return Ok((config, value));
    }
    // Something is left, so a line without a newline is the only fault that comes here.
    needed_line(rest, 4, Cause::MissingLine)?;
    Err(refused(4, LineRefusal::Cause(Cause::UnknownWord)))
}

/// The value of `len` bytes that a value line spells.
fn read_value(alloc: Global, line: &[u8], len: usize) -> Result<Bytes, LineRefusal>
    ensures { Gives (λ v. (value_fields v ≡ fields_of line.now) × (length v ≡ len) × IsBytes v)
        (form_cause (value_form len) (fields_of line.now)) result }
{
    let fields = fields(alloc, line)?;
    value_in(alloc, fields.as_slice(), len)
}

fn value_in(alloc: Global, fields: &[&[u8]], len: usize) -> Result<Bytes, LineRefusal>
    ensures { Gives (λ v. (value_fields v ≡ texts fields.now) × (length v ≡ len) × IsBytes v)
        (form_cause (value_form len) (texts fields.now)) result }
{
    let Some((word, fields)) = fields.split_first() else {
        return Err(LineRefusal::Cause(Cause::WrongCount));
    };
    if *word != b"value".as_slice() {
        return Err(LineRefusal::Cause(Cause::UnknownWord));
    }
    let [field] = fields else {
        return Err(LineRefusal::Cause(Cause::WrongCount));
    };
    if field.is_empty() {
        return Err(LineRefusal::Cause(Cause::WrongCount));
    }
    value_of_len(alloc, field, len)
}
