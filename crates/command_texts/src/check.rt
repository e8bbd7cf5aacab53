ghost use Rattle.std.specs.Prelude.{◌≡◌, ◌<◌, ◌^◌, ◌++◌, length, IfOk, IfErr, OnOk};
ghost use Rattle.text_lines.specs.Lines.{line_of_fields};
ghost use Rattle.command_texts.specs.Texts.{Writes, Refuses};
ghost use Rattle.command_texts.specs.Verdicts.{flaw_word, verdict_fields, verdict_text};

use crate::text::Answer;
use crate::{Command, Refusal};
use cross_sum::Bytes;
use history_book::{Flaw, FlawKind, judge, read};
use lists::NoMemory;
use std::alloc::Global;
use text_lines::Text;

fn word(kind: FlawKind) -> &'static [u8]
    ensures { result.now ≡ flaw_word kind }
{
    match kind {
        FlawKind::Value => b"value",
        FlawKind::Time => b"time",
    }
}

fn add_flaw(text: &mut Text, flaw: Flaw) -> Result<(), NoMemory>
    ensures { OnOk result (text.new ≡ text.old ++ line_of_fields (verdict_fields (Some flaw))) }
{
    text.add(b"illegal ")?;
    text.add(word(flaw.kind))?;
    text.add_space()?;
    text.add_number(u64::from(flaw.first))?;
    text.add_space()?;
    text.add_number(u64::from(flaw.second))
}

// The line of a flaw, or of none.
fn line_of(alloc: Global, flaw: Option<Flaw>) -> Result<Bytes, NoMemory>
    ensures { IfOk result (λ text. text ≡ verdict_text flaw) }
{
    let mut text = Text::new(alloc);
    match flaw {
        Some(flaw) => add_flaw(&mut text, flaw)?,
        None => text.add(b"legal")?,
    }
    text.add_newline()?;
    text.into_bytes()
}

/// What is judged of the history that a report tells.
pub fn verdict_of(alloc: Global, input: &Bytes) -> Result<Answer, Refusal>
    requires { length input.now < 2 ^ 32 }
    ensures text { IfOk result (λ answer. Writes Command.Check input.now answer.text answer.flaw) }
    ensures refused { IfErr result (λ refusal. Refuses Command.Check input.now refusal) }
{
    let history = read(alloc, input.as_slice())?;
    let flaw = judge(&history);
    let text = line_of(alloc, flaw)?;
    Ok(Answer { text, flaw })
}
