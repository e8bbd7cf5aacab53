//! Reading an event line.

ghost use Rattle.std.specs.Prelude.{◌≡◌, ◌∷◌, [], ℕ, true, false};
ghost use Rattle.std.specs.List.{list_any};
ghost use Rattle.quorum_rules.specs.Limits.{Numbers};
ghost use Rattle.text_lines.specs.Lines.{fields_of, texts};
ghost use Rattle.line_forms.specs.Kinds.Kind.{word as fixed, number as whole};
ghost use Rattle.line_forms.specs.Tables.{Gives};
ghost use Rattle.event_lines.specs.Forms.{fields_cause, forms_of, since_two, has_its_words, event_cause};
ghost use Rattle.event_lines.specs.Lines.{IsEventLine, IsSpelled, event_text};
ghost use Rattle.event_lines.specs.Rests.{fields_after};
ghost use Rattle.event_lines.specs.Words.{form_text};

use crate::forms;
use crate::line::ReplayLine;
use crate::message::read_speech;
use crate::word::{Form, LineWord};
use line_forms::{Cause, LineRefusal, has_empty};
use lists::NoMemory;
use quorum_rules::Config;
use std::alloc::Global;
use text_lines::{cut, fields};

/// The event line that a line of a text spells, its newline aside.
///
/// A line with several faults is refused with the first of: `UnknownWord`, where its word, or a fixed
/// word after it, is none that may stand there; `WrongCount`, where it hasn't its form's fields or has
/// a space at an end or beside another; `BadNumber`, where a field isn't a number of its type;
/// `OutOfRange`, where a client isn't 1 to 1000, or the cluster hasn't the node or the block;
/// `BadValue`, where a value isn't one, or hasn't the length of a block (what `put` writes has any
/// length). The lines `back` and `restart` may not stand in edition 1.
///
/// After `lie`, `tell` and `poke` comes the text of a message: `WrongCount` where nothing follows the
/// word, and `BadMessage` where the rest isn't the text of a message, of an answer after `tell`, or of
/// an ask after `poke`.
#[tactic(auto, using(text_lines::proofs::lemmas::Joined::line_from_fields), unfolding(crate::specs::Forms::event_cause))]
pub fn read_event(alloc: Global, config: &Config, line: &[u8]) -> Result<ReplayLine, LineRefusal>
    ensures { Gives (λ l. IsEventLine config.now l × (event_text l ≡ line.now))
        (event_cause config.now line.now) result }
{
    let (word, rest) = first_word(line);
    match LineWord::of(word) {
        Some(LineWord::Form(form)) => read_form(alloc, config, form, rest),
        Some(LineWord::Speech(speech)) => read_speech(alloc, speech, rest),
        None => Err(LineRefusal::Cause(Cause::UnknownWord)),
    }
}

/// What stands before the first space, and what follows it, if there is one.
fn first_word(line: &[u8]) -> (&[u8], Option<&[u8]>)
    ensures { fields_of line.now ≡ result.0.now ∷ fields_after result.1 }
{
    match cut(line, b' ') {
        Some((word, rest)) => (word, Some(rest)),
        None => (line, None),
    }
}

/// The line of a form, from what follows the space behind its word, if there is one.
fn read_form(
    alloc: Global,
    config: &Config,
    form: Form,
    rest: Option<&[u8]>,
) -> Result<ReplayLine, LineRefusal>
    ensures { Gives (IsSpelled config.now (form_text form ∷ fields_after rest.entry))
        (fields_cause (forms_of config.now form) (fields_after rest.entry)) result }
{
    match rest {
        Some(rest) => {
            let fields = fields(alloc, rest)?;
            read_fields(alloc, config, form, fields.as_slice())
        }
        None => read_fields(alloc, config, form, &[]),
    }
}

/// The line of a form, from the fields behind its word.
fn read_fields(
    alloc: Global,
    config: &Config,
    form: Form,
    fields: &[&[u8]],
) -> Result<ReplayLine, LineRefusal>
    ensures { Gives (IsSpelled config.now (form_text form ∷ texts fields.now))
        (fields_cause (forms_of config.now form) (texts fields.now)) result }
{
    if !has_words(config, form, fields) {
        return Err(LineRefusal::Cause(Cause::UnknownWord));
    }
    if fields.len() != form.count() || has_empty(fields) {
        return Err(LineRefusal::Cause(Cause::WrongCount));
    }
    match form {
        Form::Write => forms::write(alloc, config, fields[0], fields[1], fields[2]),
        Form::Read => forms::read(config, fields[0], fields[1]),
        Form::Resend => forms::resend(fields[0]),
        Form::Call => forms::call(config, fields[0], fields[1]),
        Form::Give => forms::give(config, fields[0], fields[1]),
        Form::Hear => forms::hear(fields[0], fields[1]),
        Form::Lost => forms::lost(config, fields[0], fields[1]),
        Form::Crash => forms::crash(config, fields[0], fields[1]),
        Form::False => forms::falsely(config, fields[0], fields[1], fields[2]),
        Form::Sound => forms::sound(
            alloc, config, fields[0], fields[1], fields[2], fields[3], fields[4],
        ),
        Form::Mix => forms::mix(
            alloc, config, fields[0], fields[1], fields[2], fields[3], fields[4], fields[5],
        ),
        Form::Prune => forms::prune(config, fields[0], fields[1]),
        Form::Back => forms::back(config, fields[0], fields[1]),
        Form::Restart => forms::restart(config, fields[0], fields[1]),
        Form::Put => forms::put(alloc, fields[0], fields[1], fields[2]),
        Form::Get => forms::get(fields[0], fields[1], fields[2]),
        Form::Next => forms::next(fields[0]),
    }
}

/// Whether a line of the form may stand here, and the fixed words among the fields, as far as there are
/// fields, are ones of the form.
fn has_words(config: &Config, form: Form, fields: &[&[u8]]) -> bool
    ensures { result ≡ list_any (has_its_words (texts fields.now)) (forms_of config.now form) }
{
    match form {
        Form::Crash => has_crash_word(fields),
        Form::Back => has_word_since_two(config, b"client", fields),
        Form::Restart => has_word_since_two(config, b"node", fields),
        Form::False => has_rule(fields),
        _ => true,
    }
}

/// Whether `node` or `client` follows `crash`, or nothing.
fn has_crash_word(fields: &[&[u8]]) -> bool
    ensures { (c : Numbers)
        → result ≡ list_any (has_its_words (texts fields.now)) (forms_of c Form.Crash) }
{
    match fields.split_first() {
        Some((what, _)) => *what == b"node".as_slice() || *what == b"client".as_slice(),
        None => true,
    }
}

/// Whether a form that edition 1 hasn't, this word and a number, may stand here, and the word is the
/// first field, or nothing is.
fn has_word_since_two(config: &Config, word: &[u8], fields: &[&[u8]]) -> bool
    ensures { (limit from end : ℕ) → result ≡ list_any (has_its_words (texts fields.now))
        (since_two config.now.edition (fixed (word.now ∷ []) ∷ whole limit from end ∷ [])) }
{
    if config.edition() == 1 {
        return false;
    }
    match fields.split_first() {
        Some((what, _)) => *what == word,
        None => true,
    }
}

/// Whether the third field behind `false`, if there is one, is a rule.
fn has_rule(fields: &[&[u8]]) -> bool
    ensures { (c : Numbers)
        → result ≡ list_any (has_its_words (texts fields.now)) (forms_of c Form.False) }
{
    match fields.get(2) {
        Some(rule) => forms::rule_of(rule).is_some(),
        None => true,
    }
}
