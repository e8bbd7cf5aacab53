//! Reading a line of a plan, whatever other lines say.
#![tactic(auto, using(text_lines::proofs::lemmas::Spelled::spelled, std::proofs::lemmas::Grind::common_steps))]

ghost use Rattle.std.specs.Prelude.{◌≡◌, ◌∷◌, [], codes};
ghost use Rattle.quorum_rules.specs.Limits.{Numbers};
ghost use Rattle.text_lines.specs.Lines.{fields_of, texts};
ghost use Rattle.line_forms.specs.Kinds.{any_u64, block, client, form_cause};
ghost use Rattle.line_forms.specs.Kinds.Kind.{value, bytes};
ghost use Rattle.line_forms.specs.Tables.{Gives};
ghost use Rattle.event_lines.specs.Forms.{fields_cause};
ghost use Rattle.plan_words.specs.Forms.{between, forms_of, line_cause, word_text};
ghost use Rattle.plan_words.specs.Lines.{IsPlanLine, IsSpelled, line_text};

use crate::liars::liar;
use crate::line::PlanLine;
use crate::word::PlanWord;
use crate::{Job, forms};
use line_forms::{Cause, LineRefusal, has_empty};
use quorum_rules::Config;
use std::alloc::Global;
use text_lines::fields;

/// The line that a line of a text spells, its newline aside, whatever other lines say.
///
/// A line with several faults is refused with the first of `UnknownWord`, `WrongCount`, `BadNumber`, `OutOfRange` and
/// `BadValue`, as in `event_lines::read_event`. A count of asks is at most 1000; a lying client's writes go to at most all
/// nodes, and a flood has at most 250, and no more than its time.
pub fn read_line(alloc: Global, config: &Config, line: &[u8]) -> Result<PlanLine, LineRefusal>
    ensures { Gives (λ l. IsPlanLine config.now l × (line_text l ≡ line.now))
        (line_cause config.now (fields_of line.now)) result }
{
    let fields = fields(alloc, line)?;
    line_in(alloc, config, fields.as_slice())
}

fn line_in(alloc: Global, config: &Config, fields: &[&[u8]]) -> Result<PlanLine, LineRefusal>
    ensures { Gives (IsSpelled config.now (texts fields.now))
        (line_cause config.now (texts fields.now)) result }
{
    let Some((first, rest)) = fields.split_first() else {
        return Err(LineRefusal::Cause(Cause::UnknownWord));
    };
    match PlanWord::of(first) {
        Some(word) => read_rest(alloc, config, word, rest),
        None => Err(LineRefusal::Cause(Cause::UnknownWord)),
    }
}

/// The line of a word, from the fields behind it.
fn read_rest(
    alloc: Global,
    config: &Config,
    word: PlanWord,
    fields: &[&[u8]],
) -> Result<PlanLine, LineRefusal>
    ensures { Gives (IsSpelled config.now (word_text word ∷ texts fields.now))
        (fields_cause (forms_of config.now (texts fields.now) word) (texts fields.now)) result }
{
    match word {
        PlanWord::Liar => liar(alloc, config, fields),
        PlanWord::Crash => forms::crash(config, fields),
        PlanWord::Lose => read_drop(config, fields),
        PlanWord::Hold => read_hold(config, fields),
        PlanWord::Write => read_write(alloc, config, fields),
        PlanWord::Read => read_read(config, fields),
        PlanWord::Put => read_put(alloc, fields),
        PlanWord::Get => read_get(fields),
        PlanWord::Phase => read_phase(fields),
    }
}

fn read_drop(config: &Config, fields: &[&[u8]]) -> Result<PlanLine, LineRefusal>
    ensures { Gives (IsSpelled config.now (codes "drop" ∷ texts fields.now))
        (form_cause (between config.now) (texts fields.now)) result }
{
    if fields.len() != 3 || has_empty(fields) {
        return Err(LineRefusal::Cause(Cause::WrongCount));
    }
    forms::dropping(config, fields[0], fields[1], fields[2])
}

fn read_hold(config: &Config, fields: &[&[u8]]) -> Result<PlanLine, LineRefusal>
    ensures { Gives (IsSpelled config.now (codes "hold" ∷ texts fields.now))
        (form_cause (between config.now) (texts fields.now)) result }
{
    if fields.len() != 3 || has_empty(fields) {
        return Err(LineRefusal::Cause(Cause::WrongCount));
    }
    forms::holding(config, fields[0], fields[1], fields[2])
}

fn read_write(alloc: Global, config: &Config, fields: &[&[u8]]) -> Result<PlanLine, LineRefusal>
    ensures { Gives (IsSpelled config.now (codes "write" ∷ texts fields.now))
        (form_cause (client ∷ block config.now.blocks ∷ value config.now.size ∷ [])
        (texts fields.now)) result }
{
    if fields.len() != 3 || has_empty(fields) {
        return Err(LineRefusal::Cause(Cause::WrongCount));
    }
    forms::write(alloc, config, fields[0], fields[1], fields[2])
}

fn read_read(config: &Config, fields: &[&[u8]]) -> Result<PlanLine, LineRefusal>
    ensures { Gives (IsSpelled config.now (codes "read" ∷ texts fields.now))
        (form_cause (client ∷ block config.now.blocks ∷ []) (texts fields.now)) result }
{
    if fields.len() != 2 || has_empty(fields) {
        return Err(LineRefusal::Cause(Cause::WrongCount));
    }
    forms::read(config, fields[0], fields[1])
}

fn read_put(alloc: Global, fields: &[&[u8]]) -> Result<PlanLine, LineRefusal>
    ensures { (c : Numbers) → Gives (IsSpelled c (codes "put" ∷ texts fields.now))
        (form_cause (client ∷ any_u64 ∷ bytes ∷ []) (texts fields.now)) result }
{
    if fields.len() != 3 || has_empty(fields) {
        return Err(LineRefusal::Cause(Cause::WrongCount));
    }
    forms::put(alloc, fields[0], fields[1], fields[2])
}

fn read_get(fields: &[&[u8]]) -> Result<PlanLine, LineRefusal>
    ensures { (c : Numbers) → Gives (IsSpelled c (codes "get" ∷ texts fields.now))
        (form_cause (client ∷ any_u64 ∷ any_u64 ∷ []) (texts fields.now)) result }
{
    if fields.len() != 3 || has_empty(fields) {
        return Err(LineRefusal::Cause(Cause::WrongCount));
    }
    forms::get(fields[0], fields[1], fields[2])
}

fn read_phase(fields: &[&[u8]]) -> Result<PlanLine, LineRefusal>
    ensures { (c : Numbers)
        → Gives (IsSpelled c (codes "phase" ∷ texts fields.now))
        (form_cause [] (texts fields.now)) result }
{
    if !fields.is_empty() {
        return Err(LineRefusal::Cause(Cause::WrongCount));
    }
    Ok(PlanLine::Work(Job::Phase))
}
