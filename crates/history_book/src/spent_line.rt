//! The lines of a report that tell of spent writes.
#![tactic(auto, using(text_lines::proofs::lemmas::Spelled::spelled, std::proofs::lemmas::Grind::common_steps))]

ghost use Rattle.std.specs.Prelude.{◌≡◌, not, codes, Some};
ghost use Rattle.text_lines.specs.Lines.{texts};
ghost use Rattle.line_forms.specs.Tables.{Gives, first_of};
ghost use Rattle.history_book.specs.Reports.{spent_fields};
ghost use Rattle.history_book.specs.ReportTexts.{spent_numbers, spent_told, last_of, is_not_later, field, spent_causes, MayFollowSpent};

use history_making::Spent;
use line_forms::{Cause, LineRefusal, has_empty};
use text_lines::{number, number_u32};

/// The spent write that these fields spell.
#[tactic(auto, using(std::proofs::lemmas::Grind::common_steps), unfolding(crate::specs::ReportTexts::spent_numbers))]
fn spent_of(client: &[u8], start: &[u8], end: &[u8]) -> Option<Spent>
    ensures { result ≡ spent_numbers client.now start.now end.now }
{
    Some(Spent {
        client: number_u32(client)?,
        start: number(start)?,
        end: number(end)?,
    })
}

/// Whether a spent write started after the last of these.
fn is_later(spent: &[Spent], other: &Spent) -> bool
    ensures { is_not_later (last_of spent.now) (Some other.now) ≡ not result }
{
    match spent.last() {
        Some(last) => last.start < other.start,
        None => true,
    }
}

/// The spent write that a line's fields spell, where it may stand after these.
pub fn spent_in(spent: &[Spent], fields: &[&[u8]]) -> Result<Spent, LineRefusal>
    requires { field (texts fields.now) 0 ≡ codes "spent" }
    ensures { Gives
        (λ x. (spent_fields x ≡ texts fields.now) × MayFollowSpent spent.now x
        × (spent_told (texts fields.now) ≡ Some x))
        (first_of (spent_causes spent.now (texts fields.now))) result }
{
    if has_empty(fields) {
        return Err(LineRefusal::Cause(Cause::WrongCount));
    }
    let [_, client, start, end] = fields else {
        return Err(LineRefusal::Cause(Cause::WrongCount));
    };
    let Some(other) = spent_of(client, start, end) else {
        return Err(LineRefusal::Cause(Cause::BadNumber));
    };
    if !is_later(spent, &other) {
        return Err(LineRefusal::Cause(Cause::NotSorted));
    }
    Ok(other)
}
