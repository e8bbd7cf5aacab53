//! The last line of a report: its counts.
#![tactic(auto, using(text_lines::proofs::lemmas::Spelled::spelled, std::proofs::lemmas::Grind::common_steps))]

ghost use Rattle.std.specs.Prelude.{◌≡◌, slice_get, codes};
ghost use Rattle.text_lines.specs.Lines.{texts};
ghost use Rattle.line_forms.specs.Tables.{Gives, first_of};
ghost use Rattle.history_book.specs.Reports.{end_fields};
ghost use Rattle.history_book.specs.ReportTexts.{count_told, count_numbers, is_done as is_done_of, done_count, lacks_name, has_other_name as has_other_name_of, field, end_causes, AreCounts};

use history_making::{Counts, Entry, Kind, Spent};
use line_forms::{Cause, LineRefusal, has_empty};
use text_lines::number;

/// Whether a field is there and doesn't begin with its name.
fn lacks(fields: &[&[u8]], place: usize, name: &[u8]) -> bool
    ensures { result ≡ lacks_name name.now (slice_get (texts fields.now) place) }
{
    match fields.get(place) {
        Some(field) => field.strip_prefix(name).is_none(),
        None => false,
    }
}

/// Whether a count of an end line has another name than the one of its place.
fn has_other_name(fields: &[&[u8]]) -> bool
    ensures { result ≡ has_other_name_of (texts fields.now) }
{
    lacks(fields, 1, b"done=")
        || lacks(fields, 2, b"spent=")
        || lacks(fields, 3, b"pending=")
        || lacks(fields, 4, b"repaired=")
        || lacks(fields, 5, b"rounds=")
}

/// The number that a field spells after its name.
#[tactic(auto, using(std::proofs::lemmas::Grind::common_steps), unfolding(crate::specs::ReportTexts::count_told))]
fn count_of(name: &[u8], field: &[u8]) -> Option<u64>
    ensures { result ≡ count_told name.now field.now }
{
    number(field.strip_prefix(name)?)
}

/// The counts that the fields of an end line spell.
#[tactic(auto, using(std::proofs::lemmas::Grind::common_steps), unfolding(crate::specs::ReportTexts::count_numbers))]
fn counts_of(
    done: &[u8],
    spent: &[u8],
    pending: &[u8],
    repaired: &[u8],
    rounds: &[u8],
) -> Option<Counts>
    ensures { result ≡ count_numbers done.now spent.now pending.now repaired.now rounds.now }
{
    Some(Counts {
        done: count_of(b"done=", done)?,
        spent: count_of(b"spent=", spent)?,
        pending: count_of(b"pending=", pending)?,
        repaired: count_of(b"repaired=", repaired)?,
        rounds: count_of(b"rounds=", rounds)?,
    })
}

/// Whether an entry is a read or a write that has ended.
fn is_done(entry: &Entry) -> bool
    ensures { result ≡ is_done_of entry.now.kind entry.now.end }
{
    match entry.kind {
        Kind::Read | Kind::Write => entry.end.is_some(),
        Kind::Foreign => false,
    }
}

/// How many reads and writes have ended.
fn count_done(entries: &[Entry]) -> usize
    ensures { result ≡ done_count entries.now }
{
    entries.iter().filter(|entry| is_done(entry)).count()
}

/// The counts that an end line's fields spell, where they are those of these entries and spent writes.
pub fn counts_in(
    entries: &[Entry],
    spent: &[Spent],
    fields: &[&[u8]],
) -> Result<Counts, LineRefusal>
    requires { field (texts fields.now) 0 ≡ codes "end" }
    ensures { Gives
        (λ c. (end_fields c ≡ texts fields.now) × AreCounts entries.now spent.now c × Unit {0})
        (first_of (end_causes entries.now spent.now (texts fields.now))) result }
{
    if has_other_name(fields) {
        return Err(LineRefusal::Cause(Cause::UnknownWord));
    }
    if has_empty(fields) {
        return Err(LineRefusal::Cause(Cause::WrongCount));
    }
    let [_, done, number, pending, repaired, rounds] = fields else {
        return Err(LineRefusal::Cause(Cause::WrongCount));
    };
    let Some(counts) = counts_of(done, number, pending, repaired, rounds) else {
        return Err(LineRefusal::Cause(Cause::BadNumber));
    };
    if counts.done != count_done(entries) as u64 || counts.spent != spent.len() as u64 {
        return Err(LineRefusal::Cause(Cause::Count));
    }
    Ok(counts)
}
