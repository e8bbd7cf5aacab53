//! The entry lines of a report.
#![tactic(auto, using(text_lines::proofs::lemmas::Spelled::spelled, std::proofs::lemmas::Grind::common_steps))]

ghost use Rattle.std.specs.Prelude.{◌≡◌, ℕ, List, false, ◌∷◌, [], length, Some};
ghost use Rattle.text_lines.specs.Fields.{value_of};
ghost use Rattle.text_lines.specs.Lines.{texts};
ghost use Rattle.line_forms.specs.Tables.{Gives, first_of};
ghost use Rattle.history_book.specs.Reports.{entry_fields};
ghost use Rattle.history_book.specs.ReportTexts.{entry_told, entry_with, stands_above, last_of, is_bad_value, has_other_size, value_causes, IsRightAfter, entry_causes, MayFollow};

use crate::numbers::{Numbers, kind_of, numbers_of};
use cross_sum::Bytes;
use history_making::{Entry, Kind, Spent};
use line_forms::{Cause, LineRefusal, has_empty};
use std::alloc::Global;
use text_lines::value;

/// Whether an entry stands strictly above the last of these.
fn is_above(entries: &[Entry], entry: &Entry) -> bool
    ensures { result ≡ stands_above (last_of entries.now) entry.now }
{
    match entries.last() {
        Some(last) => last.compare(entry).is_lt(),
        None => true,
    }
}

/// The value that a field spells, as an entry after these may have it. `BadValue` where it spells none.
fn value_after(alloc: Global, entries: &[Entry], field: &[u8]) -> Result<Bytes, LineRefusal>
    ensures { Gives
        (λ v. (value_of field.now ≡ Some v) × (is_bad_value entries.now (Some v) ≡ false))
        (first_of ((is_bad_value entries.now (value_of field.now), Cause.BadValue) ∷ [])) result }
{
    let value = value(alloc, field)?.ok_or(Cause::BadValue)?;
    if value.is_empty() || has_other_len(entries, value.len()) {
        return Err(LineRefusal::Cause(Cause::BadValue));
    }
    Ok(value)
}

/// Whether the first entry's value has another length.
fn has_other_len(entries: &[Entry], len: usize) -> bool
    ensures { (value : List ℕ) → len ≡ length value → result ≡ has_other_size entries.now value }
{
    match entries.first() {
        Some(first) => first.value.len() != len,
        None => false,
    }
}

/// The entry of these numbers and of the value that a field spells, where it may stand after these entries.
fn entry_after(
    alloc: Global,
    entries: &[Entry],
    kind: Kind,
    numbers: Numbers,
    field: &[u8],
) -> Result<Entry, LineRefusal>
    ensures { Gives
        (λ e. (v : List ℕ) × (e ≡ entry_with kind numbers v) × (value_of field.now ≡ Some v)
        × IsRightAfter entries.now e)
        (first_of (value_causes entries.now kind numbers (value_of field.now))) result }
{
    if numbers.stamp.mark == 0 {
        return Err(LineRefusal::Cause(Cause::OutOfRange));
    }
    let entry = Entry {
        block: numbers.block,
        time: numbers.stamp.time,
        writer: numbers.stamp.writer,
        mark: numbers.stamp.mark,
        kind,
        client: numbers.client,
        start: numbers.start,
        end: numbers.end,
        value: value_after(alloc, entries, field)?,
    };
    if !is_above(entries, &entry) {
        return Err(LineRefusal::Cause(Cause::NotSorted));
    }
    Ok(entry)
}

/// The entry that a line's fields spell, where it may stand after these entries and spent writes.
pub fn entry_in(
    alloc: Global,
    entries: &[Entry],
    spent: &[Spent],
    fields: &[&[u8]],
) -> Result<Entry, LineRefusal>
    ensures { Gives
        (λ e. (entry_fields e ≡ texts fields.now) × (MayFollow entries.now e × (spent.now ≡ []))
        × (entry_told (texts fields.now) ≡ Some e))
        (first_of (entry_causes entries.now spent.now (texts fields.now))) result }
{
    if !spent.is_empty() {
        return Err(LineRefusal::Cause(Cause::UnknownWord));
    }
    let Some(word) = fields.get(2) else {
        return Err(LineRefusal::Cause(Cause::WrongCount));
    };
    let Some(kind) = kind_of(word) else {
        return Err(LineRefusal::Cause(Cause::UnknownWord));
    };
    if has_empty(fields) {
        return Err(LineRefusal::Cause(Cause::WrongCount));
    }
    let [block, stamp, _, client, start, end, value] = fields else {
        return Err(LineRefusal::Cause(Cause::WrongCount));
    };
    let Some(numbers) = numbers_of(kind, block, stamp, client, start, end) else {
        return Err(LineRefusal::Cause(Cause::BadNumber));
    };
    entry_after(alloc, entries, kind, numbers, value)
}
