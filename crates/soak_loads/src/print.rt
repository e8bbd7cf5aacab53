ghost use Rattle.std.specs.Prelude.{◌≡◌, [], ◌∷◌, ◌++◌, codes, map, IfOk, OnOk};
ghost use Rattle.text_lines.specs.Lines.{line_of_fields, text_of_lines};
ghost use Rattle.history_book.specs.Reports.{count_text, kind_word, stamp_text};
ghost use Rattle.soak_loads.specs.Soaks.{deed_fields, entries_sum, line_with, outcome_fields, plain_line, soak_text, sum_field};

use cross_sum::{Bytes, Hash, sha};
use history_making::{Counts, Entry, History, Kind};
use lists::NoMemory;
use std::alloc::Global;
use text_lines::Text;

/// The line of the history of a run that the number made. `NoMemory` comes only where no memory is found.
pub fn print_soak(alloc: Global, number: u64, history: &History) -> Result<Bytes, NoMemory>
    ensures { IfOk result (λ text. text ≡ soak_text number history.now) }
{
    let sum = sum_of(alloc, history.entries())?;
    let mut text = Text::new(alloc);
    add_line(&mut text, number, history.counts(), &sum)?;
    text.add_newline()?;
    text.into_bytes()
}

fn add_line(text: &mut Text, number: u64, counts: &Counts, sum: &Hash) -> Result<(), NoMemory>
    ensures { OnOk result (text.new ≡ text.old
        ++ line_with number counts.now.done counts.now.spent sum.now) }
{
    text.add(b"soak ")?;
    add_number_and_outcome(text, number, counts, sum)
}

fn add_number_and_outcome(
    text: &mut Text,
    number: u64,
    counts: &Counts,
    sum: &Hash,
) -> Result<(), NoMemory>
    ensures { OnOk result (text.new ≡ text.old
        ++ line_of_fields
        (count_text (codes "number") number ∷ outcome_fields counts.now.done counts.now.spent
        sum.now)) }
{
    add_count(text, b"number", number)?;
    text.add_space()?;
    add_outcome(text, counts, sum)
}

fn add_outcome(text: &mut Text, counts: &Counts, sum: &Hash) -> Result<(), NoMemory>
    ensures { OnOk result (text.new ≡ text.old
        ++ line_of_fields (outcome_fields counts.now.done counts.now.spent sum.now)) }
{
    add_count(text, b"done", counts.done)?;
    text.add_space()?;
    add_count(text, b"spent", counts.spent)?;
    text.add_space()?;
    add_sum(text, sum)
}

/// The digest of the entries without their places.
fn sum_of(alloc: Global, entries: &[Entry]) -> Result<Hash, NoMemory>
    ensures { IfOk result (λ sum. sum ≡ entries_sum entries.now) }
{
    let mut text = Text::new(alloc);
    add_entries(&mut text, entries)?;
    Ok(sha(text.as_slice()))
}

fn add_entries(text: &mut Text, entries: &[Entry]) -> Result<(), NoMemory>
    ensures { OnOk result (text.new ≡ text.old ++ text_of_lines (map plain_line entries.now)) }
{
    for entry in entries {
        add_entry(text, entry)?;
    }
    Ok(())
}

fn add_entry(text: &mut Text, entry: &Entry) -> Result<(), NoMemory>
    ensures { OnOk result (text.new ≡ text.old ++ (plain_line entry.now ++ 10 ∷ [])) }
{
    add_fields(text, entry)?;
    text.add_newline()
}

fn add_fields(text: &mut Text, entry: &Entry) -> Result<(), NoMemory>
    ensures { OnOk result (text.new ≡ text.old ++ plain_line entry.now) }
{
    text.add_number(u64::from(entry.block))?;
    text.add_space()?;
    add_stamp(text, entry)?;
    text.add_space()?;
    add_deed(text, entry)
}

fn add_deed(text: &mut Text, entry: &Entry) -> Result<(), NoMemory>
    ensures { OnOk result (text.new ≡ text.old ++ line_of_fields (deed_fields entry.now)) }
{
    text.add(word(entry.kind))?;
    text.add_space()?;
    text.add_number(u64::from(entry.client))?;
    text.add_space()?;
    text.add_value(entry.value.as_slice())
}

fn add_stamp(text: &mut Text, entry: &Entry) -> Result<(), NoMemory>
    ensures { OnOk result (text.new ≡ text.old ++ stamp_text entry.now) }
{
    text.add_number(entry.time)?;
    text.add_byte(b'.')?;
    text.add_number(u64::from(entry.writer))?;
    text.add_byte(b'.')?;
    text.add_number(u64::from(entry.mark))
}

fn word(kind: Kind) -> &'static [u8]
    ensures { result.now ≡ kind_word kind }
{
    match kind {
        Kind::Read => b"read",
        Kind::Write => b"write",
        Kind::Foreign => b"foreign",
    }
}

fn add_count(text: &mut Text, name: &[u8], count: u64) -> Result<(), NoMemory>
    ensures { OnOk result (text.new ≡ text.old ++ count_text name.now count) }
{
    text.add(name)?;
    text.add_byte(b'=')?;
    text.add_number(count)
}

fn add_sum(text: &mut Text, sum: &Hash) -> Result<(), NoMemory>
    ensures { OnOk result (text.new ≡ text.old ++ sum_field sum.now) }
{
    text.add(b"sum=")?;
    text.add_hex(sum)
}
