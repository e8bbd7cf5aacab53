ghost use Rattle.std.specs.Prelude.{◌≡◌, [], ◌∷◌, ◌++◌, map, IfOk, OnOk};
ghost use Rattle.text_lines.specs.Lines.{line_of_fields, text_of_lines};
ghost use Rattle.history_book.specs.Reports.{kind_word, place_text, stamp_text, operation_fields, further_counts, entry_line, spent_line, end_line, count_text, report_text};

use cross_sum::Bytes;
use history_making::{Counts, Entry, History, Kind, Spent};
use lists::NoMemory;
use std::alloc::Global;
use text_lines::Text;

/// The report of a history: a line for each entry, one for each spent write, and one with the counts. `NoMemory` comes only
/// where no memory is found.
pub fn print(alloc: Global, history: &History) -> Result<Bytes, NoMemory>
    ensures { IfOk result (λ text. text ≡ report_text history.now) }
{
    let mut text = Text::new(alloc);
    add_entries(&mut text, history.entries())?;
    add_spent_writes(&mut text, history.spent())?;
    add_counts(&mut text, history.counts())?;
    text.into_bytes()
}

fn add_entries(text: &mut Text, entries: &[Entry]) -> Result<(), NoMemory>
    ensures { OnOk result (text.new ≡ text.old ++ text_of_lines (map entry_line entries.now)) }
{
    for entry in entries {
        add_entry(text, entry)?;
    }
    Ok(())
}

fn add_spent_writes(text: &mut Text, spent: &[Spent]) -> Result<(), NoMemory>
    ensures { OnOk result (text.new ≡ text.old ++ text_of_lines (map spent_line spent.now)) }
{
    for write in spent {
        add_spent(text, write)?;
    }
    Ok(())
}

fn add_entry(text: &mut Text, entry: &Entry) -> Result<(), NoMemory>
    ensures { OnOk result (text.new ≡ text.old ++ (entry_line entry.now ++ 10 ∷ [])) }
{
    add_entry_fields(text, entry)?;
    text.add_newline()
}

fn add_entry_fields(text: &mut Text, entry: &Entry) -> Result<(), NoMemory>
    ensures { OnOk result (text.new ≡ text.old ++ entry_line entry.now) }
{
    text.add_number(u64::from(entry.block))?;
    text.add_space()?;
    add_stamp(text, entry)?;
    text.add_space()?;
    add_kind_and_operation(text, entry)
}

fn add_kind_and_operation(text: &mut Text, entry: &Entry) -> Result<(), NoMemory>
    ensures { OnOk result (text.new ≡ text.old
        ++ line_of_fields (kind_word entry.now.kind ∷ operation_fields entry.now)) }
{
    text.add(word(entry.kind))?;
    text.add_space()?;
    add_operation(text, entry)
}

fn add_operation(text: &mut Text, entry: &Entry) -> Result<(), NoMemory>
    ensures { OnOk result (text.new ≡ text.old ++ line_of_fields (operation_fields entry.now)) }
{
    text.add_number(u64::from(entry.client))?;
    text.add_space()?;
    add_place(text, entry.start)?;
    text.add_space()?;
    add_place(text, entry.end)?;
    text.add_space()?;
    text.add_value(entry.value.as_slice())
}

fn add_stamp(text: &mut Text, entry: &Entry) -> Result<(), NoMemory>
    ensures { OnOk result (text.new ≡ text.old ++ stamp_text entry.now) }
{
    text.add_number(entry.time)?;
    text.add_byte(b'.')?;
    text.add_number(u64::from(entry.writer))?;
    text.add_byte(b'.')?;
    text.add_number(u64::from(entry.mark))
}

fn word(kind: Kind) -> &'static [u8]
    ensures { result.now ≡ kind_word kind }
{
    match kind {
        Kind::Read => b"read",
        Kind::Write => b"write",
        Kind::Foreign => b"foreign",
    }
}

fn add_place(text: &mut Text, place: Option<u64>) -> Result<(), NoMemory>
    ensures { OnOk result (text.new ≡ text.old ++ place_text place) }
{
    match place {
        Some(number) => text.add_number(number),
        None => text.add_byte(b'-'),
    }
}

fn add_spent(text: &mut Text, write: &Spent) -> Result<(), NoMemory>
    ensures { OnOk result (text.new ≡ text.old ++ (spent_line write.now ++ 10 ∷ [])) }
{
    text.add(b"spent ")?;
    text.add_number(u64::from(write.client))?;
    text.add_space()?;
    text.add_number(write.start)?;
    text.add_space()?;
    text.add_number(write.end)?;
    text.add_newline()
}

fn add_counts(text: &mut Text, counts: &Counts) -> Result<(), NoMemory>
    ensures { OnOk result (text.new ≡ text.old ++ (end_line counts.now ++ 10 ∷ [])) }
{
    add_count_fields(text, counts)?;
    text.add_newline()
}

fn add_count_fields(text: &mut Text, counts: &Counts) -> Result<(), NoMemory>
    ensures { OnOk result (text.new ≡ text.old ++ end_line counts.now) }
{
    text.add(b"end ")?;
    add_count(text, b"done", counts.done)?;
    text.add_space()?;
    add_count(text, b"spent", counts.spent)?;
    text.add_space()?;
    add_further_counts(text, counts)
}

fn add_further_counts(text: &mut Text, counts: &Counts) -> Result<(), NoMemory>
    ensures { OnOk result (text.new ≡ text.old ++ line_of_fields (further_counts counts.now)) }
{
    add_count(text, b"pending", counts.pending)?;
    text.add_space()?;
    add_count(text, b"repaired", counts.repaired)?;
    text.add_space()?;
    add_count(text, b"rounds", counts.rounds)
}

fn add_count(text: &mut Text, name: &[u8], count: u64) -> Result<(), NoMemory>
    ensures { OnOk result (text.new ≡ text.old ++ count_text name.now count) }
{
    text.add(name)?;
    text.add_byte(b'=')?;
    text.add_number(count)
}
