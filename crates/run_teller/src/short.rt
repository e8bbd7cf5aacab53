//! Lines that are short enough for a picture.
ghost use Rattle.std.specs.Prelude.{◌≡◌, ◌++◌, IfOk, OnOk, map};
ghost use Rattle.text_lines.specs.Lines.{fields_of, line_of_fields};
ghost use Rattle.run_teller.specs.Short.{shortened, room_of, short_field, short_line, AreLinesOf};

use lists::NoMemory;
use std::alloc::Global;
use text_lines::{Text, cut};

/// How many characters a value has at most: those of its first six bytes.
const VALUE: usize = 13;

/// How many characters another field has at most.
const FIELD: usize = 28;

/// How many characters a line has at most.
const LINE: usize = 60;

/// Adds the first so many characters of a text, and three dots where it has more.
fn add_shortened(short: &mut Text, text: &[u8], most: usize) -> Result<(), NoMemory>
    ensures { OnOk result (short.new ≡ short.old ++ shortened most text.now) }
{
    if text.len() <= most {
        return short.add(text);
    }
    short.add(&text[..most])?;
    short.add(b"...")
}

/// How many characters a field has at most.
fn room_of(field: &[u8]) -> usize
    ensures { result ≡ room_of field.now }
{
    match field.first() {
        Some(b'x') => VALUE,
        _ => FIELD,
    }
}

fn add_short_field(short: &mut Text, field: &[u8]) -> Result<(), NoMemory>
    ensures { OnOk result (short.new ≡ short.old ++ short_field field.now) }
{
    add_shortened(short, field, room_of(field))
}

/// Adds a line with each long field shortened.
fn add_short_fields(short: &mut Text, line: &[u8]) -> Result<(), NoMemory>
    ensures { OnOk result
        (short.new ≡ short.old ++ line_of_fields (map short_field (fields_of line.now))) }
{
    let mut rest = line;
    while let Some((field, after)) = cut(rest, b' ') {
        add_short_field(short, field)?;
        short.add_space()?;
        rest = after;
    }
    add_short_field(short, rest)
}

/// A line of a script or a report as a picture shows it: a value by its first six bytes, another field by its first 28
/// characters, and of all that the first 60, each with three dots where there is more.
pub fn short_line(alloc: Global, line: &[u8]) -> Result<Text, NoMemory>
    ensures { IfOk result (λ short. short ≡ short_line line.now) }
{
    let mut fields = Text::new(alloc);
    add_short_fields(&mut fields, line)?;
    let mut short = Text::new(alloc);
    add_shortened(&mut short, fields.as_slice(), LINE)?;
    Ok(short)
}

/// The lines of a text, shortened. What stands after its last newline is left out.
pub fn short_lines(alloc: Global, text: &[u8]) -> Result<Vec<Text>, NoMemory>
    ensures { IfOk result (λ lines. AreLinesOf text.now lines.items) }
{
    let mut lines = Vec::new(alloc);
    let mut rest = text;
    while let Some((line, after)) = cut(rest, b'\n') {
        lines.push(short_line(alloc, line)?)?;
        rest = after;
    }
    Ok(lines)
}
