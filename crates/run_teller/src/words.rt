//! Words of what is told, and the line that starts an operation.
use cross_sum::Bytes;
use lists::NoMemory;
use run_words::Record;
use std::alloc::Global;
use std::fmt::Write;
use text_lines::Text;
use wire_forms::Op;

/// How many bytes of a value are shown.
const BYTES: usize = 6;

/// Adds words at the end of a text.
pub fn add_words(text: &mut String, words: &str) -> Result<(), NoMemory> {
    text.push_str(words)?;
    Ok(())
}

/// Adds a value: `x` and the first of its bytes in hexadecimal digits.
pub fn add_value(words: &mut String, bytes: &[u8]) -> Result<(), NoMemory> {
    words.push('x')?;
    for byte in bytes.iter().take(BYTES) {
        write!(words, "{byte:02x}")?;
    }
    if bytes.len() > BYTES {
        words.push_str("...")?;
    }
    Ok(())
}

/// The event line that starts a record's operation.
pub fn starting_text(alloc: Global, record: &Record) -> Result<Bytes, NoMemory> {
    let mut text = Text::new(alloc);
    add_starting(&mut text, record)?;
    text.into_bytes()
}

fn add_starting(text: &mut Text, record: &Record) -> Result<(), NoMemory> {
    let client = u64::from(record.client);
    match &record.op {
        Op::Read { block } => add_start(text, b"read ", client, *block),
        Op::Write { block, value } => {
            add_start(text, b"write ", client, *block)?;
            text.add_space()?;
            text.add_value(value.as_slice())
        }
    }
}

fn add_start(text: &mut Text, word: &[u8], client: u64, block: u32) -> Result<(), NoMemory> {
    text.add(word)?;
    text.add_number(client)?;
    text.add_space()?;
    text.add_number(u64::from(block))
}
