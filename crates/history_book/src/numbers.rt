//! The fields of an entry line that hold words and numbers.
#![tactic(auto, using(text_lines::proofs::lemmas::Spelled::spelled, std::proofs::lemmas::Grind::common_steps))]

ghost use Rattle.std.specs.Prelude.{◌≡◌};
ghost use Rattle.history_book.specs.ReportTexts.{kind_told, stamp_told, some_place, no_place, start_told, end_told, numbers_told};

use history_making::Kind;
use text_lines::{cut, number, number_u32};

/// The numbers of a stamp in a report.
#[derive(Clone, Copy)]
pub struct StampNumbers {
    pub time: u64,
    pub writer: u32,
    pub mark: u32,
}

/// The numbers of an entry line.
#[derive(Clone, Copy)]
pub struct Numbers {
    pub block: u32,
    pub stamp: StampNumbers,
    pub client: u32,
    pub start: Option<u64>,
    pub end: Option<u64>,
}

/// The kind of entry that a word names.
pub fn kind_of(word: &[u8]) -> Option<Kind>
    ensures { result ≡ kind_told word.now }
{
    if word == b"read".as_slice() {
        Some(Kind::Read)
    } else if word == b"write".as_slice() {
        Some(Kind::Write)
    } else if word == b"foreign".as_slice() {
        Some(Kind::Foreign)
    } else {
        None
    }
}

/// The numbers of a stamp that a field spells, with a dot between two.
fn stamp_of(field: &[u8]) -> Option<StampNumbers>
    ensures { result ≡ stamp_told field.now }
{
    let (time, rest) = cut(field, b'.')?;
    let (writer, mark) = cut(rest, b'.')?;
    Some(StampNumbers {
        time: number(time)?,
        writer: number_u32(writer)?,
        mark: number_u32(mark)?,
    })
}

fn place_of(field: &[u8]) -> Option<Option<u64>>
    ensures { result ≡ some_place field.now }
{
    Some(Some(number(field)?))
}

fn no_place_of(field: &[u8]) -> Option<Option<u64>>
    ensures { result ≡ no_place field.now }
{
    if field == b"-".as_slice() {
        Some(None)
    } else {
        None
    }
}

/// The start of an entry of this kind that a field spells.
fn start_of(kind: Kind, field: &[u8]) -> Option<Option<u64>>
    ensures { result ≡ start_told kind field.now }
{
    match kind {
        Kind::Read | Kind::Write => place_of(field),
        Kind::Foreign => no_place_of(field),
    }
}

/// The end of an entry of this kind that a field spells.
fn end_of(kind: Kind, field: &[u8]) -> Option<Option<u64>>
    ensures { result ≡ end_told kind field.now }
{
    match kind {
        Kind::Read => place_of(field),
        Kind::Write if field == b"-".as_slice() => Some(None),
        Kind::Write => place_of(field),
        Kind::Foreign => no_place_of(field),
    }
}

/// The numbers that the fields of an entry line of this kind spell.
#[tactic(auto, using(std::proofs::lemmas::Grind::common_steps), unfolding(crate::specs::ReportTexts::numbers_told))]
pub fn numbers_of(
    kind: Kind,
    block: &[u8],
    stamp: &[u8],
    client: &[u8],
    start: &[u8],
    end: &[u8],
) -> Option<Numbers>
    ensures { result ≡ numbers_told kind block.now stamp.now client.now start.now end.now }
{
    Some(Numbers {
        block: number_u32(block)?,
        stamp: stamp_of(stamp)?,
        client: number_u32(client)?,
        start: start_of(kind, start)?,
        end: end_of(kind, end)?,
    })
}
