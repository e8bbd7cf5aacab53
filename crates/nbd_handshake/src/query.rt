//! What an option's data ask for.
ghost use Rattle.std.specs.Prelude.{◌≡◌, ◌<◌, ◌≤◌, ℕ, List, true, length, IfOk, IfSome, OnOk, OnErr, Ok, None};
ghost use Rattle.std.specs.Io.KnownBytes.{Consumes};
ghost use Rattle.outside_io.specs.Causes.{Rose};
ghost use Rattle.exact_input.specs.Counts.{GaveFewer};
ghost use Rattle.nbd_handshake.specs.Numbers.{most_data};
ghost use Rattle.nbd_handshake.specs.Options.{asks_about, answer_of, is_query, query_answer};
ghost use Rattle.nbd_handshake.specs.Steps.{asked, IsCutShort, IsTaken};

use crate::arrival::{Head, four};
use exact_input::{drop_bytes, fill};
use outside_io::{Failed, Source};

/// How many bytes of data of INFO and GO are kept.
const MOST_DATA: u32 = 8192;

pub(crate) const EXPORT_NAME: u32 = 1;

pub(crate) const ABORT: u32 = 2;

pub(crate) const LIST: u32 = 3;

pub(crate) const INFO: u32 = 6;

pub(crate) const GO: u32 = 7;

/// The reply that ends the replies to an option that is served.
pub(crate) const ACK: u32 = 1;

const UNSUPPORTED: u32 = 0x8000_0001;

const INVALID: u32 = 0x8000_0003;

const UNKNOWN: u32 = 0x8000_0006;

const TOO_BIG: u32 = 0x8000_0009;

impl Head {
    /// Whether it asks about the export.
    pub fn asks_about(&self) -> bool
        ensures { result ≡ asks_about self.now.number }
    {
        self.number == INFO || self.number == GO
    }
}

/// Reads an option's data, and gives the kind of the last reply to it; none where the input ends within them.
pub(crate) fn take_data<S: Source>(source: &mut S, head: &Head) -> Result<Option<u32>, Failed>
    ensures some { IfOk result (λ found. IfSome found (λ kind.
        (bytes : List ℕ) × Consumes (S.left source.old) (S.left source.new) bytes
        × IsTaken head.now kind bytes)) }
    ensures none { result ≡ Ok None
        → IsCutShort head.now.len (S.left source.old) (S.left source.new) }
    ensures fewer { OnErr result (GaveFewer head.now.len (S.left source.old) (S.left source.new)) }
    ensures cause { OnErr result (Rose S.last (S.faults source.old) (S.faults source.new)) }
    ensures calm { OnOk result (S.faults source.new ≡ S.faults source.old) }
{
    if head.asks_about() && head.len <= MOST_DATA {
        return take_query(source, head.len);
    }
    match drop_bytes(source, head.len)? {
        true => Ok(Some(dropped_answer(head))),
        false => Ok(None),
    }
}

/// Reads the data of INFO or GO, and gives the kind of the last reply to it.
fn take_query<S: Source>(source: &mut S, len: u32) -> Result<Option<u32>, Failed>
    requires { len ≤ most_data }
    ensures some { IfOk result (λ found. IfSome found (λ kind.
        (bytes : List ℕ) × Consumes (S.left source.old) (S.left source.new) bytes
        × (length bytes ≡ len) × (kind ≡ query_answer bytes))) }
    ensures none { result ≡ Ok None → IsCutShort len (S.left source.old) (S.left source.new) }
    ensures fewer { OnErr result (GaveFewer len (S.left source.old) (S.left source.new)) }
    ensures cause { OnErr result (Rose S.last (S.faults source.old) (S.faults source.new)) }
    ensures calm { OnOk result (S.faults source.new ≡ S.faults source.old) }
{
    let mut room = [0u8; MOST_DATA as usize];
    let bytes = &mut room[..len as usize];
    if fill(source, bytes)? < bytes.len() {
        return Ok(None);
    }
    Ok(Some(query_answer(bytes)))
}

/// What becomes of an INFO or GO with these data: the one export has no name.
fn query_answer(bytes: &[u8]) -> u32
    requires { length bytes.now ≤ most_data }
    ensures { result ≡ query_answer bytes.now }
{
    if !is_query(bytes) {
        return INVALID;
    }
    if four(&bytes[..4]) != 0 {
        return UNKNOWN;
    }
    ACK
}

/// Whether data are those of INFO or GO: a name behind its length, and so many kinds of information as their count says.
fn is_query(bytes: &[u8]) -> bool
    ensures is { result ≡ is_query bytes.now }
    ensures long { result ≡ true → 6 ≤ length bytes.now }
{
    if bytes.len() < 6 {
        return false;
    }
    let name_len = four(&bytes[..4]) as usize;
    if name_len > bytes.len() - 6 {
        return false;
    }
    let count = u16::from_be_bytes([bytes[4 + name_len], bytes[5 + name_len]]);
    6 + name_len + 2 * count as usize == bytes.len()
}

/// The kind of the last reply to an option whose data were dropped: an INFO or GO has too many.
fn dropped_answer(head: &Head) -> u32
    requires { asks_about head.now.number ≡ true → most_data < head.now.len }
    ensures { (bytes : List ℕ) → length bytes ≡ head.now.len
        → result ≡ answer_of (asked head.now bytes) }
{
    if head.asks_about() {
        return TOO_BIG;
    }
    match head.number {
        LIST if head.len == 0 => ACK,
        LIST => INVALID,
        ABORT => ACK,
        _ => UNSUPPORTED,
    }
}
