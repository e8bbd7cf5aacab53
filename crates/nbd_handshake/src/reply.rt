//! What the server sends, as bytes.
ghost use Rattle.std.specs.Prelude.{◌≡◌, ◌++◌, [], replicate};
ghost use Rattle.std.specs.Int.{w16, to_be_bytes};
ghost use Rattle.nbd_handshake.specs.Numbers.{ack, list, block_size_info};
ghost use Rattle.nbd_handshake.specs.Replies.{reply_head, option_reply, about, listed, size_and_flags, block_sizes};

use crate::export::Export;
use crate::query::{ACK, LIST};

/// What the server begins with: "NBDMAGIC", "IHAVEOPT", and its flags.
pub(crate) const GREETING: [u8; 18] = [
    78, 66, 68, 77, 65, 71, 73, 67, 73, 72, 65, 86, 69, 79, 80, 84, 0, 3,
];

/// With which each reply to an option begins.
const REPLY_MAGIC: [u8; 8] = [0x00, 0x03, 0xe8, 0x89, 0x04, 0x55, 0x65, 0xa9];

/// What clients may ask of the export: there are flags, and flushes, FUA, trims and zeroes are served.
const EXPORT_FLAGS: u16 = 0x6d;

/// The longest data of a read or a write in bytes.
pub const MOST_PAYLOAD: u32 = 1 << 25;

/// The kinds of replies that list an export, and that tell of one.
const SERVER: u32 = 2;

const INFO: u32 = 3;

/// A reply of a kind to an option before its data, which are so many.
fn head(number: u32, kind: u32, len: u32) -> [u8; 20]
    ensures { result ≡ reply_head number kind len }
{
    let mut text = [0u8; 20];
    text[..8].copy_from_slice(&REPLY_MAGIC);
    text[8..12].copy_from_slice(&number.to_be_bytes());
    text[12..16].copy_from_slice(&kind.to_be_bytes());
    text[16..].copy_from_slice(&len.to_be_bytes());
    text
}

/// The last reply to an option.
pub(crate) fn last(number: u32, kind: u32) -> [u8; 20]
    ensures { result ≡ option_reply number kind [] }
{
    head(number, kind, 0)
}

/// The replies to LIST: the one export, which has no name.
pub(crate) fn listing() -> [u8; 44]
    ensures { result ≡ listed ++ option_reply list ack [] }
{
    let mut text = [0u8; 44];
    text[..20].copy_from_slice(&head(LIST, SERVER, 4));
    text[24..].copy_from_slice(&last(LIST, ACK));
    text
}

/// The export's size and flags.
fn size_and_flags(export: &Export) -> [u8; 10]
    ensures { result ≡ size_and_flags export.now }
{
    let mut text = [0u8; 10];
    text[..8].copy_from_slice(&export.size.to_be_bytes());
    text[8..].copy_from_slice(&EXPORT_FLAGS.to_be_bytes());
    text
}

/// The sizes of requests: any at all, those that need no more than their own bytes, and the most.
fn block_sizes(export: &Export) -> [u8; 14]
    ensures { result ≡ to_be_bytes w16 block_size_info ++ block_sizes export.now }
{
    let mut text = [0u8; 14];
    text[1] = 3;
    text[5] = 1;
    text[6..10].copy_from_slice(&export.preferred.to_be_bytes());
    text[10..].copy_from_slice(&MOST_PAYLOAD.to_be_bytes());
    text
}

/// The replies to an INFO or GO that is served.
pub(crate) fn details(export: &Export, number: u32) -> [u8; 86]
    ensures { result ≡ about export.now number ++ option_reply number ack [] }
{
    let mut text = [0u8; 86];
    text[..20].copy_from_slice(&head(number, INFO, 12));
    text[22..32].copy_from_slice(&size_and_flags(export));
    text[32..52].copy_from_slice(&head(number, INFO, 14));
    text[52..66].copy_from_slice(&block_sizes(export));
    text[66..].copy_from_slice(&last(number, ACK));
    text
}

/// The answer to EXPORT_NAME, with its zeros behind it.
pub(crate) fn start(export: &Export) -> [u8; 134]
    ensures { result ≡ size_and_flags export.now ++ replicate 124 0 }
{
    let mut text = [0u8; 134];
    text[..10].copy_from_slice(&size_and_flags(export));
    text
}
