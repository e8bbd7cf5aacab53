ghost use Rattle.std.specs.Prelude.{◌≡◌, ◌++◌, OnOk};
ghost use Rattle.nbd_front.specs.Replies.{greeting, reply_head};

use std::alloc::AllocError;

/// The words with which a greeting begins.
const GREETING: [u8; 16] = [
    78, 66, 68, 77, 65, 71, 73, 67, 0x00, 0x00, 0x42, 0x02, 0x81, 0x86, 0x12, 0x53,
];

/// The bytes with which each reply begins.
const MAGIC: [u8; 4] = [0x67, 0x44, 0x66, 0x98];

/// The greeting of a device of so many bytes.
pub fn greeting(size: u64) -> [u8; 152]
    ensures { result ≡ greeting size }
{
    let mut text = [0u8; 152];
    text[..16].copy_from_slice(&GREETING);
    text[16..24].copy_from_slice(&size.to_be_bytes());
    text[27] = 5;
    text
}

/// Adds a reply, its data aside, to a text.
pub fn push_head(text: &mut Vec<u8>, error: u32, handle: &[u8; 8]) -> Result<(), AllocError>
    ensures { OnOk result (text.new.items ≡ text.old.items ++ reply_head error handle.now) }
{
    text.extend_from_slice(&MAGIC)?;
    text.extend_from_slice(&error.to_be_bytes())?;
    text.extend_from_slice(handle)
}
