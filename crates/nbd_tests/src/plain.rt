//! A session of a plain array of bytes.

use crate::unmade::Unmade;
use nbd_front::SessionEnd;
use std::alloc::Global;

/// What is written after the greeting, and how the session ends.
#[derive(Drop)]
pub struct Expected {
    pub replies: Vec<u8>,
    pub ended: Result<(), SessionEnd>,
}

// The number of bytes, its high byte first.
fn number(bytes: &[u8]) -> u64 {
    bytes.iter().fold(
        0u64,
        |n, byte| n.wrapping_mul(256).wrapping_add(u64::from(*byte)),
    )
}

// What of a request stands after its magic.
#[derive(Clone, Copy)]
struct Fields<'a> {
    flags: u64,
    kind: u64,
    handle: &'a [u8],
    offset: u64,
    len: u64,
}

fn fields_of<'a>(head: &'a [u8]) -> Option<Fields<'a>> {
    Some(Fields {
        flags: number(head.get(4..6)?),
        kind: number(head.get(6..8)?),
        handle: head.get(8..16)?,
        offset: number(head.get(16..24)?),
        len: number(head.get(24..28)?),
    })
}

// The error of a request to so many bytes.
fn error_of(fields: &Fields, size: u64) -> u8 {
    let past = fields.offset > size || fields.len > size.saturating_sub(fields.offset);
    match fields.kind {
        _ if fields.flags != 0 => 22,
        3 => 0,
        0 if past => 22,
        1 if past => 28,
        0 | 1 => 0,
        _ => 22,
    }
}

fn push_reply(replies: &mut Vec<u8>, error: u8, handle: &[u8]) -> Result<(), Unmade> {
    replies.extend_from_slice(&[0x67, 0x44, 0x66, 0x98, 0, 0, 0, error])?;
    Ok(replies.extend_from_slice(handle)?)
}

// Puts data into the array from a place on.
fn store(array: &mut [u8], start: usize, bytes: &[u8]) {
    for (index, byte) in bytes.iter().enumerate() {
        if let Some(place) = array.get_mut(start.saturating_add(index)) {
            *place = *byte;
        }
    }
}

// Does what a request asks, and writes its reply.
fn serve(
    array: &mut [u8],
    fields: &Fields,
    bytes: &[u8],
    replies: &mut Vec<u8>,
) -> Result<(), Unmade> {
    let error = error_of(fields, array.len() as u64);
    push_reply(replies, error, fields.handle)?;
    if error == 0 {
        let start = fields.offset.min(1 << 40) as usize;
        match fields.kind {
            0 => {
                let end = start.saturating_add(fields.len as usize);
                replies.extend_from_slice(array.get(start..end).unwrap_or(&[]))?;
            }
            1 => store(array, start, bytes),
            _ => {}
        }
    }
    Ok(())
}

// The fields of the request with which bytes begin, and its data; or how the session ends there.
fn next_of<'a>(rest: &'a [u8], at: u64) -> Result<(Fields<'a>, &'a [u8]), Result<(), SessionEnd>> {
    if rest.is_empty() {
        return Err(Ok(()));
    }
    if rest.len() >= 4 && number(rest.get(..4).unwrap_or(&[])) != 0x2560_9513 {
        return Err(Err(SessionEnd::BadMagic { at }));
    }
    let cut = Err(SessionEnd::CutRequest { at });
    let Some(fields) = rest.get(..28).and_then(|head| fields_of(head)) else {
        return Err(cut);
    };
    if fields.kind == 2 {
        return Err(Ok(()));
    }
    let len = if fields.kind == 1 { fields.len } else { 0 };
    let end = 28usize.saturating_add(len as usize);
    match rest.get(28..end) {
        Some(bytes) => Ok((fields, bytes)),
        None => Err(cut),
    }
}

/// What comes of an input, where the array has so many bytes and they are 0.
pub fn answers_of(alloc: Global, size: usize, input: &[u8]) -> Result<Expected, Unmade> {
    let mut array = vec![in alloc; 0u8; size]?;
    let mut replies = Vec::new(alloc);
    let mut at = 0usize;
    for _ in 0..input.len() {
        match next_of(input.get(at..).unwrap_or(&[]), at as u64) {
            Ok((fields, bytes)) => {
                serve(&mut array, &fields, bytes, &mut replies)?;
                at = at.saturating_add(28).saturating_add(bytes.len());
            }
            Err(ended) => return Ok(Expected { replies, ended }),
        }
    }
    Ok(Expected {
        replies,
        ended: Ok(()),
    })
}
