//! What the messages of a run show: no two different strings of its pool share a digest.

use cross_sum::{Hash, sha};
use script_run::perform;
use script_text::read_replay;
use std::alloc::Global;
use std::io;
use wire_forms::{Ask, Body, Message, Reply, Request, Version};

// A string of which a message tells the digest.
#[derive(Drop)]
struct Seen {
    string: Vec<u8>,
    digest: Hash,
}

fn add(seen: &mut Vec<Seen>, string: Vec<u8>) -> io::Result<()> {
    let digest = sha(string.as_slice());
    seen.push(Seen { string, digest })?;
    Ok(())
}

// Adds a version's fragment, and the digests of its cross checksum one after another.
fn add_version(seen: &mut Vec<Seen>, alloc: Global, version: &Version) -> io::Result<()> {
    let mut fragment = Vec::new(alloc);
    fragment.extend_from_slice(version.fragment.as_slice())?;
    add(seen, fragment)?;
    let mut digests = Vec::new(alloc);
    for digest in version.sum.hashes() {
        digests.extend_from_slice(digest)?;
    }
    add(seen, digests)
}

fn version_in(message: &Message) -> Option<&Version> {
    match &message.body {
        Body::Ask(
            Ask {
                request: Request::Write(version),
                ..
            },
        )
        | Body::Answer(Reply::Found(version)) => Some(version),
        _ => None,
    }
}

fn seen_in(alloc: Global, pool: &[Message]) -> io::Result<Vec<Seen>> {
    let mut seen = Vec::new(alloc);
    for message in pool {
        if let Some(version) = version_in(message) {
            add_version(&mut seen, alloc, version)?;
        }
    }
    Ok(seen)
}

fn clash(one: &Seen, other: &Seen) -> bool {
    one.digest == other.digest && one.string.as_slice() != other.string.as_slice()
}

fn have_clash(seen: &[Seen]) -> bool {
    for one in seen {
        for other in seen {
            if clash(one, other) {
                return true;
            }
        }
    }
    false
}

/// Whether a script can be replayed, and no two different strings of its pool share a digest.
pub fn has_no_clash(alloc: Global, script: &[u8]) -> io::Result<bool> {
    let Ok(replay) = read_replay(alloc, script) else {
        return Ok(false);
    };
    let Ok(world) = perform(alloc, replay) else {
        return Ok(false);
    };
    let seen = seen_in(alloc, world.pool())?;
    Ok(!have_clash(seen.as_slice()))
}
