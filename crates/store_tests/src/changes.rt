//! What others make of a node's journal.

use crate::draws::Draws;
use crate::unmade::Unmade;
use cross_sum::{Bytes, CrossSum, Hash, sha};
use disk_model::{Disk, MemoryDisk};
use outside_io::Calls;
use quorum_rules::Config;
use stamp_order::Stamp;
use std::alloc::Global;
use version_disk::StoredNode;
use wire_forms::{Ask, Request, Version};

/// What a node's journal is changed to, if it is changed: to an empty one, to one of its older ones, to itself with a version that
/// nobody wrote, or to itself with one byte changed.
pub fn changed(
    alloc: Global,
    config: &Config,
    node: u8,
    journal: &[u8],
    older: &[Vec<u8>],
    draws: &mut Draws,
) -> Result<Option<Vec<u8>>, Unmade> {
    match draws.below(6) {
        0 => Ok(Some(Vec::new(alloc))),
        1 => one_of(alloc, older, draws),
        2 => with_foreign(alloc, config, node, journal, draws),
        3 => with_flipped(alloc, journal, draws),
        _ => Ok(None),
    }
}

fn one_of(
    alloc: Global,
    journals: &[Vec<u8>],
    draws: &mut Draws,
) -> Result<Option<Vec<u8>>, Unmade> {
    match journals.get(draws.place(journals.len())) {
        Some(journal) => Ok(Some(Vec::from_slice(alloc, journal.as_slice())?)),
        None => Ok(None),
    }
}

fn with_flipped(
    alloc: Global,
    journal: &[u8],
    draws: &mut Draws,
) -> Result<Option<Vec<u8>>, Unmade> {
    let mut bytes = Vec::from_slice(alloc, journal)?;
    let place = draws.place(journal.len());
    let flip = draws.byte() | 1;
    if let Some(byte) = bytes.get_mut(place) {
        *byte ^= flip;
    }
    Ok(Some(bytes))
}

/// A disk that holds these bytes and doesn't fail.
fn holding(alloc: Global, bytes: &[u8]) -> Result<MemoryDisk, Unmade> {
    let mut disk = MemoryDisk::new(alloc, Calls::new(alloc));
    match disk.write_at(0, bytes) {
        Ok(()) => Ok(disk),
        Err(_) => Err(Unmade),
    }
}

// The journal with one version more, where it can be opened.
fn with_foreign(
    alloc: Global,
    config: &Config,
    node: u8,
    journal: &[u8],
    draws: &mut Draws,
) -> Result<Option<Vec<u8>>, Unmade> {
    if u32::from(node) >= config.n() {
        return Ok(None);
    }
    let ask = Ask {
        block: draws.below(config.blocks()),
        request: Request::Write(foreign_version(alloc, config, node, draws)?),
    };
    let Ok(mut node) = StoredNode::open(alloc, config, node, holding(alloc, journal)?) else {
        return Ok(None);
    };
    match node.handle(&ask) {
        Ok(_) => Ok(Some(Vec::from_slice(alloc, node.into_disk().bytes())?)),
        Err(_) => Err(Unmade),
    }
}

// A version that the node of this number accepts, of some time, some client, and a fragment of any bytes.
fn foreign_version(
    alloc: Global,
    config: &Config,
    node: u8,
    draws: &mut Draws,
) -> Result<Version, Unmade> {
    let time = u64::MAX >> draws.below(64);
    let client = draws.below(1001);
    let mut fragment = Vec::with_capacity(alloc, config.share() as usize)?;
    for _ in 0..config.share() {
        fragment.push(draws.byte())?;
    }
    let sum = foreign_sum(alloc, config, node, sha(fragment.as_slice()))?;
    Ok(Version {
        stamp: Stamp {
            time,
            client,
            verifier: sum.verifier(),
        },
        sum,
        fragment: Bytes::shared(fragment)?,
    })
}

// The digest of this node's fragment, and those of single bytes for the other nodes.
fn foreign_sum(alloc: Global, config: &Config, node: u8, own: Hash) -> Result<CrossSum, Unmade> {
    let mut hashes = Vec::new(alloc);
    for number in 0..config.n().min(16) as u8 {
        hashes.push(if number == node { own } else { sha(&[number]) })?;
    }
    Ok(CrossSum::of_hashes(alloc, hashes.as_slice())?)
}
