//! The turns of a batch's operations, in parts: each part is one thread's.
ghost use Rattle.std.specs.Prelude.{◌≡◌, ◌<◌, ℕ, All, IfOk, length, slice_index_or};
ghost use Rattle.std.specs.List.{AllZip, flat_map};
ghost use Rattle.batch_clients.specs.Turns.{MayHear, MayTake, Comes};
ghost use Rattle.batch_clients.specs.Sharing.{turns_of, IsPart, IsTaken};

use crate::encoding::encode_together;
use crate::turn::{Turn, take};
use lists::NoMemory;
use quorum_rules::Config;
use std::alloc::Global;
use std::mem::replace;
use std::thread::Threads;
use thread_spread::for_each_apart;

/// Turns of operations of a cluster.
#[derive(Drop)]
pub(crate) struct Part {
    config: Config,
    turns: Vec<Turn>,
}

/// The turns in order, in so many parts at most.
pub(crate) fn parts_of(
    alloc: Global,
    config: &Config,
    most: usize,
    turns: Vec<Turn>,
) -> Result<Vec<Part>, NoMemory>
    requires some { 0 < most }
    requires may { All (MayTake config.now) turns.items }
    ensures turns { IfOk result (λ parts. flat_map turns_of parts.items ≡ turns.items) }
    ensures may { IfOk result (λ parts. All IsPart parts.items) }
{
    let size = turns.len().div_ceil(most).max(1);
    let mut parts = Vec::with_capacity(alloc, most)?;
    let mut rest = turns;
    'parts: while size < rest.len() {
        let more = rest.split_off(size)?;
        let turns = replace(&mut rest, more);
        parts.push(part_of(config, turns))?;
    }
    parts.push(part_of(config, rest))?;
    Ok(parts)
}

fn part_of(config: &Config, turns: Vec<Turn>) -> Part
    ensures config { result.config ≡ config.now }
    ensures turns { result.turns.items ≡ turns.items }
{
    let config = *config;
    Part { config, turns }
}

/// Has the operations of each part take their turns, all parts at once.
pub(crate) fn take_parts<R: Threads + Sync>(rt: &R, mut parts: Vec<Part>) -> Vec<Part>
    requires { All IsPart parts.items }
    ensures count { length result.items ≡ length parts.items }
    ensures each { (i : ℕ) (d : _) → i < length parts.items
        → IsTaken (slice_index_or parts.items i d) (slice_index_or result.items i d) }
{
    take_at_once(rt, &mut parts);
    parts
}

/// Has the operations of each part take their turns, each part in a thread.
fn take_at_once<R: Threads + Sync>(rt: &R, parts: &mut [Part])
    requires { All IsPart parts.old }
    ensures count { length parts.new ≡ length parts.old }
    ensures each { (i : ℕ) (d : _) → i < length parts.old
        → IsTaken (slice_index_or parts.old i d) (slice_index_or parts.new i d) }
{
    let threads = parts.len().max(1);
    for_each_apart(
        rt,
        parts,
        threads,
        &|_: usize, part: &mut Part|
            requires { IsPart part.old }
            ensures { IsTaken part.old part.new }
        { take_part(part) },
    );
}

/// Has the operations of a part take their turns, one after the other.
fn take_part(part: &mut Part)
    requires { IsPart part.old }
    ensures { IsTaken part.old part.new }
{
    let alloc = *part.turns.allocator();
    // Where memory lacks for this, each write encodes its own value.
    let _encoded = encode_together(alloc, &part.config, &mut part.turns);
    take_each(&mut part.turns);
}

/// Has operations take their turns, one after the other.
fn take_each(turns: &mut [Turn])
    requires { All MayHear turns.old }
    ensures { AllZip Comes turns.old turns.new }
{
    for k in 0..turns.len() {
        take(&mut turns[k]);
    }
}

/// The turns of all parts, in order.
pub(crate) fn joined(alloc: Global, parts: Vec<Part>) -> Result<Vec<Turn>, NoMemory>
    ensures { IfOk result (λ turns. turns.items ≡ flat_map turns_of parts.items) }
{
    let mut turns = Vec::new(alloc);
    for part in parts {
        let Part {
            config: _config,
            turns: mut own,
        } = part;
        turns.append(&mut own)?;
    }
    Ok(turns)
}
