ghost use Rattle.std.specs.Prelude.{◌≡◌, ◌<◌};
ghost use Rattle.quorum_rules.specs.Faults.{numbers};
ghost use Rattle.quorum_rules.specs.declared.Edition.TheVariants.{One};

use cross_sum::{Bytes, CrossSum, sha};
use lists::NoMemory;
use node_core::Node;
use quorum_rules::Config;
use stamp_order::{Bound, Stamp};
use std::alloc::Global;
use std::process::Abort;
use wire_forms::{Ask, First, Reason, Reply, Request, Version};

// What a node replies.
#[derive(Clone, Copy, PartialEq, Eq)]
enum Said {
    Acknowledges,
    Refuses(Reason),
    Found(Stamp),
    Nothing,
    TimeIs(u64),
}

// A version of client 1: its time, how many digests its cross checksum has, each of the byte 7, whether the stamp's verifier is that
// of the cross checksum, and its fragment's only byte.
#[derive(Clone, Copy)]
struct Draft {
    time: u64,
    digests: usize,
    is_verified: bool,
    byte: u8,
}

// A version of this time that a node keeps.
fn sound(time: u64) -> Draft {
    Draft {
        time,
        digests: 5,
        is_verified: true,
        byte: 7,
    }
}

/// Five nodes, one of which may lie; blocks of two bytes in two fragments of one; two blocks.
pub fn cluster(rt: &impl Abort) -> Config
    ensures { result ≡ numbers One 5 1 1 3 2 2 2 }
{
    Config::new(5, 1, 1, 3, 2, 2, 2).expect(rt, "valid")
}

fn sum_of(alloc: Global, digests: usize) -> Result<CrossSum, NoMemory> {
    let mut hashes = Vec::new(alloc);
    for _ in 0..digests {
        hashes.push(sha(&[7]))?;
    }
    CrossSum::of_hashes(alloc, hashes.as_slice())
}

fn version(alloc: Global, draft: Draft) -> Result<Version, NoMemory> {
    let sum = sum_of(alloc, draft.digests)?;
    let verifier = if draft.is_verified {
        sum.verifier()
    } else {
        [0; 32]
    };
    Ok(Version {
        stamp: Stamp {
            time: draft.time,
            client: 1,
            verifier,
        },
        sum,
        fragment: Bytes::of(alloc, &[draft.byte])?,
    })
}

fn stamp_of(alloc: Global, draft: Draft) -> Result<Stamp, NoMemory> {
    Ok(version(alloc, draft)?.stamp)
}

fn said_by(reply: &Reply) -> Said {
    match reply {
        Reply::Ack => Said::Acknowledges,
        Reply::Refused(reason) => Said::Refuses(*reason),
        Reply::Found(version) => Said::Found(version.stamp),
        Reply::Nothing => Said::Nothing,
        Reply::TimeIs(time) => Said::TimeIs(*time),
    }
}

// What the node replies to a write of a version, which it then keeps if it acknowledges it.
fn written(alloc: Global, node: &mut Node, block: u32, draft: Draft) -> Result<Said, NoMemory>
    ensures { node.new.config ≡ node.old.config }
{
    let ask = Ask {
        block,
        request: Request::Write(version(alloc, draft)?),
    };
    Ok(said_by(&node.handle(&ask)?))
}

// What the node replies to a read.
fn read(node: &Node, block: u32, bound: Bound) -> Result<Said, NoMemory> {
    let ask = Ask {
        block,
        request: Request::Read(bound),
    };
    Ok(said_by(&node.reply_to(&ask)?))
}

// Whether block 0 has two versions of these times, in order of acceptance.
fn has_times(node: &Node, first: u64, second: u64) -> bool
    requires { 0 < node.now.config.blocks }
{
    match node.versions(0) {
        Ok(stamps) => are_at(stamps.as_slice(), first, second),
        Err(_) => false,
    }
}

fn are_at(stamps: &[Stamp], first: u64, second: u64) -> bool {
    stamps.len() == 2 && stamps[0].time == first && stamps[1].time == second
}

// Node 0, which keeps the first version alone.
fn new_node(rt: &impl Abort, alloc: Global) -> Node
    ensures { 0 < result.config.blocks }
{
    Node::new(alloc, &cluster(rt), 0).expect(rt, "memory")
}

fn refuses_all(alloc: Global, node: &mut Node) -> bool {
    for (block, time, digests, is_verified, byte, reason) in [
        (2, 0, 4, true, 7, Reason::BadBlock),
        (0, 0, 4, true, 7, Reason::BadLength),
        (0, 0, 5, true, 7, Reason::TimeZero),
        (0, 1, 5, false, 7, Reason::BadVerifier),
        (0, 1, 5, true, 8, Reason::BadDigest),
    ] {
        let draft = Draft {
            time,
            digests,
            is_verified,
            byte,
        };
        if written(alloc, node, block, draft) != Ok(Said::Refuses(reason)) {
            return false;
        }
    }
    true
}

#[test]
fn refuses_by_the_first_fault(rt: HostRuntime) {
    let mut node = new_node(&rt, rt.alloc());
    assert!(rt; refuses_all(rt.alloc(), &mut node));
}

fn finds(node: &Node, first: Stamp) -> bool {
    read(node, 0, Bound::Below(first)) == Ok(Said::Nothing)
        && read(node, 1, Bound::All) == Ok(Said::Found(first))
}

#[test]
fn finds_nothing_below_the_first_version(rt: HostRuntime) {
    let first = First::of(rt.alloc(), &cluster(&rt))
        .expect(&rt, "memory")
        .stamp;
    assert!(rt; finds(&new_node(&rt, rt.alloc()), first));
}

// Whether the node acknowledges a write of time 3 at block 0.
fn is_written(alloc: Global, node: &mut Node) -> bool
    ensures { node.new.config ≡ node.old.config }
{
    written(alloc, node, 0, sound(3)) == Ok(Said::Acknowledges)
}

// Whether a version that is written twice is kept once.
fn keeps_one(alloc: Global, node: &mut Node, stamp: &Stamp) -> bool
    requires { 0 < node.old.config.blocks }
{
    let is_new = !node.keeps(0, stamp);
    let is_written_twice = is_written(alloc, node) && is_written(alloc, node);
    is_new
        && is_written_twice
        && node.keeps(0, stamp)
        && has_times(node, 0, 3)
        && node.greatest_time(0) == 3
}

#[test]
fn keeps_one_version_of_a_stamp(rt: HostRuntime) {
    let stamp = stamp_of(rt.alloc(), sound(3)).expect(&rt, "memory");
    let mut node = new_node(&rt, rt.alloc());
    assert!(rt; keeps_one(rt.alloc(), &mut node, &stamp));
}
