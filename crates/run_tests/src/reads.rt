use crate::nodes::cluster;
use read_core::{Reader, Reading};
use std::alloc::Global;
use std::process::Abort;
use wire_forms::{First, Reply, Tag, Version};
use world_steps::How;

// What a reader says to an answer.
#[derive(Clone, Copy, PartialEq, Eq)]
enum Said {
    More,
    // The answers of the nodes 0, 2 and 3 aren't valid.
    Outvoted,
    // Those of the nodes 0 to 3 aren't.
    AllOutvoted,
    // It gives two zeros under time 0, and stored nothing.
    Zeros,
    Other,
}

// A read that has asked five nodes.
fn begun(rt: &impl Abort, alloc: Global) -> Reader {
    let config = cluster(rt);
    let first = First::of(alloc, &config).expect(rt, "memory").stamp;
    let begun = Reader::begin(alloc, &config, &first, 1, 1, 0);
    let (reader, mail) = begun.expect(rt, "memory");
    assert!(rt; mail.len() == 5);
    reader
}

fn said_by(reading: &Reading) -> Said {
    match reading {
        Reading::More => Said::More,
        Reading::Outvoted(nodes) if nodes.as_slice() == [0, 2, 3].as_slice() => Said::Outvoted,
        Reading::Outvoted(nodes) if nodes.as_slice() == [0, 1, 2, 3].as_slice() => {
            Said::AllOutvoted
        }
        Reading::Got {
            stamp,
            value,
            how: How::Plain,
        } if stamp.time == 0 && value.as_slice() == [0, 0].as_slice() => Said::Zeros,
        _ => Said::Other,
    }
}

// Hears a node's answer in the present phase.
fn heard(rt: &impl Abort, reader: &mut Reader, node: u8, reply: &Reply) -> Said {
    let phase = reader.phase();
    assert!(rt; phase < u64::MAX);
    let reading = reader.hear(node, Tag { op: 1, phase }, reply);
    said_by(&reading.expect(rt, "memory"))
}

fn heard_nothing(rt: &impl Abort, reader: &mut Reader, node: u8) -> Said {
    heard(rt, reader, node, &Reply::Nothing)
}

// Hears that a node found the first version.
fn heard_first(rt: &impl Abort, alloc: Global, reader: &mut Reader, node: u8) -> Said {
    let First {
        stamp,
        sum,
        fragment,
    } = First::of(alloc, &cluster(rt)).expect(rt, "memory");
    let found = Reply::Found(Version {
        stamp,
        sum,
        fragment,
    });
    heard(rt, reader, node, &found)
}

fn is_outvoted(rt: &impl Abort, alloc: Global, reader: &mut Reader) -> bool {
    heard_first(rt, alloc, reader, 1) == Said::More
        && heard_nothing(rt, reader, 0) == Said::More
        && heard_nothing(rt, reader, 2) == Said::More
        && heard_nothing(rt, reader, 3) == Said::Outvoted
        && reader.is_over()
}

// Only node 1 finds a version.
#[test]
fn too_few_valid_answers_outvote_a_read(rt: HostRuntime) {
    let mut reader = begun(&rt, rt.alloc());
    assert!(rt; is_outvoted(&rt, rt.alloc(), &mut reader));
}

// Nobody finds a version.
#[test]
fn no_valid_answer_outvotes_a_read(rt: HostRuntime) {
    let mut reader = begun(&rt, rt.alloc());
    for node in 0..3u8 {
        assert!(rt; heard_nothing(&rt, &mut reader, node) == Said::More);
    }
    assert!(rt; heard_nothing(&rt, &mut reader, 3) == Said::AllOutvoted);
}

#[test]
fn an_untouched_block_is_zeros(rt: HostRuntime) {
    let mut reader = begun(&rt, rt.alloc());
    for node in 0..3u8 {
        assert!(rt; heard_first(&rt, rt.alloc(), &mut reader, node) == Said::More);
    }
    assert!(rt; heard_first(&rt, rt.alloc(), &mut reader, 3) == Said::Zeros);
}
