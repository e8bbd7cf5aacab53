use crate::nodes::cluster;
use cross_sum::Bytes;
use lists::Copied;
use std::alloc::Global;
use std::process::Abort;
use wire_forms::{Reply, Tag};
use write_core::{Writer, Writing};

const ASKING: Tag = Tag { op: 1, phase: 1 };

const STORING: Tag = Tag { op: 1, phase: 2 };

// What a writer says to an answer.
#[derive(Clone, Copy, PartialEq, Eq)]
enum Said {
    More,
    // So many messages follow.
    Stores(usize),
    Wrote { time: u64, client: u32 },
    Spent,
    // The write was over before.
    Nothing,
}

// A write that has asked five nodes for their times.
fn begun(rt: &impl Abort, alloc: Global, block: u32) -> Writer {
    let value = Bytes::of(alloc, &[1, 0]).expect(rt, "memory");
    let begun = Writer::begin(alloc, &cluster(rt), 7, 1, block, &value);
    let (writer, asks) = begun.expect(rt, "memory");
    assert!(rt; asks.len() == 5);
    writer
}

fn said_by(writing: &Writing) -> Said {
    match writing {
        Writing::More => Said::More,
        Writing::Send(mail) => Said::Stores(mail.len()),
        Writing::Wrote(stamp) => Said::Wrote {
            time: stamp.time,
            client: stamp.client,
        },
        Writing::Spent => Said::Spent,
    }
}

// Has the writer hear an answer.
fn heard(rt: &impl Abort, writer: &mut Writer, node: u8, tag: Tag, reply: &Reply) -> Said {
    if writer.is_over() {
        return Said::Nothing;
    }
    said_by(&writer.hear(node, tag, reply).expect(rt, "memory"))
}

fn told(rt: &impl Abort, writer: &mut Writer, node: u8, time: u64) -> Said {
    heard(rt, writer, node, ASKING, &Reply::TimeIs(time))
}

fn acked(rt: &impl Abort, writer: &mut Writer, node: u8) -> Said {
    heard(rt, writer, node, STORING, &Reply::Ack)
}

// A write that stores its value under time 5.
fn storing(rt: &impl Abort, alloc: Global) -> Writer {
    let mut writer = begun(rt, alloc, 1);
    for (node, said) in [
        (1, Said::More),
        (2, Said::More),
        (3, Said::More),
        (4, Said::Stores(5)),
    ] {
        assert!(rt; told(rt, &mut writer, node, 4) == said);
    }
    writer
}

// Whether the fourth acknowledgement ends the write.
fn is_stored_at_four(rt: &impl Abort, writer: &mut Writer) -> bool {
    for node in 0..3u8 {
        if acked(rt, writer, node) != Said::More {
            return false;
        }
    }
    writer.has_answered(2)
        && !writer.has_answered(4)
        && matches!(writer.outstanding(4), Ok(Some(_)))
        && acked(rt, writer, 4) == Said::Wrote { time: 5, client: 7 }
}

#[test]
fn is_stored_at_four_acknowledgements(rt: HostRuntime) {
    let mut copy = storing(&rt, rt.alloc()).copy().expect(&rt, "memory");
    assert!(rt; is_stored_at_four(&rt, &mut copy));
}

// Whether a write that hears these times of nodes says this to each.
fn says(rt: &impl Abort, writer: &mut Writer, times: [(u8, u64, Said); 4]) -> bool {
    for (node, time, said) in times {
        if told(rt, writer, node, time) != said {
            return false;
        }
    }
    true
}

// Whether a value is being stored under this time.
fn stores_under(writer: &Writer, time: u64) -> bool {
    matches!(writer.chosen_stamp(), Some(stamp) if stamp.time == time)
}

// One node alone tells a time above 0.
#[test]
fn stores_under_the_first_time(rt: HostRuntime) {
    let mut writer = begun(&rt, rt.alloc(), 0);
    let times = [
        (0, 1, Said::More),
        (1, 0, Said::More),
        (2, 0, Said::More),
        (3, 0, Said::Stores(5)),
    ];
    assert!(rt; says(&rt, &mut writer, times) && stores_under(&writer, 1));
}

// Two nodes tell the greatest time.
#[test]
fn is_spent_after_the_last_time(rt: HostRuntime) {
    let mut writer = begun(&rt, rt.alloc(), 0);
    let times = [
        (0, u64::MAX, Said::More),
        (1, u64::MAX, Said::More),
        (2, 0, Said::More),
        (3, 0, Said::Spent),
    ];
    assert!(rt; says(&rt, &mut writer, times));
}
