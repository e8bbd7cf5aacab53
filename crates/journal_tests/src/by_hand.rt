//! Journals written by hand, and their lines.

use crate::sheet::Sheet;
use crate::told::lines_of;
use crate::unmade::Unmade;
use cross_sum::Bytes;
use journals::{DeskAct, NodeAct, Silence, Way};
use lists::NoMemory;
use stamp_order::Stamp;
use std::alloc::Global;
use wire_forms::{Ask, Body, Message, Op, Reply, Request, Tag};

// Five nodes, of which the last lies, and a client that lies.
const HEAD: &str = "pasis 1
cluster 5 1 1 3 2 2 2
liar node 4
liar client 9
";

const CLIENTS: &[u32] = &[1, 2, 9];

/// Journals, and the lines that they merge into, or None where they can't be merged.
pub struct Case {
    pub name: &'static str,
    clients: &'static [u32],
    entries: &'static [(u64, Did)],
    lines: Option<&'static str>,
}

// What a client did by itself; what a node did with an ask of a client, which has its side of it; and what a node did when such an
// ask came late, or when it pruned.
#[derive(Clone, Copy)]
enum Did {
    // A client wrote a value to a block.
    Write(u32, u32, &'static [u8]),
    // A client read a block.
    Read(u32, u32),
    // A client crashed.
    Crash(u32),
    // A client's ask met a node.
    Meet(u32, u8, Met),
    // A client's ask came late to a node.
    Late(u32, u8, Late),
    // A node pruned a block.
    Prune(u8, u32),
}

#[derive(Clone, Copy)]
enum Met {
    Answered,
    Lied,
    Held,
    Dropped,
    Crashed,
    HadCrashed,
}

#[derive(Clone, Copy)]
enum Late {
    Delivered,
    Lost,
    Crashed,
}

/// The cases.
pub const CASES: [Case; 10] = [
    Case {
        name: "each kind of entry",
        clients: CLIENTS,
        entries: &[
            (0, Did::Write(1, 0, &[1, 2])),
            (1, Did::Meet(1, 1, Met::Held)),
            (2, Did::Meet(1, 2, Met::Dropped)),
            (3, Did::Meet(1, 3, Met::Answered)),
            (4, Did::Meet(1, 4, Met::Lied)),
            (5, Did::Late(1, 1, Late::Delivered)),
            (6, Did::Meet(1, 0, Met::Crashed)),
            (7, Did::Meet(9, 2, Met::Answered)),
            (8, Did::Meet(9, 4, Met::Lied)),
            (9, Did::Read(2, 1)),
            (10, Did::Meet(2, 3, Met::Held)),
            (11, Did::Late(2, 0, Late::Lost)),
            (12, Did::Prune(3, 0)),
            (13, Did::Meet(1, 3, Met::HadCrashed)),
            (14, Did::Crash(1)),
            (15, Did::Late(1, 2, Late::Crashed)),
        ],
        lines: Some(
            "write 1 0 x0102
lost 1 1
lost 1 2
call 1 3
tell answer 1 4 1 1 time 0
give 1 1
crash node 0
poke ask 9 2 0 0 0 time
lost 9 4
read 2 1
lost 2 3
lost 2 0
prune 3 0
lost 1 3
crash client 1
crash node 2
",
        ),
    },
    Case {
        name: "the first of equal asks",
        clients: CLIENTS,
        entries: &[
            (0, Did::Meet(9, 0, Met::Answered)),
            (1, Did::Meet(9, 1, Met::Answered)),
            (2, Did::Meet(9, 1, Met::Answered)),
            (3, Did::Late(9, 1, Late::Delivered)),
        ],
        lines: Some(
            "poke ask 9 0 0 0 0 time
poke ask 9 1 0 0 0 time
poke ask 9 1 0 0 0 time
give 1 2
",
        ),
    },
    Case {
        name: "no run from a refused line on",
        clients: CLIENTS,
        entries: &[
            (0, Did::Write(1, 0, &[1, 2])),
            (1, Did::Prune(0, 0)),
            (2, Did::Late(1, 1, Late::Delivered)),
        ],
        lines: Some(
            "write 1 0 x0102
prune 0 0
give 1 0
",
        ),
    },
    Case {
        name: "an ask that was never sent",
        clients: CLIENTS,
        entries: &[
            (0, Did::Write(1, 0, &[1, 2])),
            (1, Did::Late(2, 1, Late::Delivered)),
        ],
        lines: Some(
            "write 1 0 x0102
give 1 0
",
        ),
    },
    Case {
        name: "a number twice",
        clients: CLIENTS,
        entries: &[(0, Did::Write(1, 0, &[1, 2])), (0, Did::Prune(0, 0))],
        lines: None,
    },
    Case {
        name: "a number at two nodes",
        clients: CLIENTS,
        entries: &[(5, Did::Prune(0, 0)), (5, Did::Prune(1, 0))],
        lines: None,
    },
    Case {
        name: "clients that don't ascend",
        clients: &[2, 1],
        entries: &[(0, Did::Crash(2))],
        lines: None,
    },
    Case {
        name: "an operation on no block",
        clients: CLIENTS,
        entries: &[(0, Did::Write(1, 2, &[1, 2]))],
        lines: None,
    },
    Case {
        name: "a value that is no block",
        clients: CLIENTS,
        entries: &[(0, Did::Write(1, 0, &[1]))],
        lines: None,
    },
    Case {
        name: "a prune of no block",
        clients: CLIENTS,
        entries: &[(0, Did::Prune(0, 2))],
        lines: None,
    },
];

// What asks a node for its time, in the first phase of the client's first operation. Client 9, which lies, has no operation.
fn ask(client: u32, node: u8) -> Message {
    let number = if client == 9 { 0 } else { 1 };
    Message {
        client,
        node,
        tag: Tag {
            op: number,
            phase: number,
        },
        body: Body::Ask(Ask {
            block: 0,
            request: Request::Time,
        }),
    }
}

// The node's answer to an ask: the time 0.
fn answer(ask: &Message) -> Message {
    Message {
        client: ask.client,
        node: ask.node,
        tag: ask.tag,
        body: Body::Answer(Reply::TimeIs(0)),
    }
}

fn write(alloc: Global, block: u32, value: &[u8]) -> Result<DeskAct, NoMemory> {
    let value = Bytes::of(alloc, value)?;
    Ok(DeskAct::Start {
        op: Op::Write { block, value },
    })
}

fn pruned(block: u32) -> NodeAct {
    NodeAct::Pruned {
        block,
        stamp: Stamp {
            time: 1,
            client: 1,
            verifier: [0; 32],
        },
    }
}

fn answered(ask: Message) -> NodeAct {
    let reply = answer(&ask);
    NodeAct::Answered { ask, reply }
}

fn lied(ask: Message) -> NodeAct {
    let reply = answer(&ask);
    NodeAct::Lied { ask, reply }
}

fn delivered(ask: Message) -> NodeAct {
    let reply = answer(&ask);
    NodeAct::Delivered { ask, reply }
}

fn silent(ask: Message, why: Silence) -> NodeAct {
    NodeAct::Silent { ask, why }
}

fn act_of(ask: Message, met: Met) -> NodeAct {
    match met {
        Met::Answered => answered(ask),
        Met::Lied => lied(ask),
        Met::Held => silent(ask, Silence::Held),
        Met::Dropped => silent(ask, Silence::Dropped),
        Met::HadCrashed => silent(ask, Silence::Crashed),
        Met::Crashed => NodeAct::CrashedAt { ask, late: false },
    }
}

fn way_of(met: Met) -> Way {
    match met {
        Met::Held => Way::Hold,
        Met::Dropped => Way::Lose,
        _ => Way::Call,
    }
}

fn late_act(ask: Message, late: Late) -> NodeAct {
    match late {
        Late::Delivered => delivered(ask),
        Late::Lost => NodeAct::LateLost { ask },
        Late::Crashed => NodeAct::CrashedAt { ask, late: true },
    }
}

fn add(alloc: Global, sheet: &mut Sheet, number: u64, did: Did) -> Result<(), NoMemory> {
    match did {
        Did::Write(client, block, value) => {
            sheet.desk(client, number, write(alloc, block, value)?)
        }
        Did::Read(client, block) => {
            let op = Op::Read { block };
            sheet.desk(client, number, DeskAct::Start { op })
        }
        Did::Crash(client) => sheet.desk(client, number, DeskAct::Crash),
        Did::Meet(client, node, met) => {
            let act = act_of(ask(client, node), met);
            sheet.pair(number, way_of(met), &ask(client, node), act)
        }
        Did::Late(client, node, late) => {
            sheet.node(node, number, late_act(ask(client, node), late))
        }
        Did::Prune(node, block) => sheet.node(node, number, pruned(block)),
    }
}

/// Whether the journals of a case merge into its lines, or can't be merged where it has none.
pub fn is_as_told(alloc: Global, case: &Case) -> Result<bool, Unmade> {
    let mut sheet = Sheet::new(alloc, 5, case.clients)?;
    for (number, did) in case.entries {
        add(alloc, &mut sheet, *number, *did)?;
    }
    match (lines_of(alloc, HEAD.as_bytes(), sheet)?, case.lines) {
        (Some(text), Some(lines)) => Ok(text.as_slice() == lines.as_bytes()),
        (None, None) => Ok(true),
        _ => Ok(false),
    }
}
