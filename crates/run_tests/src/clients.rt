ghost use Rattle.std.specs.Prelude.{◌≡◌, ◌-◌, ◌<◌, ◌^◌};
ghost use Rattle.protocol.specs.Seen.{phase_of};
ghost use Rattle.quorum_rules.specs.Faults.{numbers};
ghost use Rattle.quorum_rules.specs.declared.Edition.TheVariants.{One};

use crate::nodes::cluster as five_nodes;
use client_core::{Client, Heard, Step};
use cross_sum::Bytes;
use lists::Copied;
use operation_core::PhaseEnd;
use quorum_rules::Config;
use std::alloc::Global;
use std::process::Abort;
use wire_forms::{Body, Message, Op, Reply, Tag};

// What a message does to a client, or would do.
#[derive(Clone, Copy)]
enum Said {
    Unchanged,
    More,
    Sends,
}

/// Three nodes, none of which is faulty; one block of two bytes, whole at each node.
pub fn cluster(rt: &impl Abort) -> Config
    ensures { result ≡ numbers One 3 0 0 2 1 2 1 }
{
    Config::new(3, 0, 0, 2, 1, 2, 1).expect(rt, "valid")
}

// A client of a cluster in its first life that writes 1, 0.
fn writing_in(rt: &impl Abort, alloc: Global, config: &Config) -> Client
    requires size { config.now.size ≡ 2 }
    requires block { 0 < config.now.blocks }
{
    let value = Bytes::of(alloc, &[1, 0]).expect(rt, "memory");
    assert!(rt; value.len() == 2);
    let mut client = Client::new(alloc, config, 7).expect(rt, "memory");
    let asks = client
        .start(&Op::Write { block: 0, value })
        .expect(rt, "memory")
        .len();
    assert!(rt; asks == config.n() as usize && client.ops() == 1);
    client
}

fn is_said(heard: &Heard, said: Said) -> bool {
    match heard {
        Heard::Unchanged => matches!(said, Said::Unchanged),
        Heard::More => matches!(said, Said::More),
        Heard::Send(_) => matches!(said, Said::Sends),
        Heard::Ended(_) => false,
    }
}

fn would_say(step: &Step, said: Said) -> bool {
    match step {
        Step::Ignored => matches!(said, Said::Unchanged),
        Step::Counts { .. } => matches!(said, Said::More),
        Step::EndsPhase(PhaseEnd::Begins(..)) => matches!(said, Said::Sends),
        Step::EndsPhase(PhaseEnd::Ends(_)) => false,
    }
}

// A node's answer to the operation that client 7 is in, addressed to this client.
fn answer(client: &Client, to: u32, node: u8, phase: u64, reply: Reply) -> Message {
    Message {
        client: to,
        node,
        tag: Tag {
            op: client.ops(),
            phase,
        },
        body: Body::Answer(reply),
    }
}

// The phase, and which nodes have answered it.
fn state(client: &Client) -> (u64, [bool; 3]) {
    let answered = [client.answered(0), client.answered(1), client.answered(2)];
    (client.phase(), answered)
}

// Whether a message would do this, and nothing is done yet.
fn prepares(client: &Client, message: &Message, said: Said) -> bool
    requires { phase_of client.now.seen.task < 2 ^ 64 - 1 }
{
    let before = state(client);
    match client.prepare(message) {
        Ok(step) => would_say(&step, said) && state(client) == before,
        Err(_) => false,
    }
}

// Whether a message does this.
fn hears(client: &mut Client, message: &Message, said: Said) -> bool
    requires { phase_of client.old.seen.task < 2 ^ 64 - 1 }
{
    match client.hear(message) {
        Ok(heard) => is_said(&heard, said),
        Err(_) => false,
    }
}

// Whether a node's time, addressed to this client, would do this, and then does it.
fn is_prepared(client: &mut Client, to: u32, node: u8, said: Said) -> bool {
    if client.phase() == u64::MAX {
        return false;
    }
    let message = answer(client, to, node, 1, Reply::TimeIs(4));
    prepares(client, &message, said) && hears(client, &message, said)
}

fn are_prepared(client: &mut Client) -> bool {
    for (to, node, said) in [
        (8, 0, Said::Unchanged),
        (7, 3, Said::Unchanged),
        (7, 0, Said::More),
        (7, 1, Said::More),
        (7, 2, Said::Sends),
    ] {
        if !is_prepared(client, to, node, said) {
            return false;
        }
    }
    matches!(client.outstanding(3), Ok(None))
}

// A copy of a client at work hears times: one that is another client's, one of a node that there isn't, and three that count.
#[test]
fn prepares_what_is_then_done(rt: HostRuntime) {
    let begun = writing_in(&rt, rt.alloc(), &cluster(&rt));
    let mut client = begun.copy().expect(&rt, "memory");
    assert!(rt; are_prepared(&mut client));
}

// Whether a node's time, as an answer to this phase, does this.
fn hears_time(client: &mut Client, node: u8, phase: u64, said: Said) -> bool {
    if client.phase() == u64::MAX {
        return false;
    }
    let message = answer(client, 7, node, phase, Reply::TimeIs(0));
    hears(client, &message, said)
}

#[test]
fn counts_one_answer_of_a_node(rt: HostRuntime) {
    let mut client = writing_in(&rt, rt.alloc(), &five_nodes(&rt));
    assert!(rt; hears_time(&mut client, 0, 1, Said::More));
    assert!(rt; hears_time(&mut client, 0, 1, Said::Unchanged));
    assert!(rt; hears_time(&mut client, 1, 9, Said::Unchanged));
}
