ghost use Rattle.std.specs.Prelude.{◌≡◌, [], IfOk};
ghost use Rattle.locked_nodes.specs.Cells.{IsShare};

use crate::clocks::clock_of_two;
use event_clock::{Clock, Pass};
use journals::{Nature, Silence, Way};
use locked_nodes::{Late, NodeCell, Told};
use quorum_rules::Config;
use std::alloc::Global;
use std::test::Fail;
use wire_forms::{Ask, Body, Message, Reply, Request, Tag};

/// Five nodes, and two blocks.
fn cluster() -> Result<Config, Fail>
    ensures nodes { IfOk result (λ c. c.n ≡ 5) }
    ensures blocks { IfOk result (λ c. c.blocks ≡ 2) }
{
    match Config::new(5, 1, 1, 3, 2, 2, 2) {
        Ok(config) => Ok(config),
        Err(_) => Err(Fail::from("the numbers are valid")),
    }
}

/// Client 7 asks node 1 for the time of block 0.
fn time_ask() -> Message
    ensures node { result.node ≡ 1 }
    ensures share { IsShare 0 1 result.body }
{
    Message {
        client: 7,
        node: 1,
        tag: Tag { op: 1, phase: 1 },
        body: Body::Ask(Ask {
            block: 0,
            request: Request::Time,
        }),
    }
}

/// Node 1, which is honest, in one cell.
fn cell_of(alloc: Global, crash_after: Option<u64>, pass: Pass) -> Result<NodeCell, Fail>
    requires unused { pass.drawn ≡ [] }
    ensures node { IfOk result (λ c. c.charter.number ≡ 1) }
    ensures whole { IfOk result (λ c. (c.charter.shards ≡ 1) × (c.charter.shard ≡ 0)) }
    ensures clock { IfOk result (λ c. c.charter.pass.clock ≡ pass.clock) }
{
    let config = cluster()?;
    Ok(NodeCell::new(alloc, &config, 1, 0, 1, Nature::Honest, crash_after, pass)?)
}

// Whether this is told under this number, with no answer for this reason; or, where there is no reason, with the time 0.
fn is_told(told: &Told, entry: u64, silence: Option<Silence>) -> bool {
    match told {
        Told::Answered { number, reply } => {
            *number == entry && silence.is_none() && is_time_zero(&reply.body)
        }
        Told::Silent { number, why } => *number == entry && silence == Some(*why),
    }
}

fn is_time_zero(body: &Body) -> bool {
    matches!(body, Body::Answer(Reply::TimeIs(0)))
}

/// Lets node 1 meet client 7's ask, and tells whether the caller heard this under this number.
fn tells(
    cell: &mut NodeCell,
    clock: &Clock,
    caller: &mut Pass,
    way: Way,
    entry: u64,
    silence: Option<Silence>,
) -> bool
    requires node { cell.old.charter.number ≡ 1 }
    requires whole { (cell.old.charter.shards ≡ 1) × (cell.old.charter.shard ≡ 0) }
    requires clock { cell.old.charter.pass.clock ≡ clock.now }
    requires caller { caller.old.clock ≡ clock.now }
    ensures charter { cell.new.charter ≡ cell.old.charter }
    ensures caller { caller.new.clock ≡ caller.old.clock }
{
    let ask = time_ask();
    let mut note = clock.note(caller);
    let answer = cell.answer(clock, &mut note, way, &ask);
    clock.heed(caller, note);
    match answer {
        Ok(told) => is_told(&told, entry, silence),
        Err(_) => false,
    }
}

/// Whether a node that crashes after one ask tells of one that it holds back, one that is dropped, and two that come.
fn tells_all(cell: &mut NodeCell, clock: &Clock, caller: &mut Pass) -> bool
    requires node { cell.old.charter.number ≡ 1 }
    requires whole { (cell.old.charter.shards ≡ 1) × (cell.old.charter.shard ≡ 0) }
    requires clock { cell.old.charter.pass.clock ≡ clock.now }
    requires caller { caller.old.clock ≡ clock.now }
    ensures charter { cell.new.charter ≡ cell.old.charter }
    ensures caller { caller.new.clock ≡ caller.old.clock }
{
    let held = tells(cell, clock, caller, Way::Hold, 0, Some(Silence::Held));
    let dropped = tells(cell, clock, caller, Way::Lose, 1, Some(Silence::Dropped));
    let answered = tells(cell, clock, caller, Way::Call, 2, None);
    let crashed = tells(cell, clock, caller, Way::Call, 3, Some(Silence::Crashed));
    held && dropped && answered && crashed
}

/// Whether the ask that was held back is lost once the node has crashed.
fn loses_late(cell: &mut NodeCell, clock: &Clock, caller: &mut Pass) -> bool
    requires node { cell.old.charter.number ≡ 1 }
    requires whole { (cell.old.charter.shards ≡ 1) × (cell.old.charter.shard ≡ 0) }
    requires clock { cell.old.charter.pass.clock ≡ clock.now }
    requires caller { caller.old.clock ≡ clock.now }
{
    let is_told = tells_all(cell, clock, caller);
    let is_lost = cell.bring_late(clock) == Ok(Late::Lost { number: 4 });
    is_told && is_lost && cell.journal().len() == 5
}

fn crashes_when_used_up(alloc: Global) -> Result<bool, Fail> {
    let (clock, pass, mut caller) = clock_of_two(alloc)?;
    let mut cell = cell_of(alloc, Some(1), pass)?;
    match cell.bring_late(&clock) {
        Ok(Late::NoMail) => Ok(loses_late(&mut cell, &clock, &mut caller)),
        _ => Ok(false),
    }
}

#[test]
fn a_node_crashes_when_its_count_is_used_up(rt: HostRuntime) -> Result<(), Fail> {
    let is_told = crashes_when_used_up(rt.alloc())?;
    assert!(rt; is_told);
    Ok(())
}

/// Whether a held ask comes under the next number, and its caller sees that only by its note.
fn comes_late(cell: &mut NodeCell, clock: &Clock, caller: &mut Pass) -> bool
    requires node { cell.old.charter.number ≡ 1 }
    requires whole { (cell.old.charter.shards ≡ 1) × (cell.old.charter.shard ≡ 0) }
    requires clock { cell.old.charter.pass.clock ≡ clock.now }
    requires caller { caller.old.clock ≡ clock.now }
{
    let mut note = clock.note(caller);
    let ask = time_ask();
    let is_held = match cell.answer(clock, &mut note, Way::Hold, &ask) {
        Ok(told) => is_told(&told, 0, Some(Silence::Held)),
        Err(_) => false,
    };
    let is_given = cell.bring_late(clock) == Ok(Late::Delivered { number: 1 });
    let seen = caller.seen();
    clock.heed(caller, note);
    is_held && is_given && seen == 0 && caller.seen() == 1
}

fn held_comes_late(alloc: Global) -> Result<bool, Fail> {
    let (clock, pass, mut caller) = clock_of_two(alloc)?;
    let mut cell = cell_of(alloc, None, pass)?;
    Ok(comes_late(&mut cell, &clock, &mut caller))
}

#[test]
fn a_held_ask_comes_with_no_caller(rt: HostRuntime) -> Result<(), Fail> {
    let is_late = held_comes_late(rt.alloc())?;
    assert!(rt; is_late);
    Ok(())
}
