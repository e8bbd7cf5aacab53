//! A run event by event, and an event of a node that there isn't.

ghost use Rattle.std.specs.Prelude.{◌≡◌, ◌<◌};
ghost use Rattle.quorum_rules.specs.Faults.{numbers};
ghost use Rattle.quorum_rules.specs.declared.Edition.TheVariants.{One};
ghost use Rattle.protocol.specs.Lines.{FitsLine};
ghost use Rattle.world_state.specs.Worlds.{setting_in};
ghost use Rattle.world_steps.specs.Events.{line_of};

use crate::clients::cluster;
use cross_sum::Bytes;
use std::alloc::Global;
use std::process::Abort;
use wire_forms::{Liars, Op};
use world_steps::{Event, How, Outcome, Record, StepFault, StepRefusal, World};

// A world of three nodes, one block of two bytes, and client 9, which lies.
fn world_of_three(rt: &impl Abort, alloc: Global) -> World
    ensures { result.config ≡ numbers One 3 0 0 2 1 2 1 }
{
    let mut liars = Liars::none(alloc);
    liars.add_client(9).expect(rt, "memory");
    World::new(alloc, &cluster(rt), &liars).expect(rt, "memory")
}

// The event at the next place.
fn step(world: &mut World, event: Event) -> Result<(), StepRefusal>
    requires { FitsLine (setting_in world.now) (line_of event) }
    ensures { world.new.config ≡ world.old.config }
{
    let place = world.place();
    if place < u64::MAX {
        world.step(place + 1, &event)
    } else {
        Err(StepRefusal::NoMemory)
    }
}

fn start(world: &mut World, client: u32, op: Op) -> Result<(), StepRefusal>
    requires { FitsLine (setting_in world.now) (line_of (Event.Start client op)) }
    ensures { world.new.config ≡ world.old.config }
{
    step(world, Event::Start { client, op })
}

// Client 1 starts to write 1, 0.
fn writes(rt: &impl Abort, alloc: Global, world: &mut World) -> Result<(), StepRefusal>
    requires { world.now.config ≡ numbers One 3 0 0 2 1 2 1 }
    ensures { world.new.config ≡ world.old.config }
{
    let value = Bytes::of(alloc, &[1, 0]).expect(rt, "memory");
    assert!(rt; value.len() == 2);
    start(world, 1, Op::Write { block: 0, value })
}

// The nodes are given the three asks that begin with this message, and the client hears their answers, node 2's first.
fn exchange(world: &mut World, client: u32, first: u64) -> Result<(), StepRefusal>
    requires { first < 100 }
    ensures { world.new.config ≡ world.old.config }
{
    for node in 0..3u8 {
        let message = first + u64::from(node);
        step(world, Event::Give { node, message })?;
    }
    for message in [first + 5, first + 3, first + 4] {
        step(world, Event::Hear { client, message })?;
    }
    Ok(())
}

// Client 1 writes and client 2 reads, in 20 events.
fn run(rt: &impl Abort, alloc: Global, world: &mut World) -> Result<(), StepRefusal>
    requires { world.now.config ≡ numbers One 3 0 0 2 1 2 1 }
{
    writes(rt, alloc, world)?;
    exchange(world, 1, 0)?;
    exchange(world, 1, 6)?;
    start(world, 2, Op::Read { block: 0 })?;
    exchange(world, 2, 12)
}

// Whether the operation is of this client and took place between these places, with the stamp of client 1 and time 1.
fn is_told(record: &Record, client: u32, start: u64, end: u64) -> bool {
    record.client == client
        && record.start == start
        && record.end == Some(end)
        && matches!(record.stamp, Some(stamp) if stamp.time == 1 && stamp.client == 1)
}

fn wrote(record: &Record) -> bool {
    matches!(&record.outcome, Some(Outcome::Wrote(stamp)) if stamp.time == 1)
}

// Whether the read gave 1, 0 in one round, and stored nothing.
fn gave(record: &Record) -> bool {
    matches!(
        &record.outcome,
        Some(Outcome::Gave { stamp, value, how: How::Plain, rounds: 1 })
            if stamp.time == 1 && value.as_slice() == [1, 0].as_slice()
    )
}

fn are_told(records: &[Record]) -> bool {
    records.len() == 2
        && is_told(&records[0], 1, 1, 13)
        && wrote(&records[0])
        && is_told(&records[1], 2, 14, 20)
        && gave(&records[1])
}

// Whether an event of a node that there isn't is refused, and nothing changes.
fn refuses_node_three(world: &mut World) -> bool {
    let sent = world.pool().len();
    let place = world.place();
    let given = Event::Give {
        node: 3,
        message: 0,
    };
    step(world, given) == Err(StepRefusal::Fault(StepFault::NoSuchActor))
        && world.pool().len() == sent
        && world.place() == place
}

fn is_as_told(world: &World) -> bool {
    world.place() == 20
        && world.pool().len() == 18
        && world.accepted().len() == 3
        && are_told(world.records())
}

#[test]
fn writes_and_reads_event_by_event(rt: HostRuntime) {
    let mut world = world_of_three(&rt, rt.alloc());
    let ran = run(&rt, rt.alloc(), &mut world);
    assert!(rt; ran.is_ok() && refuses_node_three(&mut world) && is_as_told(&world));
}
