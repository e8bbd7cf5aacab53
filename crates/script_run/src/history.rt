//! The history of a run's last world, and what holds of the history of every run.

ghost use Rattle.std.specs.Prelude.{◌<◌, ◌^◌, ◌-◌, IfOk, map};
ghost use Rattle.protocol.specs.Setting.{Setting};
ghost use Rattle.protocol.specs.World.{World as AnyWorld};
ghost use Rattle.protocol.specs.Seen.{record_of};
ghost use Rattle.world_state.specs.Worlds.{setting_in, world_in};
ghost use Rattle.script_run.specs.Histories.{FitsHistory, AreOfRun, TellsHistory};

use history_book::History;
use lists::NoMemory;
use run_words::Record;
use stamp_order::Stamp;
use std::alloc::Global;
use world_steps::World;

/// The history of the records of a run's last world, in a cluster whose blocks have this first stamp. Whatever starts,
/// deliveries, losses, repeats, crashes and lies the run's lines make, the run is linearizable, durably so, and the history
/// is one of plain registers, and in time; and it is a history that a report tells, legal and in time for the judge.
pub fn history_of_records(
    alloc: Global,
    records: &[Record],
    first: &Stamp,
) -> Result<History, NoMemory>
    requires { (s : Setting) × (w : AnyWorld) × AreOfRun s w (map record_of records.now) first.now }
    ensures { (s : Setting) (w : AnyWorld) → AreOfRun s w (map record_of records.now) first.now
        → IfOk result (TellsHistory s w) }
{
    linear_runs::laws::linearizable();
    linear_runs::laws::durable();
    history_book::history_of(alloc, records, first)
}

/// A run of not too many lines fits a history.
pub fn fits_history(world: &World)
    requires { world.now.seen.place < 2 ^ 31 - 1 }
    ensures { FitsHistory (world_in world.now) }
{
    world.is_reached();
}

/// The history of the run that leads to a world, if it fits one.
pub fn history_of(alloc: Global, world: &World) -> Result<History, NoMemory>
    requires { FitsHistory (world_in world.now) }
    ensures { IfOk result (TellsHistory (setting_in world.now) (world_in world.now)) }
{
    world.is_reached();
    history_of_records(alloc, world.records(), world.first_stamp())
}

/// The history of the run that leads to a world, which is given up: its records alone stay while the history is made.
pub fn last_history(alloc: Global, world: World) -> Result<History, NoMemory>
    requires { world.seen.place < 2 ^ 31 - 1 }
    ensures { IfOk result (TellsHistory (setting_in world) (world_in world)) }
{
    world.is_reached();
    let first = *world.first_stamp();
    let records = world.into_records();
    history_of_records(alloc, records.as_slice(), &first)
}
