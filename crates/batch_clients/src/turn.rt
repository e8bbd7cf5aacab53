//! The turns of a batch's operations in a phase: each hears its own answers, by itself.
ghost use Rattle.std.specs.Prelude.{◌≡◌, ◌+◌, ◌-◌, ◌<◌, ◌^◌, map, All, length, IfOk, OnOk};
ghost use Rattle.std.specs.List.{AllZip};
ghost use Rattle.quorum_rules.specs.Limits.{Numbers};
ghost use Rattle.protocol.specs.Seen.{phase_of};
ghost use Rattle.protocol.specs.Instance.{setting};
ghost use Rattle.batch_clients.specs.Parts.{turned, left_by, stand_of, stand_in, stand_by, IsRun, IsAsking};
ghost use Rattle.batch_clients.specs.Turns.{MayHear, MayTake, Comes, HasHeard, IsTurnOf, AreTurnsOf};

use crate::answers::{take_next, turn};
use crate::batch::Answers;
use crate::part::{joined, parts_of, take_parts};
use crate::run::{Run, Standing, hear_phase};
use client_core::{Client, Heard};
use lists::NoMemory;
use quorum_rules::Config;
use std::alloc::Global;
use std::mem::replace;
use std::thread::Threads;
use wire_forms::{Mail, Reply};

/// What an operation has to do in a phase, and what it came to.
#[derive(Drop)]
pub(crate) enum Turn {
    /// Its client is to hear these answers, one of each node.
    Hears {
        id: u32,
        client: Client,
        replies: Vec<Option<Reply>>,
    },
    /// Its client asks the next phase.
    Asks {
        id: u32,
        client: Client,
        mail: Mail,
    },
    /// It asks nothing any more.
    Over(Run),
    /// It found no memory.
    Starved,
}

/// The turn of each operation, with the answers that are its own.
pub(crate) fn take_turns(
    alloc: Global,
    runs: Vec<Run>,
    answers: Answers,
) -> Result<Vec<Turn>, NoMemory>
    ensures { IfOk result (λ turns. (c : Numbers) → All (IsRun c (2 ^ 64 - 2)) runs.items → length answers.items < 256
        → AreTurnsOf c answers.items runs.items turns.items) }
{
    let mut answers = turn(alloc, answers)?;
    let mut turns = Vec::with_capacity(alloc, runs.len())?;
    for run in runs {
        let turn = turn_of(alloc, run, &mut answers)?;
        turns.push(turn)?;
    }
    Ok(turns)
}

/// The turn of an operation. It takes the next answers, if it asks.
fn turn_of(alloc: Global, run: Run, answers: &mut Answers) -> Result<Turn, NoMemory>
    ensures left { OnOk result ((c : Numbers) → IsRun c (2 ^ 64 - 2) run → map turned answers.new.items ≡ left_by (stand_of run.standing) (map turned answers.old.items)) }
    ensures turn { IfOk result (λ turn. (c : Numbers) → IsRun c (2 ^ 64 - 2) run → length answers.old.items < 256
        → IsTurnOf c (map turned answers.old.items) run turn) }
{
    let Run { id, standing } = run;
    match standing {
        Standing::Asking(client) => {
            let replies = take_next(alloc, answers)?;
            Ok(Turn::Hears {
                id,
                client,
                replies,
            })
        }
        Standing::Ended(outcome) => Ok(over(id, Standing::Ended(outcome))),
        Standing::Lost => Ok(over(id, Standing::Lost)),
    }
}

/// The turn of an operation that stands so, and asks nothing.
fn over(id: u32, standing: Standing) -> Turn
    ensures { result ≡ Turn.Over (record { id = id; standing = standing }) }
{
    Turn::Over(Run { id, standing })
}

/// How many operations that make or compare fragments are worth a thread: to begin one takes about half as long as one of them.
const OPERATIONS_OF_A_THREAD: usize = 2;

/// Has each operation take its turn. Where many of them have fragments to make or to compare, they work at once, in so many threads at most.
pub(crate) fn take_all<R: Threads + Sync>(
    rt: &R,
    threads: usize,
    alloc: Global,
    config: &Config,
    turns: Vec<Turn>,
) -> Result<Vec<Turn>, NoMemory>
    requires { All (MayTake config.now) turns.items }
    ensures { IfOk result (λ taken. AllZip Comes turns.items taken.items) }
{
    let threads = threads.min(count_works(&turns) / OPERATIONS_OF_A_THREAD);
    let parts = parts_of(alloc, config, threads.max(1), turns)?;
    joined(alloc, take_parts(rt, parts))
}

/// How many operations have fragments to make or to compare.
fn count_works(turns: &[Turn]) -> usize {
    let mut count: usize = 0;
    for turn in turns {
        if is_work(turn) {
            count = count.saturating_add(1);
        }
    }
    count
}

/// Whether a time or a version was answered, of which a phase makes or compares fragments when it ends.
pub(crate) fn is_work(turn: &Turn) -> bool {
    let Turn::Hears { replies, .. } = turn else {
        return false;
    };
    for reply in replies {
        if matches!(reply, Some(Reply::TimeIs(_) | Reply::Found(_))) {
            return true;
        }
    }
    false
}

/// An operation takes its turn.
pub(crate) fn take(turn: &mut Turn)
    requires { MayHear turn.old }
    ensures { Comes turn.old turn.new }
{
    *turn = taken(replace(turn, Turn::Starved));
}

/// What a turn comes to.
fn taken(turn: Turn) -> Turn
    requires { MayHear turn }
    ensures { Comes turn result }
{
    match turn {
        Turn::Hears {
            id,
            client,
            replies,
        } => match hear(id, client, replies) {
            Ok(turn) => turn,
            Err(NoMemory) => Turn::Starved,
        },
        over => over,
    }
}

/// An operation that asks hears the answers of all nodes.
fn hear(id: u32, mut client: Client, replies: Vec<Option<Reply>>) -> Result<Turn, NoMemory>
    requires own { IsAsking client.config id client }
    requires early { phase_of client.seen.task < 2 ^ 64 - 1 }
    requires few { length replies.items < 256 }
    ensures { IfOk result (HasHeard client.config (record { client = id; stand = stand_by (setting client.config) id replies.items (stand_in client.seen.task) })
        (phase_of client.seen.task + 1)) }
{
    match hear_phase(&mut client, id, replies)? {
        Heard::Send(mail) => Ok(Turn::Asks { id, client, mail }),
        Heard::Ended(outcome) => Ok(over(id, Standing::Ended(outcome))),
        Heard::More | Heard::Unchanged => Ok(over(id, Standing::Lost)),
    }
}
