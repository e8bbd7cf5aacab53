ghost use Rattle.std.specs.Prelude.{◌≡◌, ◌≤◌, ◌<◌, ◌+◌, ◌-◌, ◌^◌, ◌++◌, ℕ, true, is_some, List, Option, length, map, All, IfOk, OnOk};
ghost use Rattle.std.specs.List.{AllByRecursion};
ghost use Rattle.quorum_rules.specs.Limits.{IsValid};
ghost use Rattle.protocol.specs.Instance.{setting};
ghost use Rattle.protocol.specs.Messages.{Reply as AnyReply};
ghost use Rattle.wire_forms.specs.declared.op.Op.{Op as AnyOp};
ghost use Rattle.batch_clients.specs.Batches.{Running, AreAsksOf, asks_to, after_answers, begun, end_of};
ghost use Rattle.wire_forms.specs.Ops.{Fits};
ghost use Rattle.store_device.specs.Stores.{SeenStore, IsStore};
ghost use Rattle.store_device.specs.Told.{AreApart};
ghost use Rattle.store_device.specs.Working.{AreHanded};
ghost use Rattle.store_device.specs.Answered.{AllCome, AreFew, HaveReplied, IsEnough};
ghost use Rattle.store_device.specs.Going.{IsGoing, MayBegin, store_of};
ghost use Rattle.store_device.specs.Phased.{GoThrough};
ghost use Rattle.store_device.specs.Calls.{prunes_of, told_each, with_room};
ghost use Rattle.std.specs.Option.{option_map};
ghost use Rattle.std.specs.Result.{result_ok};

use crate::forms::form_ops;
use crate::remembering::{make_room, remember_all};
use crate::seat::{Seat, gather, hand_out, none_starved, work};
use batch_clients::{Asks, Batch};
use block_phases::endings;
use client_core::{Client, Outcome};
use disk_model::Disk;
use lists::NoMemory;
use quorum_rules::Config;
use std::alloc::Global;
use std::thread::Threads;
use version_disk::Prune;
use wire_forms::Op;

/// In how many threads at most nodes write at once, and operations hear at once what was answered.
#[derive(Clone, Copy)]
pub(crate) struct ThreadCounts {
    pub(crate) nodes: usize,
    pub(crate) operations: usize,
}

/// How many phases the operations of a batch go on for at most. A read has two for each version that it steps back over.
const MOST_PHASES: u64 = 1_000_000;

/// Goes on phase by phase, until no operation asks any more.
pub(crate) fn go_on<D: Disk + Send, R: Threads + Sync>(
    rt: &R,
    alloc: Global,
    threads: ThreadCounts,
    seats: &mut [Seat<D>],
    batch: &mut Batch,
    asks: Asks,
) -> Result<(), NoMemory>
    requires count { length seats.old ≡ batch.old.config.n }
    requires asks { AreAsksOf (setting batch.old.config) batch.old.runs
        (map (λ a. a.items) asks.items) }
    ensures count { length seats.new ≡ length seats.old }
    // the operations of a call that stand there before stand somewhere then, and the batch knows where
    ensures going { (start : SeenStore D) (ops : List AnyOp) → AreApart ops
        → IsGoing D.pending D.seen D.moment D.left_since start
        (store_of batch.old.config (map (λ seat. seat.node) seats.old)) ops batch.old.runs
        → (runs : List Running)
        × IsGoing D.pending D.seen D.moment D.left_since start
        (store_of batch.old.config (map (λ seat. seat.node) seats.new)) ops runs
        × OnOk result (batch.new.runs ≡ runs) }
    // phase by phase each node was handed what they ask
    ensures phases { OnOk result (GoThrough D.pending D.seen D.most D.moment D.left_since
        (store_of batch.old.config (map (λ seat. seat.node) seats.old)) batch.old.runs
        (store_of batch.old.config (map (λ seat. seat.node) seats.new)) batch.new.runs) }
    // and where enough nodes are up then and have room, each of them has ended
    ensures ended { (start : SeenStore D) (ops : List AnyOp) (more : ℕ) → IsValid start.config
        → AreApart ops
        → IsGoing D.pending D.seen D.moment D.left_since start
        (store_of batch.old.config (map (λ seat. seat.node) seats.old)) ops batch.old.runs
        → length ops ≤ more → AllCome start batch.old.phases ops batch.old.runs → AreFew start ops
        → OnOk result (IsEnough D.seen D.most more
        (store_of batch.old.config (map (λ seat. seat.node) seats.new))
        → AllByRecursion (λ r. is_some (end_of r.stand) ≡ true) batch.new.runs) }
{
    endings();
    let mut asks = asks;
    while batch.asking() > 0 && batch.phases() < MOST_PHASES {
        asks = go_through(rt, alloc, threads, seats, batch, asks)?;
    }
    Ok(())
}

/// One phase: each node is handed what the operations ask of it, and they hear the answers.
fn go_through<D: Disk + Send, R: Threads + Sync>(
    rt: &R,
    alloc: Global,
    threads: ThreadCounts,
    seats: &mut [Seat<D>],
    batch: &mut Batch,
    asks: Asks,
) -> Result<Asks, NoMemory>
    requires early { batch.old.phases < 2 ^ 64 - 1 }
    requires count { length seats.old ≡ batch.old.config.n }
    requires asks { AreAsksOf (setting batch.old.config) batch.old.runs
        (map (λ a. a.items) asks.items) }
    ensures count { length seats.new ≡ length seats.old }
    ensures config { batch.new.config ≡ batch.old.config }
    ensures handed { (answers : List (Option (List AnyReply)))
        × AreHanded D.pending D.seen D.moment D.left_since
        (λ i. asks_to (setting batch.old.config) i batch.old.runs) answers
        (store_of batch.old.config (map (λ seat. seat.node) seats.old))
        (store_of batch.old.config (map (λ seat. seat.node) seats.new))
        × OnOk result ((batch.new.runs
        ≡ after_answers (setting batch.old.config) 0 answers batch.old.runs)
        × HaveReplied D.seen D.most (λ i. asks_to (setting batch.old.config) i batch.old.runs)
        answers
        (store_of batch.old.config (map (λ seat. seat.node) seats.old))
        (store_of batch.old.config (map (λ seat. seat.node) seats.new))) }
    ensures phases { OnOk result (batch.new.phases ≡ batch.old.phases + 1) }
    ensures asks { IfOk result (λ asks. AreAsksOf (setting batch.old.config) batch.new.runs
        (map (λ a. a.items) asks.items)) }
{
    hand_out(seats, asks);
    work(rt, threads.nodes, seats);
    none_starved(seats)?;
    let answers = gather(alloc, seats)?;
    batch.hear(rt, threads.operations, answers)
}

/// Carries out operations, each by a client of its own, in step. Gives how each of them ended, and remembers the stamps of those that were
/// acknowledged. The room for these is taken before anything is asked of a node.
pub(crate) fn carry_out<D: Disk + Send, R: Threads + Sync>(
    rt: &R,
    alloc: Global,
    threads: ThreadCounts,
    config: &Config,
    idle: &Client,
    seats: &mut [Seat<D>],
    acknowledged: &mut Vec<Prune>,
    ops: &[Op],
) -> Result<Vec<Option<Outcome>>, NoMemory>
    requires store { IsStore D.pending D.seen
        (store_of config.now (map (λ seat. seat.node) seats.old)) }
    requires idle { idle.now.config ≡ config.now }
    requires few { length ops.now ≤ 64 }
    requires fits { All (Fits config.now) ops.now }
    requires apart { AreApart ops.now }
    ensures batch { All (MayBegin config.now) ops.now }
    ensures count { length seats.new ≡ length seats.old }
    ensures going { (runs : List Running)
        × IsGoing D.pending D.seen D.moment D.left_since
        (store_of config.now (map (λ seat. seat.node) seats.old))
        (store_of config.now (map (λ seat. seat.node) seats.new)) ops.now runs
        × IfOk result (λ ends. ends.items ≡ map (λ r. end_of r.stand) runs) }
    ensures phases { IfOk result (λ ends. (runs : List Running)
        × GoThrough D.pending D.seen D.most D.moment D.left_since
        (store_of config.now (map (λ seat. seat.node) seats.old))
        (begun (setting config.now) 1 ops.now)
        (store_of config.now (map (λ seat. seat.node) seats.new)) runs
        × (ends.items ≡ map (λ r. end_of r.stand) runs)) }
    ensures answered { IfOk result (λ ends.
        AreFew (store_of config.now (map (λ seat. seat.node) seats.old)) ops.now
        → IsEnough D.seen D.most (length ops.now)
        (store_of config.now (map (λ seat. seat.node) seats.new))
        → AllByRecursion (λ outcome. is_some outcome ≡ true) ends.items) }
    ensures acknowledged { acknowledged.new.items ≡ with_room (length ops.now) acknowledged.old.items
        ++ prunes_of ops.now (told_each ops.now (option_map (λ ends. ends.items) (result_ok result))) }
{
    endings();
    form_ops(config, ops);
    make_room(acknowledged, ops.len())?;
    let (mut batch, asks) = Batch::begin(alloc, config, idle, ops)?;
    go_on(rt, alloc, threads, seats, &mut batch, asks)?;
    let ends = batch.into_ends()?;
    remember_all(acknowledged, ops, &ends);
    Ok(ends)
}
