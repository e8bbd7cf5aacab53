ghost use Rattle.std.specs.Prelude.{◌≡◌, ℕ, ◌≤◌, ◌<◌, ◌+◌, ◌-◌, ◌^◌, map, sum, length, All, IfOk, OnOk};
ghost use Rattle.protocol.specs.Instance.{setting};
ghost use Rattle.protocol.specs.Seen.{block_of, work_of, seen_begun};
ghost use Rattle.protocol.specs.World.{Fits as FitsCluster};
ghost use Rattle.wire_forms.specs.Ops.{Fits};
ghost use Rattle.quorum_rules.specs.Limits.{Numbers};
ghost use Rattle.batch_clients.specs.Batches.{Running, begun, end_of, how_many, after_answers, AreAsksOf, AreAnswersTo};
ghost use Rattle.batch_clients.specs.Batches.Stand.{Asks as AsksOne};
ghost use Rattle.batch_clients.specs.Parts.{running, stand_of, IsRun, IsStanding, IsAdded};
ghost use Rattle.batch_clients.specs.Turns.{HasHeard};

use crate::asking::{deal, no_asks};
use crate::run::{Run, Standing};
use crate::turn::{Turn, take_all, take_turns};
use client_core::{Client, Outcome};
use lists::{ItemList, NoMemory};
use quorum_rules::Config;
use std::alloc::Global;
use std::marker::Model;
use std::mem::replace;
use std::thread::Threads;
use wire_forms::{Ask, Op, Reply};

/// For each node, what it is asked.
pub type Asks = Vec<Vec<Ask>>;

/// For each node its answers, in the order of its asks, or None where it gave none.
pub type Answers = Vec<Option<ItemList<Reply>>>;

/// Operations that go on in step, phase by phase. Contracts see the cluster's numbers, of each operation its client's number and
/// where it stands, and how many phases were asked.
#[derive(Drop)]
pub struct Batch {
    alloc: Global,
    config: Config,
    runs: Vec<Run>,
    phases: u64,
}

impl Model for Batch {
    ghost use Rattle.std.specs.Prelude.{map, All};
    ghost use Rattle.batch_clients.specs.Batches.{SeenBatch};
    ghost use Rattle.batch_clients.specs.Parts.{running, IsRun};

    ghost Value = { SeenBatch };

    ghost view = { λ b. record { config = b.config; runs = map running b.runs.items; phases = b.phases } };

    ghost invariant = { λ b. All (IsRun b.config b.phases) b.runs.items };
}

impl Batch {
    /// Begins operations: number k, counted from 0, is that of client k + 1. Also gives what their first phases ask.
    pub fn begin(
        alloc: Global,
        config: &Config,
        idle: &Client,
        ops: &[Op],
    ) -> Result<(Batch, Asks), NoMemory>
        // `idle` is a client of the cluster; batches take their own clients from it by Client::sibling(k + 1, 0)
        requires cluster { idle.now.config ≡ config.now }
        requires few { length ops.now ≤ 64 }
        requires fits { All (Fits config.now) ops.now }
        ensures config { IfOk result (λ r. r.0.config ≡ config.now) }
        ensures runs { IfOk result (λ r. r.0.runs ≡ begun (setting config.now) 1 ops.now) }
        ensures phases { IfOk result (λ r. r.0.phases ≡ 1) }
        ensures asks { IfOk result (λ r. AreAsksOf (setting config.now) r.0.runs (map (λ a. a.items) r.1.items)) }
    {
        let mut runs = Vec::with_capacity(alloc, ops.len())?;
        let mut asks = no_asks(alloc, config.n())?;
        let mut id: u32 = 1;
        for op in ops {
            begin_one(idle, id, op, &mut runs, &mut asks)?;
            id += 1;
        }
        let batch = Batch {
            alloc,
            config: *config,
            runs,
            phases: 1,
        };
        Ok((batch, asks))
    }

    /// Hears the answers to what was asked, each operation its own, at once in so many threads at most. Gives what the next phases ask. After
    /// want of memory the batch is of no use any more.
    pub fn hear<R: Threads + Sync>(
        &mut self,
        rt: &R,
        threads: usize,
        answers: Answers,
    ) -> Result<Asks, NoMemory>
        requires phases { self.old.phases < 2 ^ 64 - 1 }
        requires answers { AreAnswersTo (setting self.old.config) self.old.runs answers.items }
        ensures config { self.new.config ≡ self.old.config }
        ensures runs { OnOk result (self.new.runs ≡ after_answers (setting self.old.config) 0 answers.items self.old.runs) }
        ensures phases { OnOk result (self.new.phases ≡ self.old.phases + 1) }
        ensures asks { IfOk result (λ asks. AreAsksOf (setting self.old.config) self.new.runs (map (λ a. a.items) asks.items)) }
    {
        let runs = replace(&mut self.runs, Vec::new(self.alloc));
        let (runs, asks) = hear_all(rt, threads, self.alloc, &self.config, runs, answers)?;
        self.runs = runs;
        self.phases += 1;
        Ok(asks)
    }

    /// How many operations still ask.
    pub fn asking(&self) -> usize
        ensures { result ≡ sum (map (λ r. how_many r.stand) self.now.runs) }
    {
        count_asking(&self.runs)
    }

    /// How many phases were asked.
    pub fn phases(&self) -> u64
        ensures { result ≡ self.now.phases }
    {
        self.phases
    }

    /// How each operation ended, in order; None for one that hasn't.
    pub fn into_ends(self) -> Result<Vec<Option<Outcome>>, NoMemory>
        ensures { IfOk result (λ ends. ends.items ≡ map (λ r. end_of r.stand) self.runs) }
    {
        let Batch {
            alloc,
            config: _config,
            runs,
            phases: _phases,
        } = self;
        let mut ends = Vec::with_capacity(alloc, runs.len())?;
        for run in runs {
            ends.push(outcome_of(run))?;
        }
        Ok(ends)
    }
}

/// How many operations still ask.
fn count_asking(runs: &[Run]) -> usize
    requires { (c : Numbers) × (phases : ℕ) × All (IsRun c phases) runs.now }
    ensures { result ≡ sum (map (λ r. how_many r.stand) (map running runs.now)) }
{
    let mut asking = 0;
    for run in runs {
        asking += asks_of(run);
    }
    asking
}

/// How many asks of each node an operation has: one or none.
fn asks_of(run: &Run) -> usize
    requires { (c : Numbers) × IsStanding c run.now.id run.now.standing }
    ensures few { result ≤ 1 }
    ensures is { result ≡ how_many (stand_of run.now.standing) }
{
    match run.standing {
        Standing::Asking(_) => 1,
        Standing::Ended(_) | Standing::Lost => 0,
    }
}

/// How an operation ended, if it has.
fn outcome_of(run: Run) -> Option<Outcome>
    ensures { result ≡ end_of (stand_of run.standing) }
{
    match run.standing {
        Standing::Ended(outcome) => Some(outcome),
        Standing::Asking(_client) => None,
        Standing::Lost => None,
    }
}

/// Begins an operation, that of the client of this number.
fn begin_one(
    idle: &Client,
    id: u32,
    op: &Op,
    runs: &mut Vec<Run>,
    asks: &mut Asks,
) -> Result<(), NoMemory>
    requires fits { Fits idle.now.config op.now }
    requires nodes { length asks.old.items ≡ idle.now.config.n }
    ensures { OnOk result (IsAdded idle.now.config
        (record { client = id; stand = AsksOne (seen_begun (setting idle.now.config) 1 (block_of op.now) (work_of op.now)) }) 1
        runs.old.items runs.new.items (map (λ a. a.items) asks.old.items) (map (λ a. a.items) asks.new.items)) }
{
    let mut client = idle.sibling(id, 0);
    of_bytes(op);
    let mail = client.start(op)?;
    deal(asks, mail)?;
    let standing = Standing::Asking(client);
    runs.push(Run { id, standing })?;
    Ok(())
}

// What an operation writes is bytes.
fn of_bytes(op: &Op)
    ensures block { (c : Numbers) → Fits c op.now → block_of op.now < c.blocks }
    ensures value { (c : Numbers) → Fits c op.now → FitsCluster (setting c) (work_of op.now) }
{
    if let Op::Write { value, .. } = op {
        let _bytes = value.as_slice();
    }
}

/// Each operation that asks hears its answers. Gives the operations and what they ask then.
fn hear_all<R: Threads + Sync>(
    rt: &R,
    threads: usize,
    alloc: Global,
    config: &Config,
    runs: Vec<Run>,
    answers: Answers,
) -> Result<(Vec<Run>, Asks), NoMemory>
    requires count { length answers.items ≡ config.now.n }
    requires early { All (λ r. IsRun config.now (2 ^ 64 - 2) r) runs.items }
    ensures runs { IfOk result (λ r. map running r.0.items
        ≡ after_answers (setting config.now) 0 answers.items (map running runs.items)) }
    ensures asks { IfOk result (λ r. AreAsksOf (setting config.now) (map running r.0.items) (map (λ a. a.items) r.1.items)) }
    ensures are_runs { IfOk result (λ r. (phases : ℕ) → All (IsRun config.now phases) runs.items → All (IsRun config.now (phases + 1)) r.0.items) }
{
    let nodes = config.n();
    let given = take_turns(alloc, runs, answers)?;
    let turns = take_all(rt, threads, alloc, config, given)?;
    let mut heard = Vec::with_capacity(alloc, turns.len())?;
    let mut asks = no_asks(alloc, nodes)?;
    for turn in turns {
        put_one(turn, &mut heard, &mut asks)?;
    }
    Ok((heard, asks))
}

/// Puts an operation that took its turn at the end of those that did, and what it asks then at the end of what they ask.
fn put_one(turn: Turn, heard: &mut Vec<Run>, asks: &mut Asks) -> Result<(), NoMemory>
    requires turn { (c : Numbers) × (r : Running) × (phase : ℕ) × HasHeard c r phase turn × (length asks.old.items ≡ c.n) }
    ensures { OnOk result ((c : Numbers) (r : Running) (phase : ℕ) → HasHeard c r phase turn → length asks.old.items ≡ c.n
        → IsAdded c r phase heard.old.items heard.new.items (map (λ a. a.items) asks.old.items) (map (λ a. a.items) asks.new.items)) }
{
    match turn {
        Turn::Asks { id, client, mail } => {
            deal(asks, mail)?;
            let standing = Standing::Asking(client);
            heard.push(Run { id, standing })?;
            Ok(())
        }
        Turn::Over(run) => {
            heard.push(run)?;
            Ok(())
        }
        Turn::Hears { .. } | Turn::Starved => Err(NoMemory),
    }
}
