//! A write by the calls of a batch alone, where every node answers.
ghost use Rattle.std.specs.Prelude.{◌≡◌, List, map, length, IfOk};
ghost use Rattle.protocol.specs.Setting.{Setting};
ghost use Rattle.batch_clients.specs.Batches.{Running, AreAsksOf, AreAnswersTo};
ghost use Rattle.store_tests.specs.Counted.{counted, count_of};

use crate::unmade::Unmade;
use batch_clients::{Answers, Asks, Batch};
use client_core::{Client, Outcome};
use cross_sum::Bytes;
use lists::{ItemList, NoMemory};
use quorum_rules::Config;
use std::alloc::Global;
use std::slice;
use std::thread::Threads;
use wire_forms::{Ask, Op, Reply, Request};

/// A write is told after two phases, with time 1 and the number of client 1, and asks nothing any more.
pub fn is_told<R: Threads + Sync>(rt: &R, alloc: Global) -> Result<bool, Unmade> {
    let config = Config::new(3, 1, 0, 2, 1, 2, 2).map_err(|_| Unmade)?;
    let op = Op::Write {
        block: 1,
        value: Bytes::of(alloc, &[1, 2])?,
    };
    if !op.fits(&config) {
        return Err(Unmade);
    }
    let idle = Client::new(alloc, &config, 0)?;
    let (mut batch, asks) = Batch::begin(alloc, &config, &idle, slice::from_ref(&op))?;
    let has_begun = batch.asking() == 1 && batch.phases() == 1;
    let asks = batch.hear(rt, 2, answers_to(alloc, &asks)?)?;
    let asks_on = batch.asking() == 1 && asks.iter().all(|asked| asked.len() == 1);
    let asks = batch.hear(rt, 2, answers_to(alloc, &asks)?)?;
    let is_over = batch.asking() == 0
        && batch.phases() == 3
        && asks.iter().all(|asked| asked.is_empty());
    let ends = batch.into_ends()?;
    let is_written = match ends.first() {
        Some(Some(Outcome::Wrote(stamp))) => stamp.time == 1 && stamp.client == 1,
        _ => false,
    };
    Ok(has_begun && asks_on && is_over && is_written && ends.len() == 1)
}

// The answers of nodes that keep nothing but first versions.
#[tactic(auto, using(crate::proofs::Counted::are_answers))]
fn answers_to(alloc: Global, asks: &Asks) -> Result<Answers, NoMemory>
    ensures { IfOk result (λ answers. (s : Setting) (runs : List Running)
        → AreAsksOf s runs (map (λ a. a.items) asks.now.items)
        → AreAnswersTo s runs answers.items) }
{
    let answers = as_many_answers(alloc, asks)?;
    Ok(answers)
}

// One answer to each ask.
fn as_many_answers(alloc: Global, asks: &Asks) -> Result<Answers, NoMemory>
    ensures { IfOk result (λ answers. map counted answers.items ≡ map count_of asks.now.items) }
{
    let mut answers = Vec::new(alloc);
    for asked in asks {
        answers.push(Some(replies_to(alloc, asked)?))?;
    }
    Ok(answers)
}

fn replies_to(alloc: Global, asks: &[Ask]) -> Result<ItemList<Reply>, NoMemory>
    ensures { IfOk result (λ replies. length replies ≡ length asks.now) }
{
    let mut replies = ItemList::new(alloc);
    for ask in asks {
        replies.push(reply_to(ask))?;
    }
    Ok(replies)
}

fn reply_to(ask: &Ask) -> Reply {
    match ask.request {
        Request::Time => Reply::TimeIs(0),
        Request::Read(_) => Reply::Nothing,
        Request::Write(_) => Reply::Ack,
    }
}
