//! A load: the plan that a number makes.

ghost use Rattle.std.specs.Prelude.{◌≡◌, ◌<◌, ◌≤◌, ◌^◌, IfOk};
ghost use Rattle.plan_words.specs.Plans.{Fits};
ghost use Rattle.soak_loads.specs.MadePlans.{cluster as the_cluster, job_of as job_told, plan_of as plan_told, rules_of as rules_told, value_from as value_told, work_of as work_told};

use cross_sum::Bytes;
use lists::{ItemList, NoMemory};
use plan_words::{Fault, Job, Plan, PlanRules, Work};
use quorum_rules::Config;
use rand_core::utils::NextWord;
use rand_pcg::Lcg64Xsh32;
use std::alloc::Global;
use wire_forms::{Liars, Op, Rule};

/// How many blocks the cluster has.
const BLOCKS: u32 = 16;

/// How many bytes a block has.
const SIZE: u32 = 512;

/// The plan that a number makes for `clients` clients, 1 to 16, and `ops` operations, at most 4000.
///
/// The clients take turns, and each works on blocks of its own. The words of the generator `Lcg64Xsh32` with the number as its
/// state and with stream 1 say, operation by operation, whether it is a write, on which of the client's blocks, and of which
/// value. Node 4 lies, the first two asks of client 1 to node 1 are lost, and the first three of client 2 to node 2 are held
/// back. `NoMemory` is the only refusal.
pub fn plan_of(alloc: Global, number: u64, clients: u32, ops: u32) -> Result<Plan, NoMemory>
    requires some { 1 ≤ clients }
    requires clients { clients ≤ 16 }
    requires ops { ops ≤ 4000 }
    ensures is { IfOk result (λ plan. plan ≡ plan_told number clients ops) }
    ensures fits { IfOk result Fits }
{
    let mut liars = Liars::none(alloc);
    liars.add_node(4)?;
    let rules = rules_of(alloc, clients)?;
    let work = work_of(alloc, number, clients, ops)?;
    Ok(Plan {
        config: cluster(),
        liars,
        rules,
        work,
    })
}

/// Five nodes, of which one may lie, and 16 blocks of 512 bytes.
fn cluster() -> Config
    ensures { result ≡ the_cluster }
{
    match Config::new(5, 1, 1, 3, 2, SIZE, BLOCKS) {
        Ok(config) => config,
        Err(_) => unreachable!(),
    }
}

fn rules_of(alloc: Global, clients: u32) -> Result<PlanRules, NoMemory>
    ensures { IfOk result (λ rules. rules ≡ rules_told clients) }
{
    let mut rules = ItemList::new(alloc);
    rules.push(Fault::LiarNode {
        node: 4,
        rule: Rule::Bad,
    })?;
    rules.push(Fault::Lose {
        client: 1,
        node: 1,
        count: 2,
    })?;
    if clients >= 2 {
        rules.push(Fault::Hold {
            client: 2,
            node: 2,
            count: 3,
        })?;
    }
    Ok(rules)
}

fn work_of(alloc: Global, number: u64, clients: u32, ops: u32) -> Result<Work, NoMemory>
    requires some { 1 ≤ clients }
    requires clients { clients ≤ 16 }
    ensures { IfOk result (λ work. work ≡ work_told number clients ops) }
{
    let mut words = Lcg64Xsh32::new(number, 1);
    let mut work = ItemList::new(alloc);
    for j in 0..ops {
        let word = words.next_word();
        work.push(job_of(alloc, clients, j, word)?)?;
    }
    Ok(work)
}

/// Operation j, by the generator's word for it.
fn job_of(alloc: Global, clients: u32, j: u32, word: u32) -> Result<Job, NoMemory>
    requires some { 1 ≤ clients }
    requires clients { clients ≤ 16 }
    ensures { IfOk result (λ job. job ≡ job_told clients j word) }
{
    let place = j % clients;
    let block = place + clients * (word % (BLOCKS / clients));
    let op = if word / 4 % 2 == 1 {
        Op::Write {
            block,
            value: value_from(alloc, word / 8)?,
        }
    } else {
        Op::Read { block }
    };
    Ok(Job::Block {
        client: 1 + place,
        op,
    })
}

/// A block whose bytes count up from the first one.
fn value_from(alloc: Global, first: u32) -> Result<Bytes, NoMemory>
    requires { first < 2 ^ 29 }
    ensures { IfOk result (λ value. value ≡ value_told first) }
{
    let mut bytes = Vec::with_capacity(alloc, SIZE as usize)?;
    for i in 0..SIZE {
        bytes.push(((first + i) % 256) as u8)?;
    }
    Bytes::shared(bytes)
}
