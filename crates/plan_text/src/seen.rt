//! What the lines of a plan so far name and count, kept so that a look at it tells what stands against the next one.

ghost use Rattle.std.specs.Prelude.{◌≡◌, ◌+◌, ◌<◌, ◌≤◌, ◌^◌, [], None, Some, OnOk, IfErr, is_some, if◌then◌else◌};
ghost use Rattle.std.specs.Ordering.{nat_cmp};
ghost use Rattle.plan_words.specs.Plans.{step_limit};
ghost use Rattle.plan_text.specs.Plans.{client_of};
ghost use Rattle.plan_text.specs.Reading.{IsSeen, pair_cmp, seen_again, seen_cause, seen_client_too_many, seen_of_liar, seen_too_many};
ghost use Rattle.plan_text.specs.Sets.{IsAdded, has};

use crate::marks::Marks;
use line_forms::Cause;
use lists::NoMemory;
use quorum_rules::Config;
use std::alloc::Global;
use std::collections::BTreeSet;

/// The greatest number of different clients in a plan.
const MOST_CLIENTS: usize = 64;

/// The greatest number of floods in a plan.
const MOST_FLOODS: u64 = 8;

/// The greatest number of ends of phases in a plan.
const MOST_PHASES: u64 = 64;

/// The greatest number of block operations of any plan.
const MOST_STEPS: u64 = 4000;

/// What the lines so far name and count.
pub struct Seen {
    pub faulty: BTreeSet<u8>,
    pub crashing: BTreeSet<u32>,
    pub dropped: BTreeSet<(u32, u8)>,
    pub held: BTreeSet<(u32, u8)>,
    pub lying: BTreeSet<u32>,
    pub asking: BTreeSet<u32>,
    pub clients: BTreeSet<u32>,
    pub lying_nodes: u64,
    pub faulty_nodes: u64,
    pub floods: u64,
    pub phases: u64,
    pub steps: u64,
}

// By hand, since a derived drop is proved anew wherever this is let go.
impl Drop for Seen {
    fn drop(self) {
        let Seen {
            faulty: _faulty,
            crashing: _crashing,
            dropped: _dropped,
            held: _held,
            lying: _lying,
            asking: _asking,
            clients: _clients,
            lying_nodes: _lying_nodes,
            faulty_nodes: _faulty_nodes,
            floods: _floods,
            phases: _phases,
            steps: _steps,
        } = self;
    }
}

impl Seen {
    /// What no line names.
    pub fn nothing(alloc: Global) -> Seen
        ensures { IsSeen [] result }
    {
        Seen {
            faulty: BTreeSet::new(alloc),
            crashing: BTreeSet::new(alloc),
            dropped: BTreeSet::new(alloc),
            held: BTreeSet::new(alloc),
            lying: BTreeSet::new(alloc),
            asking: BTreeSet::new(alloc),
            clients: BTreeSet::new(alloc),
            lying_nodes: 0,
            faulty_nodes: 0,
            floods: 0,
            phases: 0,
            steps: 0,
        }
    }
}

/// What stands against a line after those that were seen, the least cause first.
pub fn refuse(seen: &Seen, config: &Config, marks: &Marks) -> Result<(), Cause>
    ensures ok { OnOk result (seen_cause config.now seen.now marks.now ≡ None) }
    ensures err { IfErr result (λ cause. seen_cause config.now seen.now marks.now ≡ Some cause) }
{
    if names_again(seen, marks) {
        return Err(Cause::Twice);
    }
    if marks.lying_node.is_some() && seen.lying_nodes >= u64::from(config.b()) {
        return Err(Cause::TooManyLiars);
    }
    if marks.faulty_node.is_some() && seen.faulty_nodes >= u64::from(config.t()) {
        return Err(Cause::TooManyFaulty);
    }
    if is_of_liar(seen, marks) {
        return Err(Cause::LyingClient);
    }
    if is_too_many(seen, config, marks) {
        return Err(Cause::TooManyLines);
    }
    match marks.fault {
        Some(fault) => Err(Cause::Device(fault)),
        None => Ok(()),
    }
}

/// Whether the line names what an earlier one of its kind names, or a node that lies or crashes already.
fn names_again(seen: &Seen, marks: &Marks) -> bool
    ensures { result ≡ seen_again seen.now marks.now }
{
    has(&seen.faulty, marks.faulty_node)
        || has(&seen.crashing, marks.crashing_client)
        || has(&seen.dropped, marks.dropped)
        || has(&seen.held, marks.held)
}

/// Whether the line gives a lying client something to ask, or declares one lying that asks.
fn is_of_liar(seen: &Seen, marks: &Marks) -> bool
    ensures { result ≡ seen_of_liar seen.now marks.now }
{
    has(&seen.asking, marks.lying_client) || has(&seen.lying, marks.asking_client)
}

/// Whether the line is one client, flood, phase or block operation too many.
fn is_too_many(seen: &Seen, config: &Config, marks: &Marks) -> bool
    ensures { result ≡ seen_too_many config.now seen.now marks.now }
{
    is_client_too_many(seen, marks)
        || (marks.is_flood && seen.floods >= MOST_FLOODS)
        || (marks.is_phase && seen.phases >= MOST_PHASES)
        || seen.steps.saturating_add(marks.steps) > step_limit(config)
}

/// Whether the line names one client too many.
fn is_client_too_many(seen: &Seen, marks: &Marks) -> bool
    ensures { result ≡ seen_client_too_many seen.now marks.now }
{
    match client_of(marks) {
        Some(client) => !seen.clients.contains(&client) && seen.clients.len() >= MOST_CLIENTS,
        None => false,
    }
}

/// The client that a line names, if it names one.
fn client_of(marks: &Marks) -> Option<u32>
    ensures { result ≡ client_of marks.now }
{
    match marks.lying_client {
        Some(client) => Some(client),
        None => marks.asking_client,
    }
}

/// How many block operations a plan for this cluster may have.
fn step_limit(config: &Config) -> u64
    ensures is { result ≡ step_limit config.now }
    ensures small { result ≤ 4000 }
{
    let n = u64::from(config.n());
    let size = u64::from(config.size());
    MOST_STEPS.min(500_000_000 / (n * (size + 32 * n + 128)))
}

/// Whether the set has what is there.
fn has<K: Ord + Copy>(set: &BTreeSet<K>, key: Option<K>) -> bool
    ensures { result ≡ has K.cmp set.now key }
{
    match key {
        Some(key) => set.contains(&key),
        None => false,
    }
}

/// Adds what a line names and counts.
///
/// After `NoMemory` only some of it may have been added.
pub fn note(seen: &mut Seen, marks: &Marks) -> Result<(), NoMemory>
    requires nodes { (seen.old.lying_nodes < 1000) × (seen.old.faulty_nodes < 1000) }
    requires lines { (seen.old.floods < 1000) × (seen.old.phases < 1000) }
    requires steps { seen.old.steps + marks.now.steps < 2 ^ 64 }
    ensures faulty { OnOk result (IsAdded nat_cmp seen.old.faulty seen.new.faulty
        marks.now.faulty_node) }
    ensures crashing { OnOk result (IsAdded nat_cmp seen.old.crashing seen.new.crashing
        marks.now.crashing_client) }
    ensures dropped { OnOk result (IsAdded pair_cmp seen.old.dropped seen.new.dropped
        marks.now.dropped) }
    ensures held { OnOk result (IsAdded pair_cmp seen.old.held seen.new.held marks.now.held) }
    ensures lying { OnOk result (IsAdded nat_cmp seen.old.lying seen.new.lying
        marks.now.lying_client) }
    ensures asking { OnOk result (IsAdded nat_cmp seen.old.asking seen.new.asking
        marks.now.asking_client) }
    ensures clients { OnOk result (IsAdded nat_cmp seen.old.clients seen.new.clients
        (client_of marks.now)) }
    ensures lying_nodes { OnOk result (seen.new.lying_nodes
        ≡ seen.old.lying_nodes + (if is_some marks.now.lying_node then 1 else 0)) }
    ensures faulty_nodes { OnOk result (seen.new.faulty_nodes
        ≡ seen.old.faulty_nodes + (if is_some marks.now.faulty_node then 1 else 0)) }
    ensures floods { OnOk result (seen.new.floods
        ≡ seen.old.floods + (if marks.now.is_flood then 1 else 0)) }
    ensures phases { OnOk result (seen.new.phases
        ≡ seen.old.phases + (if marks.now.is_phase then 1 else 0)) }
    ensures steps { OnOk result (seen.new.steps ≡ seen.old.steps + marks.now.steps) }
{
    add(&mut seen.faulty, marks.faulty_node)?;
    add(&mut seen.crashing, marks.crashing_client)?;
    add(&mut seen.dropped, marks.dropped)?;
    add(&mut seen.held, marks.held)?;
    add(&mut seen.lying, marks.lying_client)?;
    add(&mut seen.asking, marks.asking_client)?;
    add(&mut seen.clients, client_of(marks))?;
    seen.lying_nodes += u64::from(marks.lying_node.is_some());
    seen.faulty_nodes += u64::from(marks.faulty_node.is_some());
    seen.floods += u64::from(marks.is_flood);
    seen.phases += u64::from(marks.is_phase);
    seen.steps += marks.steps;
    Ok(())
}

/// Adds what is there to the set.
fn add<K: Ord + Copy + Drop>(set: &mut BTreeSet<K>, key: Option<K>) -> Result<(), NoMemory>
    ensures { OnOk result (IsAdded K.cmp set.old set.new key) }
{
    if let Some(key) = key {
        set.insert(key)?;
    }
    Ok(())
}
