//! Whether all steps of journals have different numbers, and lines that fit.

ghost use Rattle.std.specs.Prelude.{◌≡◌, ◌↔◌, ◌≤◌, IsTrue, IfOk, length, map, ◌∷◌, [], true, false};
ghost use Rattle.std.specs.Ordering.{nat_cmp};
ghost use Rattle.std.specs.BTreeSet.{Updates, contains};
ghost use Rattle.protocol.specs.Report.{Ascend};
ghost use Rattle.journals.specs.Journals.{setting_for};
ghost use Rattle.merge_trace.specs.RunSteps.{IsOnce};
ghost use Rattle.merge_trace.specs.Numbered.{node_steps, all_node_steps, own_step, desk_steps, all_desk_steps, AreNew, AreAdded, CanMerge};

use crate::lines::{fits_desk, fits_node};
use journals::{DeskAct, DeskEntry, DeskJournal, Journals, NodeEntry, NodeJournal};
use lists::NoMemory;
use std::alloc::Global;
use std::collections::BTreeSet;

/// Adds a number, and tells whether it is new.
fn is_new(numbers: &mut BTreeSet<u64>, number: u64) -> Result<bool, NoMemory>
    ensures new { IfOk result (λ new. IsTrue new ↔ (contains nat_cmp numbers.old number ≡ false)) }
    ensures numbers { IfOk result (λ new.
        IsTrue new → Updates nat_cmp numbers.old numbers.new number true) }
{
    if numbers.contains(&number) {
        return Ok(false);
    }
    numbers.insert(number)?;
    Ok(true)
}

/// Adds an entry of a node.
fn add_node_entry(
    journals: &Journals,
    numbers: &mut BTreeSet<u64>,
    node: u8,
    entry: &NodeEntry,
) -> Result<bool, NoMemory>
    ensures fine { IfOk result (λ fine.
        IsTrue fine ↔ AreNew (setting_for journals.now) numbers.old
        (node_steps node (entry.now ∷ []))) }
    ensures numbers { IfOk result (λ fine.
        IsTrue fine → AreAdded numbers.old numbers.new (node_steps node (entry.now ∷ []))) }
{
    if !fits_node(journals, node, &entry.act) {
        return Ok(false);
    }
    is_new(numbers, entry.number)
}

/// Adds an entry of a client, if it is a step of its own.
fn add_desk_entry(
    journals: &Journals,
    numbers: &mut BTreeSet<u64>,
    client: u32,
    entry: &DeskEntry,
) -> Result<bool, NoMemory>
    ensures fine { IfOk result (λ fine.
        IsTrue fine ↔ AreNew (setting_for journals.now) numbers.old
        (own_step client entry.now.number entry.now.act)) }
    ensures numbers { IfOk result (λ fine.
        IsTrue fine → AreAdded numbers.old numbers.new
        (own_step client entry.now.number entry.now.act)) }
{
    if let DeskAct::Call { .. } = entry.act {
        return Ok(true);
    }
    if !fits_desk(journals, client, &entry.act) {
        return Ok(false);
    }
    is_new(numbers, entry.number)
}

/// Adds the entries of a node.
fn add_node(
    journals: &Journals,
    numbers: &mut BTreeSet<u64>,
    node: u8,
    entries: &[NodeEntry],
) -> Result<bool, NoMemory>
    ensures fine { IfOk result (λ fine.
        IsTrue fine ↔ AreNew (setting_for journals.now) numbers.old (node_steps node entries.now)) }
    ensures numbers { IfOk result (λ fine.
        IsTrue fine → AreAdded numbers.old numbers.new (node_steps node entries.now)) }
{
    for entry in entries {
        if !add_node_entry(journals, numbers, node, entry)? {
            return Ok(false);
        }
    }
    Ok(true)
}

/// Adds the entries of a client.
fn add_desk(
    journals: &Journals,
    numbers: &mut BTreeSet<u64>,
    client: u32,
    entries: &[DeskEntry],
) -> Result<bool, NoMemory>
    ensures fine { IfOk result (λ fine.
        IsTrue fine ↔ AreNew (setting_for journals.now) numbers.old
        (desk_steps client entries.now)) }
    ensures numbers { IfOk result (λ fine.
        IsTrue fine → AreAdded numbers.old numbers.new (desk_steps client entries.now)) }
{
    for entry in entries {
        if !add_desk_entry(journals, numbers, client, entry)? {
            return Ok(false);
        }
    }
    Ok(true)
}

/// Adds the entries of all nodes.
fn add_nodes(
    journals: &Journals,
    numbers: &mut BTreeSet<u64>,
    nodes: &[NodeJournal],
) -> Result<bool, NoMemory>
    requires { length nodes.now ≤ 256 }
    ensures fine { IfOk result (λ fine.
        IsTrue fine ↔ AreNew (setting_for journals.now) numbers.old (all_node_steps 0 nodes.now)) }
    ensures numbers { IfOk result (λ fine.
        IsTrue fine → AreAdded numbers.old numbers.new (all_node_steps 0 nodes.now)) }
{
    for node in 0..nodes.len() {
        if !add_node(journals, numbers, node as u8, nodes[node].as_slice())? {
            return Ok(false);
        }
    }
    Ok(true)
}

/// Adds the entries of all clients.
fn add_desks(
    journals: &Journals,
    numbers: &mut BTreeSet<u64>,
    desks: &[DeskJournal],
) -> Result<bool, NoMemory>
    ensures fine { IfOk result (λ fine.
        IsTrue fine ↔ AreNew (setting_for journals.now) numbers.old (all_desk_steps desks.now)) }
    ensures numbers { IfOk result (λ fine.
        IsTrue fine → AreAdded numbers.old numbers.new (all_desk_steps desks.now)) }
{
    for desk in desks {
        if !add_desk(journals, numbers, desk.client, desk.entries.as_slice())? {
            return Ok(false);
        }
    }
    Ok(true)
}

/// Whether the clients ascend.
fn do_ascend(desks: &[DeskJournal]) -> bool
    ensures { IsTrue result ↔ Ascend (map (λ d. d.client) desks.now) }
{
    let mut least = 0;
    for desk in desks {
        let client = u64::from(desk.client);
        if client < least {
            return false;
        }
        least = client + 1;
    }
    true
}

/// Whether the journals can be merged: true exactly where there are at most 256 nodes, the clients ascend, no number stands twice
/// among what nodes did and what clients started, and each operation and each prune is one of the cluster's.
pub fn can_merge(alloc: Global, journals: &Journals) -> Result<bool, NoMemory>
    ensures exact { IfOk result (λ can. IsTrue can ↔ CanMerge journals.now) }
    ensures once { IfOk result (λ can. IsTrue can → IsOnce journals.now) }
{
    if 256 < journals.nodes.len() || !do_ascend(journals.desks.as_slice()) {
        return Ok(false);
    }
    let mut numbers = BTreeSet::new(alloc);
    if !add_nodes(journals, &mut numbers, journals.nodes.as_slice())? {
        return Ok(false);
    }
    add_desks(journals, &mut numbers, journals.desks.as_slice())
}
