//! The entries of two journals of a node by number.
ghost use Rattle.std.specs.Prelude.{◌≡◌, ◌++◌, IfOk, OnOk};
ghost use Rattle.locked_nodes.specs.Joined as joined;

use journals::{NodeEntry, NodeJournal};
use lists::{ItemList, NoMemory};
use std::alloc::Global;
use std::collections::VecDeque;

/// The entries of two journals by number: each is moved, and those of one journal stay in their order.
pub fn join(alloc: Global, one: NodeJournal, other: NodeJournal) -> Result<NodeJournal, NoMemory>
    ensures { IfOk result (λ es. es ≡ joined.join one other) }
{
    let mut es = ItemList::new(alloc);
    let mut others = VecDeque::from_vec(other.into_vec());
    for entry in one.into_vec() {
        move_lower(&mut es, &mut others, entry.number)?;
        es.push(entry)?;
    }
    while let Some(entry) = others.pop_front() {
        es.push(entry)?;
    }
    Ok(es)
}

// Moves the entries from the front on whose numbers are below this one.
fn move_lower(
    es: &mut NodeJournal,
    others: &mut VecDeque<NodeEntry>,
    number: u64,
) -> Result<(), NoMemory>
    ensures moved { OnOk result (es.new ≡ es.old ++ joined.lower number others.old.items) }
    ensures left { OnOk result (others.new.items ≡ joined.upper number others.old.items) }
{
    while let Some(next) = others.front() {
        if next.number >= number {
            return Ok(());
        }
        if let Some(entry) = others.pop_front() {
            es.push(entry)?;
        }
    }
    Ok(())
}
