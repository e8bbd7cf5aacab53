ghost use Rattle.std.specs.Prelude.{◌≡◌, IfOk, IfErr};
ghost use Rattle.store_device.specs.Stores.{seat_at};
ghost use Rattle.pasis_store.specs.Ends.{IsUnderstood};
ghost use Rattle.pasis_store.specs.Lines.{IsLine};

use crate::folder::FileStore;
use crate::nodes::Nodes;
use crate::opening::{count_down, found_nodes};
use lists::NoMemory;
use std::alloc::Global;
use store_care::later_versions;
use store_words::{Down, NodeLine, Refusal, Status, write_nodes};

/// Tells of each node whether it is up.
pub fn status(rt: &HostRuntime, folders: &[String]) -> Result<Status, Refusal>
    ensures { IfErr result IsUnderstood }
{
    let Nodes {
        mut store,
        down,
        ..
    } = found_nodes(rt, folders)?;
    let lines = lines_of(rt.alloc(), &mut store, &down)?;
    match write_nodes(&mut rt.stdout(), &lines) {
        Ok(()) => Ok(Status::of_down(count_down(&down), store.config().t())),
        Err(_) => Ok(Status::Failed),
    }
}

// A line for each node.
fn lines_of(
    alloc: Global,
    store: &mut FileStore,
    down: &[Option<Down>],
) -> Result<Vec<NodeLine>, NoMemory> {
    let mut lines = Vec::new(alloc);
    for (node, why) in down.iter().enumerate() {
        lines.push(line_of(store, node, *why))?;
    }
    Ok(lines)
}

// The line of a node that is down for this reason, or for none.
fn line_of(store: &mut FileStore, node: usize, why: Option<Down>) -> NodeLine
    ensures same { store.new ≡ store.old }
    ensures line { IsLine store.old.config.blocks node why (seat_at store.old node) result }
{
    let versions = later_versions(store, node);
    match (why, store.node(node)) {
        (Some(why), _) => NodeLine::Down { node, why },
        (None, Some(seated)) => NodeLine::Up {
            node,
            versions,
            bytes: seated.journal_len().now,
        },
        (None, None) => NodeLine::Down {
            node,
            why: Down::Gone,
        },
    }
}
