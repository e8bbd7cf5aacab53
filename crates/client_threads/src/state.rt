//! A run between its phases.
ghost use Rattle.std.specs.Prelude.{All};
ghost use Rattle.locked_nodes.specs.Cells.{KeptCell};

use client_duties::ClientDuty;
use event_clock::{Clock, Pass};
use locked_nodes::NodeCell;
use phase_threads::Seat;
use plan_words::Plan;
use std::snapshot::Snapshot;

/// The cells, desks and passes of a run.
#[derive(Drop)]
pub(crate) struct Run {
    /// The plan, in proofs alone.
    pub(crate) plan: Snapshot<Plan>,
    pub(crate) clock: Clock,
    /// By node, and then by shard.
    pub(crate) cells: Vec<NodeCell>,
    /// By ascending client.
    pub(crate) clients: Vec<Seat<ClientDuty>>,
    /// The pass that meets all others between phases. It draws nothing.
    pub(crate) keeper: Pass,
    /// The number from which on the entries of the phase are that comes next or is under way.
    pub(crate) begun: u64,
}

/// What all cells keep.
pub(crate) fn know_cells(cells: &[NodeCell])
    ensures { All KeptCell cells.now }
{
    for cell in cells {
        cell.known();
    }
}
