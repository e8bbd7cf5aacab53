//! What threads do in a phase.
ghost use Rattle.std.specs.Prelude.{◌≡◌, None, List};
ghost use Rattle.locked_nodes.specs.declared.cell_shard.CellShard.{CellShard};
ghost use Rattle.client_endpoints.specs.Endpoint.{Fit, fixed};
ghost use Rattle.client_desks.specs.Desks.{DeskView};
ghost use Rattle.client_desks.specs.Later.{IsLater};

use client_desks::Desk;
use client_endpoints::{Endpoint, SharedCells};
use std::sync::Wait;
use thread_work::Gate;

/// What a desk's thread does in a phase, with the endpoint of its desk. It may change itself.
pub trait Duty: Drop {
    ghost use Rattle.std.specs.Prelude.{List};
    ghost use Rattle.locked_nodes.specs.declared.cell_shard.CellShard.{CellShard};
    ghost use Rattle.client_desks.specs.Desks.{DeskView};

    /// What must hold of the duty, the cells' shards and the desk before the phase.
    ghost ready: { Self → List CellShard → DeskView → Type 0 };

    /// What holds of both before and both after it, if no refusal came.
    ghost done: { Self → DeskView → Self → DeskView → Type 0 };

    /// Does it. A refusal is left in the endpoint, whose route stays.
    fn work<R: Wait, G: Gate>(
        &mut self,
        rt: &R,
        gate: &G,
        shared_cells: &SharedCells,
        endpoint: &mut Endpoint,
    )
        requires fit { Fit endpoint.old shared_cells.now }
        requires sound { endpoint.old.refused ≡ None }
        requires ready { ready self.old shared_cells.now.cell_shards endpoint.old.desk }
        ensures stays { fixed endpoint.new ≡ fixed endpoint.old }
        ensures later { IsLater endpoint.old.desk endpoint.new.desk }
        ensures done { endpoint.new.refused ≡ None →
            done self.old endpoint.old.desk self.new endpoint.new.desk };
}

/// A desk, and what its thread is to do.
#[derive(Drop)]
pub struct Seat<T> {
    pub desk: Desk,
    pub duty: T,
}
