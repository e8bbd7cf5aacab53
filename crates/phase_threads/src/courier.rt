//! The courier of a phase, who brings what nodes hold back.
ghost use Rattle.std.specs.Prelude.{◌≡◌, None};
ghost use Rattle.quorum_rules.specs.Limits.{Numbers};
ghost use Rattle.locked_nodes.specs.declared.cell_shard.CellShard.{CellShard};
ghost use Rattle.client_endpoints.specs.Endpoint.{IsHead};
ghost use Rattle.phase_threads.specs.Carried.{IsAside, CanCarry, HasCarried};

use client_endpoints::SharedCells;
use event_clock::Clock;
use locked_nodes::{CellRefusal, Late, NodeCell};
use receipt_lock::{Chit, Vault};
use std::sync::Wait;

// How often the courier goes round.
const ROUNDS: u32 = 64;

/// What the courier's thread has: a chit for each cell, in the cells' order, and the refusal that came, if one did. It has
/// no desk, since no client has a side of an ask that comes late.
#[derive(Drop)]
pub struct Courier {
    pub chits: Vec<Chit<NodeCell>>,
    pub refused: Option<CellRefusal>,
}

impl Courier {
    /// Lets the oldest ask that is held back come late at each cell in turn, again and again, until the rounds are over or a refusal
    /// comes.
    pub fn carry<R: Wait>(&mut self, rt: &R, shared_cells: &SharedCells)
        requires { CanCarry shared_cells.now self.old }
        ensures { HasCarried self.old self.new }
    {
        for _round in 0..ROUNDS {
            for place in 0..shared_cells.places() {
                let chit = &mut self.chits[place];
                if let Err(refusal) = bring(
                    rt,
                    shared_cells.vault(place),
                    shared_cells.clock(),
                    chit,
                ) {
                    self.refused = Some(refusal);
                    return;
                }
            }
        }
    }
}

// Waits for the cell, lets the oldest ask that it holds back come late, and gives the cell back.
fn bring<R: Wait>(
    rt: &R,
    vault: &Vault<NodeCell>,
    clock: &Clock,
    chit: &mut Chit<NodeCell>,
) -> Result<Late, CellRefusal>
    requires own { chit.old.vault ≡ vault.now.id }
    requires rests { chit.old.holds ≡ None }
    requires aside { IsAside chit.old }
    requires head { (config : Numbers) × (cell_shard : CellShard) × IsHead config clock.now cell_shard vault.now.id.begun }
    ensures own { chit.new.vault ≡ chit.old.vault }
    ensures rests { chit.new.holds ≡ None }
    ensures aside { IsAside chit.new }
{
    if chit.left() == 0 {
        return Err(CellRefusal::ClockFull);
    }
    let mut cell = vault.take(rt, chit);
    let brought = cell.bring_late(clock);
    vault.give(chit, cell);
    brought
}
