//! What the threads of a run share.
ghost use Rattle.std.specs.Prelude.{◌≡◌, ◌<◌, ℕ, length, Some, All, slice_get};
ghost use Rattle.locked_nodes.specs.CellShards.{IsPlace};
ghost use Rattle.client_endpoints.specs.Endpoint.{SharedCellsView, AreInVaults, vaults_in};

use event_clock::Clock;
use locked_nodes::{CellShard, NodeCell, place_of};
use receipt_lock::Vault;
use std::marker::Model;

/// Where the cells are.
pub enum Cells {
    /// In vaults, by the shards' places.
    Vaults(Vec<Vault<NodeCell>>),
    /// With threads of their own.
    Threads,
}

// By hand, since a derived drop is proved anew wherever one is let go.
impl Drop for Cells {
    fn drop(self) {
        match self {
            Cells::Vaults(_vaults) => {}
            Cells::Threads => {}
        }
    }
}

impl Cells {
    /// The vaults.
    pub fn into_vaults(self) -> Vec<Vault<NodeCell>>
        requires { AreInVaults self }
        ensures { self ≡ Cells.Vaults result }
    {
        match self {
            Cells::Vaults(vaults) => vaults,
            Cells::Threads => unreachable!(),
        }
    }
}

/// The shards of all cells, place by place, where the cells are, and the clock. Threads share it by reference. Contracts see these.
pub struct SharedCells {
    cell_shards: Vec<CellShard>,
    cells: Cells,
    clock: Clock,
}

// By hand, since a derived drop is proved anew wherever one is let go.
impl Drop for SharedCells {
    fn drop(self) {
        let SharedCells {
            cell_shards: _cell_shards,
            cells: _cells,
            clock: _clock,
        } = self;
    }
}

impl Model for SharedCells {
    ghost use Rattle.client_endpoints.specs.Endpoint.{SharedCellsView};

    ghost Value = { SharedCellsView };

    ghost view = { λ f. record { clock = f.clock; cell_shards = f.cell_shards.items; cells = f.cells } };
}

impl SharedCells {
    /// The shared cells with this clock, of cells of these shards, which are there.
    pub fn new(clock: Clock, cell_shards: Vec<CellShard>, cells: Cells) -> SharedCells
        ensures { result ≡ record { clock = clock; cell_shards = cell_shards.items; cells = cells } }
    {
        SharedCells {
            cell_shards,
            cells,
            clock,
        }
    }

    /// The clock.
    pub fn clock(&self) -> &Clock
        ensures { result.now ≡ self.now.clock }
    {
        &self.clock
    }

    /// How many vaults there are.
    pub fn places(&self) -> usize
        ensures { result ≡ length (vaults_in self.now.cells) }
    {
        match &self.cells {
            Cells::Vaults(vaults) => vaults.len(),
            Cells::Threads => 0,
        }
    }

    /// The place of the cell that serves this block of this node.
    pub fn place(&self, node: u8, block: u32) -> usize
        requires some { All (λ s. 0 < s.shards) self.now.cell_shards }
        requires there { (place : ℕ) × IsPlace self.now.cell_shards place node block }
        ensures { IsPlace self.now.cell_shards result node block }
    {
        place_of(self.cell_shards.as_slice(), node, block)
    }

    /// The vault at a place.
    pub fn vault(&self, place: usize) -> &Vault<NodeCell>
        requires { place < length (vaults_in self.now.cells) }
        ensures { slice_get (vaults_in self.now.cells) place ≡ Some result.now }
    {
        match &self.cells {
            Cells::Vaults(vaults) => &vaults[place],
            Cells::Threads => unreachable!(),
        }
    }

    /// The clock, and where the cells are.
    pub fn into_parts(self) -> (Clock, Cells)
        ensures clock { result.0 ≡ self.clock }
        ensures cells { result.1 ≡ self.cells }
    {
        let SharedCells {
            cell_shards: _cell_shards,
            cells,
            clock,
        } = self;
        (clock, cells)
    }
}
