//! Cells in vaults, and threads with their chits, before they start.
ghost use Rattle.std.specs.Prelude.{◌≡◌, ◌≤◌, ◌+◌, [], List, length, All, None, IfOk};
ghost use Rattle.receipt_lock.specs.Chits.{Holder as ChitOf, new_chit};
ghost use Rattle.locked_nodes.specs.declared.charter.Item.{Item};
ghost use Rattle.thread_work.specs.Pairwise.{Beside};
ghost use Rattle.phase_threads.specs.Phased.{IsVaultOf, AreStates, new_portion};

use crate::courier::Courier;
use crate::duty::{Duty, Seat};
use crate::portions::{Portions, deal, empty_portions};
use crate::thread_state::ThreadState;
use client_endpoints::{Endpoint, Transport};
use lists::NoMemory;
use locked_nodes::NodeCell;
use receipt_lock::{Chit, Chits, Vault};
use std::alloc::Global;

/// Each cell in a vault of its own, in their order, and so many portions with a chit for each vault.
pub fn open_row(
    alloc: Global,
    cells: Vec<NodeCell>,
    count: u32,
) -> Result<(Vec<Vault<NodeCell>>, Portions<Chit<NodeCell>>), NoMemory>
    requires count { (1 ≤ count) × (count ≤ 65536) }
    ensures vaults { IfOk result (λ r. Beside (IsVaultOf count) cells.items r.0.items) }
    ensures portions { IfOk result (λ r.
        (length r.1.items ≡ count) × All (λ h. h ≡ new_portion r.0.items) r.1.items) }
{
    let mut vaults = Vec::new(alloc);
    let mut portions = empty_portions(alloc, count)?;
    for cell in cells {
        let (vault, chits) = open_cell(alloc, cell, count)?;
        deal(&mut portions, chits)?;
        vaults.push(vault)?;
    }
    Ok((vaults, portions))
}

// The cell in a vault, in a phase without prunes.
fn open_cell(
    alloc: Global,
    cell: NodeCell,
    count: u32,
) -> Result<(Vault<NodeCell>, Chits<NodeCell>), NoMemory>
    requires count { (1 ≤ count) × (count ≤ 65536) }
    ensures vault { IfOk result (λ r. IsVaultOf count 0 cell r.0) }
    ensures count { IfOk result (λ r. length r.1 ≡ count) }
    ensures chits { IfOk result (λ r. All (λ c. c ≡ new_chit r.0.id) r.1) }
{
    cell.known();
    Vault::new(alloc, cell.go_on(false), count)
}

/// Each desk with a portion, and its duty, in their order, and then the courier with the last portion.
pub fn open_states<T: Duty>(
    alloc: Global,
    mut portions: Portions<Chit<NodeCell>>,
    seats: Vec<Seat<T>>,
) -> Result<Vec<ThreadState<T>>, NoMemory>
    requires enough { length portions.items ≡ length seats.items + 1 }
    requires rest { All (λ h. All (λ c. c.holds ≡ None) h) portions.items }
    requires new { All (λ h. All (λ c. c.mine ≡ []) h) portions.items }
    ensures { IfOk result (λ states.
        (portion : List (ChitOf Item)) → All (λ h. h ≡ portion) portions.items →
        AreStates portion seats.items states.items) }
{
    let mut states = Vec::new(alloc);
    for seat in seats {
        let Some(portion) = portions.pop() else {
            unreachable!()
        };
        let Seat { desk, duty } = seat;
        let endpoint = Endpoint::new(desk, Transport::Locks(portion.into_vec()));
        states.push(ThreadState::Client { endpoint, duty })?;
    }
    let Some(portion) = portions.pop() else {
        unreachable!()
    };
    states.push(ThreadState::Courier(Courier {
        chits: portion.into_vec(),
        refused: None,
    }))?;
    Ok(states)
}
