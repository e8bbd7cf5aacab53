//! Desks without their chits, and cells out of their vaults, when the threads have ended.
ghost use Rattle.std.specs.Prelude.{◌≡◌, ◌<◌, length, map, reverse, All, None, IfOk};
ghost use Rattle.client_endpoints.specs.Transports.{IsByLocks, AtRest};
ghost use Rattle.client_endpoints.specs.Endpoint.{Agree};
ghost use Rattle.thread_work.specs.Pairwise.{Beside};
ghost use Rattle.phase_threads.specs.ThreadStates.{clients_in, seat_of, hand_of};
ghost use Rattle.phase_threads.specs.Phased.{AreTaken, IsClosed};

use crate::courier::Courier;
use crate::duty::{Duty, Seat};
use crate::portions::Portions;
use crate::refusal::first_refusal;
use crate::thread_state::ThreadState;
use lists::{ItemList, NoMemory};
use locked_nodes::{CellRefusal, Item, NodeCell};
use receipt_lock::laws::each_entry_has_one_receipt;
use receipt_lock::{Chit, Chits, Vault};
use std::alloc::Global;

/// What thread states leave: the desks with their duties, the chits of each thread state, the last vault's first, and the refusal that counts.
pub struct Parted<T> {
    pub seats: Vec<Seat<T>>,
    pub portions: Portions<Chit<NodeCell>>,
    pub refused: Option<CellRefusal>,
}

/// Takes thread states apart, in their order.
pub fn part<T: Duty>(alloc: Global, states: Vec<ThreadState<T>>) -> Result<Parted<T>, NoMemory>
    requires { All (λ x. IsByLocks x.0.transport) (clients_in states.items) }
    ensures seats { IfOk result (λ r. r.seats.items ≡ map seat_of (clients_in states.items)) }
    ensures portions { IfOk result (λ r. r.portions.items ≡ map hand_of states.items) }
    ensures refused { IfOk result (λ r.
        r.refused ≡ None → All (λ x. x.0.refused ≡ None) (clients_in states.items)) }
    ensures rest { IfOk result (λ r. All (λ x. AtRest x.0.transport) (clients_in states.items)) }
    ensures agree { IfOk result (λ r.
        All (λ x.
        x.0.refused ≡ None →
        Agree x.0.began x.0.desk x.0.transport) (clients_in states.items)) }
{
    let mut seats = Vec::new(alloc);
    let mut portions = Vec::new(alloc);
    let mut refused = None;
    for state in states {
        match state {
            ThreadState::Client { endpoint, duty } => {
                refused = first_refusal(refused, endpoint.refused());
                let (desk, transport) = endpoint.into_parts();
                seats.push(Seat { desk, duty })?;
                portions.push(turned(transport.into_chits()))?;
            }
            ThreadState::Courier(courier) => {
                let Courier {
                    chits,
                    refused: other,
                } = courier;
                refused = first_refusal(refused, other);
                portions.push(turned(chits))?;
            }
        }
    }
    Ok(Parted {
        seats,
        portions,
        refused,
    })
}

// A portion with these chits, the last one first.
fn turned(mut chits: Vec<Chit<NodeCell>>) -> Chits<NodeCell>
    ensures { result ≡ reverse chits.items }
{
    chits.reverse();
    ItemList::from_vec(chits)
}

/// Takes the cells out of their vaults, in their order, given all chits, the last vault's first.
pub fn close_row(
    alloc: Global,
    vaults: Vec<Vault<NodeCell>>,
    mut portions: Portions<Chit<NodeCell>>,
) -> Result<Vec<NodeCell>, NoMemory>
    requires own { All (λ h.
        map (λ c. c.vault) (reverse h) ≡ map (λ v. v.id) vaults.items) portions.items }
    requires rest { All (λ h. All (λ c. c.holds ≡ None) (reverse h)) portions.items }
    requires all { All (λ v. v.chits ≡ length portions.items) vaults.items }
    ensures { IfOk result (λ cells. Beside (IsClosed portions.items) vaults.items cells.items) }
{
    each_entry_has_one_receipt::<Item>();
    let mut cells = Vec::new(alloc);
    for vault in vaults {
        let chits = last_chits(alloc, &mut portions)?;
        cells.push(vault.close(chits))?;
    }
    Ok(cells)
}

// The last chit of each portion.
fn last_chits(
    alloc: Global,
    portions: &mut Portions<Chit<NodeCell>>,
) -> Result<Chits<NodeCell>, NoMemory>
    requires { All (λ h. 0 < length h) portions.old.items }
    ensures { IfOk result (AreTaken portions.old.items portions.new.items) }
{
    let mut chits = ItemList::new(alloc);
    for i in 0..portions.len() {
        let portion = &mut portions[i];
        let Some(chit) = portion.pop() else {
            unreachable!()
        };
        chits.push(chit)?;
    }
    Ok(chits)
}
