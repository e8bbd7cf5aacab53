//! Cells and desks, when the threads have ended.
ghost use Rattle.std.specs.Prelude.{◌≡◌, None, All, map, IfOk, OnOk};
ghost use Rattle.thread_work.specs.Pairwise.{Beside};
ghost use Rattle.inboxes.specs.Sides.{IsDone};
ghost use Rattle.client_endpoints.specs.Transports.{IsByMail};
ghost use Rattle.client_endpoints.specs.Endpoint.{Agree};
ghost use Rattle.node_workers.specs.ThreadStates.{nodes_in, clients_in, seat_of};
ghost use Rattle.node_workers.specs.Closed.{IsOfMail, HasAllOf};

use crate::thread_state::ThreadState;
use client_endpoints::{Answered, ByMail, Transport};
use inboxes::{Sents, settle};
use lists::{ItemList, NoMemory};
use locked_nodes::{CellRefusal, NodeCell};
use phase_threads::{Duty, Seat, first_refusal};
use std::alloc::Global;

/// What thread states leave: the cells, and what is left of their workers' putters, by seat; the desks with their duties, and their ways by
/// mail; and the refusal that counts.
#[derive(Drop)]
pub struct Parted<T> {
    pub cells: Vec<NodeCell>,
    pub rows: Vec<Sents<Answered>>,
    pub seats: Vec<Seat<T>>,
    pub mails: Vec<ByMail>,
    pub refused: Option<CellRefusal>,
}

/// Takes thread states apart, in their order.
pub fn part<T: Duty>(alloc: Global, states: Vec<ThreadState<T>>) -> Result<Parted<T>, NoMemory>
    requires { All (λ x. IsByMail x.0.transport) (clients_in states.items) }
    ensures cells { IfOk result (λ r. r.cells.items ≡ map (λ w. w.cell) (nodes_in states.items)) }
    ensures rows { IfOk result (λ r. r.rows.items ≡ map (λ w. w.sents) (nodes_in states.items)) }
    ensures seats { IfOk result (λ r. r.seats.items ≡ map seat_of (clients_in states.items)) }
    ensures mails { IfOk result (λ r.
        map (λ m. Transport.Mail m) r.mails.items
        ≡ map (λ x. x.0.transport) (clients_in states.items)) }
    ensures refused { IfOk result (λ r.
        r.refused ≡ None → All (λ x. x.0.refused ≡ None) (clients_in states.items)) }
    ensures agree { IfOk result (λ r.
        All (λ x.
        x.0.refused ≡ None →
        Agree x.0.began x.0.desk x.0.transport) (clients_in states.items)) }
{
    let mut cells = Vec::new(alloc);
    let mut rows = Vec::new(alloc);
    let mut seats = Vec::new(alloc);
    let mut mails = Vec::new(alloc);
    let mut refused = None;
    for state in states {
        match state {
            ThreadState::Node(worker) => {
                let (cell, sents) = worker.into_parts();
                cells.push(cell)?;
                rows.push(ItemList::from_vec(sents))?;
            }
            ThreadState::Client { endpoint, duty } => {
                refused = first_refusal(refused, endpoint.refused());
                let (desk, transport) = endpoint.into_parts();
                seats.push(Seat { desk, duty })?;
                mails.push(transport.into_mail())?;
            }
        }
    }
    Ok(Parted {
        cells,
        rows,
        seats,
        mails,
        refused,
    })
}

/// Settles each client's inbox with what is left of the nodes' putters to it: so what was taken of each node is what the node put.
pub fn settle_all(
    alloc: Global,
    mails: &mut Vec<ByMail>,
    rows: Vec<Sents<Answered>>,
) -> Result<(), NoMemory>
    requires own { All (λ row. Beside IsOfMail mails.old.items row) rows.items }
    requires done { All (λ m. IsDone m.answers) mails.old.items }
    ensures settled { OnOk result (All (λ row. Beside HasAllOf mails.old.items row) rows.items) }
{
    for row in rows {
        settle_row(alloc, mails, row)?;
    }
    Ok(())
}

// Settles each client's inbox with what is left of one node's putter to it.
fn settle_row(
    alloc: Global,
    mails: &mut Vec<ByMail>,
    mut row: Sents<Answered>,
) -> Result<(), NoMemory>
    requires own { Beside IsOfMail mails.old.items row }
    requires done { All (λ m. IsDone m.answers) mails.old.items }
    ensures same { OnOk result (mails.new.items ≡ mails.old.items) }
    ensures settled { OnOk result (Beside HasAllOf mails.old.items row) }
{
    while let Some(sent) = row.pop() {
        let mail = &mut mails[row.len()];
        let mut one = ItemList::new(alloc);
        one.push(sent)?;
        settle(&mut mail.answers, one);
    }
    Ok(())
}
