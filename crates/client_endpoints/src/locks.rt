//! A client's turn at a cell under a lock.
ghost use Rattle.std.specs.Prelude.{◌≡◌, ◌≤◌, ◌+◌, None, IfOk};
ghost use Rattle.locked_nodes.specs.Cells.{number_of};
ghost use Rattle.client_endpoints.specs.Transports.{call_of, LeavesSide};
ghost use Rattle.client_endpoints.specs.Endpoint.{CanMeet};

use client_desks::Desk;
use event_clock::{Clock, Note};
use journals::Way;
use locked_nodes::{CellRefusal, NodeCell, Told};
use receipt_lock::{Chit, Vault};
use std::sync::Wait;
use thread_work::{Edge, Gate};
use wire_forms::Message;

// Waits for the cell, lets its node meet the ask, and gives the cell back: what is told, with a note that has seen it. The chit gets
// the receipt of the entry.
pub(crate) fn ask_cell<R: Wait, G: Gate>(
    rt: &R,
    gate: &G,
    vault: &Vault<NodeCell>,
    clock: &Clock,
    chit: &mut Chit<NodeCell>,
    desk: &mut Desk,
    way: Way,
    ask: &Message,
) -> Result<(Told, Note), CellRefusal>
    requires own { chit.old.vault ≡ vault.now.id }
    requires rests { chit.old.holds ≡ None }
    requires meets { CanMeet desk.old.config clock.now way ask.now vault.now.id.begun }
    requires clock { desk.old.pass.clock ≡ clock.now }
    ensures own { chit.new.vault ≡ chit.old.vault }
    ensures rests { chit.new.holds ≡ None }
    ensures side { IfOk result (λ r.
        LeavesSide chit.old ask.now.client (call_of way ask.now r.0) chit.new) }
    ensures later { IfOk result (λ r. desk.old.pass.seen ≤ number_of r.0) }
    ensures note { IfOk result (λ r. (r.1.clock ≡ clock.now) × (r.1.seen ≡ number_of r.0 + 1)) }
    ensures desk { desk.new ≡ desk.old }
{
    if chit.left() == 0 {
        return Err(CellRefusal::ClockFull);
    }
    let mut note = desk.note(clock);
    let mut cell = vault.take(rt, chit);
    gate.at(desk.id(), desk.ops(), Edge::Locked(ask.node));
    let answer = cell.answer(clock, &mut note, way, ask);
    vault.give(chit, cell);
    let told = answer?;
    Ok((told, note))
}
