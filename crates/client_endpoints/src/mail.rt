//! A client's way to nodes that run in threads of their own.
ghost use Rattle.std.specs.Prelude.{◌≡◌, ◌≤◌, ◌<◌, ◌+◌, Some, true, IfOk, length, slice_get};
ghost use Rattle.inboxes.specs.Sides.{took, Putting};
ghost use Rattle.locked_nodes.specs.Cells.{number_of};
ghost use Rattle.client_endpoints.specs.declared.asked.Asked.{Asked as AnyAsked};
ghost use Rattle.client_endpoints.specs.declared.asked.NodePlace.{NodePlace};
ghost use Rattle.client_endpoints.specs.Asking.{CanAsk, HasTaken, IsSameMail, HasEnded};

use crate::answered::Answered;
use crate::asked::Asked;
use client_desks::Desk;
use event_clock::{Clock, Note};
use inboxes::{Putter, Taker};
use journals::Way;
use lists::Copied;
use locked_nodes::{CellRefusal, Told};
use std::sync::Wait;
use wire_forms::Message;

/// A client's way to nodes that run in threads of their own: the right to ask each cell, by the cells' places, and to take the
/// answers to the client.
pub struct ByMail {
    /// Which of the clients it is, to the nodes.
    pub seat: u32,
    pub asks: Vec<Putter<Asked>>,
    pub answers: Taker<Answered>,
}

// By hand, since a derived drop is proved anew wherever one is let go.
impl Drop for ByMail {
    fn drop(self) {
        let ByMail {
            seat: _seat,
            asks: _asks,
            answers: _answers,
        } = self;
    }
}

impl ByMail {
    // Asks the cell at a place, and waits for what is told, with a note that has seen it.
    pub(crate) fn ask<R: Wait>(
        &mut self,
        rt: &R,
        clock: &Clock,
        place: usize,
        desk: &mut Desk,
        way: Way,
        ask: &Message,
    ) -> Result<(Told, Note), CellRefusal>
        requires place { place < length self.old.asks.items }
        requires clock { desk.old.pass.clock ≡ clock.now }
        requires asks { (p : Putting AnyAsked NodePlace) →
            slice_get self.old.asks.items place ≡ Some p →
            CanAsk clock.now self.old.seat way ask.now p.inbox.place }
        requires answers { self.old.answers.inbox.place.clock.value ≡ clock.now }
        ensures taken { IfOk result (λ r. HasTaken self.old way ask.now r.0 self.new) }
        ensures later { IfOk result (λ r. desk.old.pass.seen ≤ number_of r.0) }
        ensures note { IfOk result (λ r. (r.1.clock ≡ clock.now) × (r.1.seen ≡ number_of r.0 + 1)) }
        ensures desk { desk.new ≡ desk.old }
        ensures same { IsSameMail self.old self.new }
    {
        let asked = Asked {
            seat: self.seat,
            way,
            ask: ask.copy()?,
            note: desk.note(clock),
        };
        let inbox = &mut self.asks[place];
        inbox.put(rt, asked);
        // A node ends after its clients, and answers an ask with what was asked, under a number above what the ask's note has seen.
        let Some((_, answer)) = self.answers.take(rt) else {
            return Err(CellRefusal::NoMemory);
        };
        if !answer.is_to(way, ask) {
            return Err(CellRefusal::NoMemory);
        }
        let (told, note) = answer.into_told();
        let told = told?;
        if !desk.can_hear(number_in(&told)) {
            return Err(CellRefusal::NoMemory);
        }
        Ok((told, note))
    }

    /// Puts the client's last word into each inbox, and takes the answers that are left, up to the last word of each node. It
    /// tells whether there were none.
    pub(crate) fn end<R: Wait>(&mut self, rt: &R) -> bool
        ensures none { result ≡ true → took self.new.answers ≡ took self.old.answers }
        ensures ended { HasEnded self.old self.new }
    {
        while let Some(inbox) = self.asks.pop() {
            let _sent = inbox.last(rt);
        }
        let mut none = true;
        for _ in rt.forever() {
            if self.answers.take(rt).is_none() {
                return none;
            }
            none = false;
        }
        unreachable!()
    }
}

// The number of what was told.
fn number_in(told: &Told) -> u64
    ensures { result ≡ number_of told.now }
{
    match told {
        Told::Answered { number, .. } | Told::Silent { number, .. } => *number,
    }
}
