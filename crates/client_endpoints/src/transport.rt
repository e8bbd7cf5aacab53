//! A client's way to nodes.
ghost use Rattle.std.specs.Prelude.{◌≡◌, ◌≤◌, ◌<◌, ◌+◌, IfOk};
ghost use Rattle.locked_nodes.specs.Cells.{number_of};
ghost use Rattle.locked_nodes.specs.CellShards.{IsWholeAt};
ghost use Rattle.client_endpoints.specs.Transports.{route, AtRest, call_of, HasTold, IsByLocks, IsByMail};
ghost use Rattle.client_endpoints.specs.Endpoint.{IsShared, Reaches, IsAskOn};

use crate::locks::ask_cell;
use crate::mail::ByMail;
use crate::shared_cells::SharedCells;
use client_desks::Desk;
use event_clock::Note;
use journals::Way;
use locked_nodes::{CellRefusal, NodeCell, Told};
use receipt_lock::Chit;
use std::sync::Wait;
use thread_work::Gate;
use wire_forms::Message;

/// A client's way to nodes, which carries its asks and brings back what they told. What contracts say of it is which calls nodes
/// told through it, and its route, which stays: the vaults or the inboxes.
pub enum Transport {
    /// Nodes stand under locks: a chit for each cell, in the cells' order.
    Locks(Vec<Chit<NodeCell>>),
    /// Nodes run in threads of their own, with inboxes.
    Mail(ByMail),
}

// By hand, since a derived drop is proved anew wherever one is let go.
impl Drop for Transport {
    fn drop(self) {
        match self {
            Transport::Locks(_chits) => {}
            Transport::Mail(_mail) => {}
        }
    }
}

impl Transport {
    // Asks the cell that serves the block of the ask's node, and waits for what is told, with a note that has seen it.
    pub(crate) fn ask<R: Wait, G: Gate>(
        &mut self,
        rt: &R,
        gate: &G,
        shared_cells: &SharedCells,
        desk: &mut Desk,
        block: u32,
        way: Way,
        ask: &Message,
    ) -> Result<(Told, Note), CellRefusal>
        requires shared_cells { IsShared desk.old.config shared_cells.now }
        requires reach { Reaches desk.old.id (route self.old) shared_cells.now }
        requires clock { desk.old.pass.clock ≡ shared_cells.now.clock }
        requires rest { AtRest self.old }
        requires node { ask.now.node < desk.old.config.n }
        requires own { ask.now.client ≡ desk.old.id }
        requires on { IsAskOn block ask.now.body }
        requires whole { way ≡ Way.Hold → IsWholeAt shared_cells.now.cell_shards ask.now.node }
        ensures told { IfOk result (λ r.
            HasTold self.old ask.now.client (call_of way ask.now r.0) self.new) }
        ensures later { IfOk result (λ r. desk.old.pass.seen ≤ number_of r.0) }
        ensures note { IfOk result (λ r.
            (r.1.clock ≡ shared_cells.now.clock) × (r.1.seen ≡ number_of r.0 + 1)) }
        ensures desk { desk.new ≡ desk.old }
        ensures route { route self.new ≡ route self.old }
        ensures rest { AtRest self.new }
    {
        let place = shared_cells.place(ask.node, block);
        match self {
            Transport::Locks(chits) => ask_cell(
                rt,
                gate,
                shared_cells.vault(place),
                shared_cells.clock(),
                &mut chits[place],
                desk,
                way,
                ask,
            ),
            Transport::Mail(mail) => mail.ask(rt, shared_cells.clock(), place, desk, way, ask),
        }
    }

    /// The chits.
    pub fn into_chits(self) -> Vec<Chit<NodeCell>>
        requires { IsByLocks self }
        ensures { self ≡ Transport.Locks result }
    {
        match self {
            Transport::Locks(chits) => chits,
            Transport::Mail(_) => unreachable!(),
        }
    }

    /// The inboxes.
    pub fn into_mail(self) -> ByMail
        requires { IsByMail self }
        ensures { self ≡ Transport.Mail result }
    {
        match self {
            Transport::Locks(_) => unreachable!(),
            Transport::Mail(mail) => mail,
        }
    }
}
