//! What a node's thread has, and what it does.
ghost use Rattle.std.specs.Prelude.{◌≡◌, ◌+◌, [], Ok, IfOk};
ghost use Rattle.client_endpoints.specs.Mail.{IsAskAt};
ghost use Rattle.client_endpoints.specs.declared.asked.NodePlace.{NodePlace};
ghost use Rattle.locked_nodes.specs.declared.answers.Told.{Told};
ghost use Rattle.journals.specs.Acts.{act, answer_of};
ghost use Rattle.locked_nodes.specs.Cells.{HasMoreAside, number_of, state_of, told_as, with_entry};
ghost use Rattle.locked_nodes.specs.CellShards.{cell_shard_of};
ghost use Rattle.node_workers.specs.Workers.{CanServe, HasMet, HasServed};

use client_endpoints::{Answered, Asked};
use event_clock::Clock;
use inboxes::{Putter, Sent, Taker};
use lists::NoMemory;
use locked_nodes::{Late, NodeCell};
use std::alloc::Global;
use std::marker::Model;
use std::sync::Wait;
use thread_work::{Edge, Gate};

/// A node's cell, the inbox of asks to it, and the right to put answers into each client's inbox, by the clients' seats. Contracts
/// see these, and the answers that were put.
pub struct NodeWorker {
    cell: NodeCell,
    asks: Taker<Asked>,
    answers: Vec<Putter<Answered>>,
    /// What is left of the putters, by the seats too.
    sents: Vec<Sent<Answered>>,
}

// By hand, since a derived drop is proved anew wherever one is let go.
impl Drop for NodeWorker {
    fn drop(self) {
        let NodeWorker {
            cell: _cell,
            asks: _asks,
            answers: _answers,
            sents: _sents,
        } = self;
    }
}

impl Model for NodeWorker {
    ghost use Rattle.std.specs.Prelude.{◌+◌, ◌≤◌, vec_len, vec_capacity};
    ghost use Rattle.node_workers.specs.Workers.{WorkerView};

    ghost Value = { WorkerView };

    ghost view = { λ w. record { cell = w.cell; asks = w.asks; answers = w.answers.items; sents = w.sents.items } };

    ghost invariant = { λ w. vec_len w.answers + vec_len w.sents ≤ vec_capacity w.sents };
}

impl NodeWorker {
    /// A worker that has served nobody.
    pub fn new(
        alloc: Global,
        cell: NodeCell,
        asks: Taker<Asked>,
        answers: Vec<Putter<Answered>>,
    ) -> Result<NodeWorker, NoMemory>
        ensures { IfOk result (λ w.
            w ≡ record { cell = cell; asks = asks; answers = answers.items; sents = [] }) }
    {
        let mut sents = Vec::new(alloc);
        sents.reserve(answers.len())?;
        Ok(NodeWorker {
            cell,
            asks,
            answers,
            sents,
        })
    }

    /// Takes asks until each client's last word was taken: the node meets each, and what it told or refused is put into the inbox
    /// of the client that asked. After each ask the oldest one that is held back comes late, and after the last ask all of them
    /// do; one that the cell refuses stays held back.
    pub fn serve<R: Wait, G: Gate>(&mut self, rt: &R, gate: &G, clock: &Clock)
        requires { CanServe clock.now self.old }
        ensures { HasServed self.old self.new }
    {
        for _ in rt.forever() {
            let Some((_, asked)) = self.asks.take(rt) else {
                bring_all(rt, &mut self.cell, clock);
                self.end(rt);
                return;
            };
            gate.at(
                asked.ask.client,
                asked.ask.tag.op,
                Edge::Taken(self.cell.number()),
            );
            let putter = &mut self.answers[asked.seat as usize];
            let answer = answer_to(&mut self.cell, clock, asked);
            putter.put(rt, answer);
            let _came = bring_one(&mut self.cell, clock);
        }
        unreachable!()
    }

    // Puts the last word into each client's inbox.
    fn end<R: Wait>(&mut self, rt: &R)
        requires { self.old.sents ≡ [] }
        ensures cell { self.new.cell ≡ self.old.cell }
        ensures asks { self.new.asks ≡ self.old.asks }
        ensures none { self.new.answers ≡ [] }
        ensures sents { self.new.sents ≡ self.old.answers }
    {
        while let Some(putter) = self.answers.pop() {
            self.sents.push_reserved(putter.last(rt));
        }
        self.sents.reverse();
    }

    /// The cell, and what is left of the putters, by the clients' seats.
    pub fn into_parts(self) -> (NodeCell, Vec<Sent<Answered>>)
        ensures cell { result.0 ≡ self.cell }
        ensures sents { result.1.items ≡ self.sents }
    {
        let NodeWorker {
            cell,
            asks: _asks,
            answers: _answers,
            sents,
        } = self;
        (cell, sents)
    }
}

// Lets the node meet an ask. A refusal is an answer too.
fn answer_to(cell: &mut NodeCell, clock: &Clock, asked: Asked) -> Answered
    requires clock { cell.old.charter.pass.clock ≡ clock.now }
    requires fits { (place : NodePlace) × IsAskAt place asked × (place.clock.value ≡ clock.now)
        × (place.cell_shard ≡ cell_shard_of cell.old.charter) }
    ensures clock { result.note.clock ≡ clock.now }
    ensures to { (result.way ≡ asked.way) × (result.ask ≡ asked.ask) }
    ensures acted { IfOk result.told (λ told. cell.new ≡ with_entry cell.old (number_of told)
        (act (state_of cell.old) cell.old.charter.nature asked.way asked.ask)) }
    ensures told { IfOk result.told (λ told. told ≡ told_as (number_of told)
        (answer_of (act (state_of cell.old) cell.old.charter.nature asked.way asked.ask))) }
    ensures seen { (t : Told) → result.told ≡ Ok t → result.note.seen ≡ number_of t + 1 }
    ensures met { HasMet cell.old result cell.new }
{
    let Asked {
        seat: _,
        way,
        ask,
        mut note,
    } = asked;
    let told = cell.answer(clock, &mut note, way, &ask);
    Answered {
        way,
        ask,
        told,
        note,
    }
}

// Lets the oldest ask that is held back come late, and tells whether one came.
fn bring_one(cell: &mut NodeCell, clock: &Clock) -> bool
    requires { cell.old.charter.pass.clock ≡ clock.now }
    ensures { HasMoreAside cell.old cell.new }
{
    match cell.bring_late(clock) {
        Ok(Late::Delivered { .. } | Late::Lost { .. }) => true,
        Ok(Late::NoMail) | Err(_) => false,
    }
}

// Lets the asks that are held back come late, until none does.
fn bring_all<R: Wait>(rt: &R, cell: &mut NodeCell, clock: &Clock)
    requires { cell.old.charter.pass.clock ≡ clock.now }
    ensures { HasMoreAside cell.old cell.new }
{
    for _ in rt.forever() {
        if !bring_one(cell, clock) {
            return;
        }
    }
    unreachable!()
}
