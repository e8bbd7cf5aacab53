//! A client's desk, with its way to the nodes.
ghost use Rattle.std.specs.Prelude.{◌≡◌, ◌↔◌, ℕ, ◌<◌, ◌≤◌, None, Some, Err, true, IfOk, OnOk, OnErr};
ghost use Rattle.protocol.specs.Messages.{IsFormedBody, IsAsk};
ghost use Rattle.event_clock.specs.Passes.{left_of};
ghost use Rattle.journals.specs.Desks.{FitsOp};
ghost use Rattle.client_desks.specs.Desks.{IsUp, CanStart, CanCall, with_own};
ghost use Rattle.client_desks.specs.Later.{IsLater};
ghost use Rattle.locked_nodes.specs.CellShards.{IsWholeAt};
ghost use Rattle.client_endpoints.specs.Transports.{route, AtRest, IsNew, HaveEnded};
ghost use Rattle.client_endpoints.specs.Endpoint.{EndpointView, Agree, Fit, Reaches, IsShared, fixed, refusal_in, IsAskOn, AsksOn, HasCalled, HasSent, AddBoth};

use crate::shared_cells::SharedCells;
use crate::transport::Transport;
use client_desks::Desk;
use client_desks::laws::desks_go_on;
use journals::{DeskAct, Way};
use lists::Copied;
use locked_nodes::CellRefusal;
use run_words::Outcome;
use std::marker::Model;
use std::snapshot::Snapshot;
use std::sync::Wait;
use thread_work::{Gate, OpenGate};
use wire_forms::{Body, Message, Op};

/// A client's desk, with its transport to the nodes. Contracts see both, the desk as it was before the first ask, and the first
/// refusal, after which the endpoint does nothing more.
///
/// Until a refusal comes, each call that nodes told through the transport stands on the desk, and each entry of the desk is its own,
/// or of before the first ask, or such a call.
pub struct Endpoint {
    began: Snapshot<Desk>,
    desk: Desk,
    transport: Transport,
    refused: Option<CellRefusal>,
}

// By hand, since a derived drop is proved anew wherever one is let go.
impl Drop for Endpoint {
    fn drop(self) {
        let Endpoint {
            began: _began,
            desk: _desk,
            transport: _transport,
            refused: _refused,
        } = self;
    }
}

impl Model for Endpoint {
    ghost use Rattle.client_endpoints.specs.Endpoint.{EndpointView, IsEndpoint};

    ghost Value = { EndpointView };

    ghost view = { λ k. record { began = k.began.value; desk = k.desk; transport = k.transport; refused = k.refused } };

    ghost invariant = { λ k. IsEndpoint k.began.value k.desk k.transport k.refused };
}

impl Endpoint {
    /// The endpoint of a desk and a transport through which nodes have told nothing.
    pub fn new(desk: Desk, transport: Transport) -> Endpoint
        requires rest { AtRest transport }
        requires new { IsNew transport }
        ensures { result ≡ record {
          began = desk;
          desk = desk;
          transport = transport;
          refused = None;
        } }
    {
        Endpoint {
            began: Snapshot::of(&desk),
            desk,
            transport,
            refused: None,
        }
    }

    /// The desk.
    pub fn desk(&self) -> &Desk
        ensures { result.now ≡ self.now.desk }
    {
        &self.desk
    }

    /// The refusal that came, if one did.
    pub fn refused(&self) -> Option<CellRefusal>
        ensures { result ≡ self.now.refused }
    {
        self.refused
    }

    /// Notes that the client's thread gives up, for want of memory of its own or for another cause. The desk stays.
    pub fn refuse(&mut self, refusal: CellRefusal)
        requires sound { self.old.refused ≡ None }
        ensures { self.new ≡ record self.old { refused = Some refusal } }
    {
        self.refused = Some(refusal);
    }

    /// Starts an operation. `ClockFull` comes exactly where the desk's pass can't draw.
    pub fn start(&mut self, shared_cells: &SharedCells, op: &Op) -> Result<(), CellRefusal>
        requires fit { Fit self.old shared_cells.now }
        requires sound { self.old.refused ≡ None }
        requires can { CanStart self.old.desk }
        requires fits { FitsOp self.old.desk.config op.now }
        ensures ok { OnOk result
            ((n : ℕ) × (self.old.desk.pass.seen ≤ n)
            × (self.new.desk ≡ with_own self.old.desk n (DeskAct.Start op.now))) }
        ensures full { (result ≡ Err CellRefusal.ClockFull) ↔ (left_of self.old.desk.pass ≡ 0) }
        ensures err { OnErr result (self.new.desk ≡ self.old.desk) }
        ensures refused { self.new.refused ≡ refusal_in result }
        ensures later { IsLater self.old.desk self.new.desk }
        ensures transport { self.new.transport ≡ self.old.transport }
        ensures stays { fixed self.new ≡ fixed self.old }
        ensures fit { Fit self.new shared_cells.now }
    {
        desks_go_on();
        let answer = self.desk.start(shared_cells.clock(), op);
        self.refused = refusal_of(&answer);
        answer
    }

    /// The client crashes. `ClockFull` comes exactly where the desk's pass can't draw.
    pub fn crash(&mut self, shared_cells: &SharedCells) -> Result<(), CellRefusal>
        requires fit { Fit self.old shared_cells.now }
        requires sound { self.old.refused ≡ None }
        requires up { IsUp self.old.desk }
        ensures ok { OnOk result
            ((n : ℕ) × (self.old.desk.pass.seen ≤ n)
            × (self.new.desk ≡ with_own self.old.desk n DeskAct.Crash)) }
        ensures full { (result ≡ Err CellRefusal.ClockFull) ↔ (left_of self.old.desk.pass ≡ 0) }
        ensures err { OnErr result (self.new.desk ≡ self.old.desk) }
        ensures refused { self.new.refused ≡ refusal_in result }
        ensures later { IsLater self.old.desk self.new.desk }
        ensures transport { self.new.transport ≡ self.old.transport }
        ensures stays { fixed self.new ≡ fixed self.old }
        ensures fit { Fit self.new shared_cells.now }
    {
        desks_go_on();
        let answer = self.desk.crash(shared_cells.clock());
        self.refused = refusal_of(&answer);
        answer
    }

    /// Asks the node, through its cell for the block of the operation under way, what the client's phase asks of it, waits for what
    /// is told, and hears the reply, if there is one. An ask is held back only by a node with one cell. It answers the outcome
    /// exactly where the reply ends the operation. `ClockFull` comes where the cell's pass or a chit is used up, each after more than
    /// 10^12 calls, or where the node's thread says so; no clause says when.
    pub fn call<R: Wait, G: Gate>(
        &mut self,
        rt: &R,
        gate: &G,
        shared_cells: &SharedCells,
        node: u8,
        block: u32,
        way: Way,
    ) -> Result<Option<Outcome>, CellRefusal>
        requires fit { Fit self.old shared_cells.now }
        requires sound { self.old.refused ≡ None }
        requires node { node < self.old.desk.config.n }
        requires can { CanCall self.old.desk node }
        requires on { AsksOn self.old.desk node block }
        requires whole { way ≡ Way.Hold → IsWholeAt shared_cells.now.cell_shards node }
        ensures called { IfOk result (λ outcome.
            HasCalled self.old.desk node way outcome self.new.desk) }
        ensures err { OnErr result (self.new.desk ≡ self.old.desk) }
        ensures refused { self.new.refused ≡ refusal_in result }
        ensures later { IsLater self.old.desk self.new.desk }
        ensures stays { fixed self.new ≡ fixed self.old }
        ensures fit { Fit self.new shared_cells.now }
    {
        desks_go_on();
        let answer = call_by(
            rt,
            gate,
            shared_cells,
            &mut self.desk,
            &mut self.transport,
            node,
            block,
            way,
        );
        self.refused = refusal_of(&answer);
        answer
    }

    /// Sends a lying client's ask to its node, through the cell that serves it, and waits for what is told. `ClockFull` comes where
    /// the cell's pass or a chit is used up, each after more than 10^12 calls, or where the node's thread says so; no clause says
    /// when.
    pub fn send<R: Wait>(
        &mut self,
        rt: &R,
        shared_cells: &SharedCells,
        ask: &Message,
    ) -> Result<(), CellRefusal>
        requires fit { Fit self.old shared_cells.now }
        requires sound { self.old.refused ≡ None }
        requires lying { self.old.desk.lying ≡ true }
        requires own { ask.now.client ≡ self.old.desk.id }
        requires formed { IsFormedBody ask.now.body }
        requires asks { IsAsk ask.now.body }
        requires node { ask.now.node < self.old.desk.config.n }
        ensures sent { OnOk result (HasSent self.old.desk ask.now self.new.desk) }
        ensures err { OnErr result (self.new.desk ≡ self.old.desk) }
        ensures refused { self.new.refused ≡ refusal_in result }
        ensures later { IsLater self.old.desk self.new.desk }
        ensures stays { fixed self.new ≡ fixed self.old }
        ensures fit { Fit self.new shared_cells.now }
    {
        desks_go_on();
        let answer = send_by(rt, shared_cells, &mut self.desk, &mut self.transport, ask);
        self.refused = refusal_of(&answer);
        answer
    }

    /// By mail, puts the client's last word into each inbox, and takes its own up to the last word of each node; an answer that is
    /// still there, which no node puts unasked, is a refusal. By locks there is nothing to end.
    pub fn end<R: Wait>(&mut self, rt: &R)
        ensures began { self.new.began ≡ self.old.began }
        ensures desk { self.new.desk ≡ self.old.desk }
        ensures ended { HaveEnded self.old.transport self.new.transport }
        ensures refused { self.new.refused ≡ None → self.old.refused ≡ None }
    {
        if let Transport::Mail(mail) = &mut self.transport {
            if !mail.end(rt) {
                self.refused = Some(CellRefusal::NoMemory);
            }
        }
    }

    /// The desk and the transport, which agree if no refusal came.
    pub fn into_parts(self) -> (Desk, Transport)
        ensures desk { result.0 ≡ self.desk }
        ensures transport { result.1 ≡ self.transport }
        ensures rest { AtRest self.transport }
        ensures agree { self.refused ≡ None → Agree self.began self.desk self.transport }
    {
        let Endpoint {
            began: _,
            desk,
            transport,
            refused: _,
        } = self;
        (desk, transport)
    }
}

// The block of an ask.
fn block_of(ask: &Message) -> u32
    requires { IsAsk ask.now.body }
    ensures { IsAskOn result ask.now.body }
{
    match &ask.body {
        Body::Ask(asked) => asked.block,
        Body::Answer(_) => unreachable!(),
    }
}

fn refusal_of<T>(answer: &Result<T, CellRefusal>) -> Option<CellRefusal>
    ensures { result ≡ refusal_in answer.now }
{
    match answer {
        Ok(_) => None,
        Err(refusal) => Some(*refusal),
    }
}

// Asks a node what the client's phase asks of it, and hears what is told.
fn call_by<R: Wait, G: Gate>(
    rt: &R,
    gate: &G,
    shared_cells: &SharedCells,
    desk: &mut Desk,
    transport: &mut Transport,
    node: u8,
    block: u32,
    way: Way,
) -> Result<Option<Outcome>, CellRefusal>
    requires shared_cells { IsShared desk.old.config shared_cells.now }
    requires reach { Reaches desk.old.id (route transport.old) shared_cells.now }
    requires clock { desk.old.pass.clock ≡ shared_cells.now.clock }
    requires rest { AtRest transport.old }
    requires node { node < desk.old.config.n }
    requires can { CanCall desk.old node }
    requires on { AsksOn desk.old node block }
    requires whole { way ≡ Way.Hold → IsWholeAt shared_cells.now.cell_shards node }
    ensures called { IfOk result (λ outcome. HasCalled desk.old node way outcome desk.new) }
    ensures both { OnOk result (AddBoth desk.old transport.old desk.new transport.new) }
    ensures err { OnErr result (desk.new ≡ desk.old) }
    ensures route { route transport.new ≡ route transport.old }
    ensures rest { AtRest transport.new }
{
    let asked = desk.asks(node)?;
    let Some(ask) = asked else { unreachable!() };
    let (told, note) = transport.ask(rt, gate, shared_cells, desk, block, way, &ask)?;
    let outcome = desk.hear(shared_cells.clock(), way, ask, told, note)?;
    Ok(outcome)
}

// Sends an ask of a lying client to its node, and notes what is told.
fn send_by<R: Wait>(
    rt: &R,
    shared_cells: &SharedCells,
    desk: &mut Desk,
    transport: &mut Transport,
    ask: &Message,
) -> Result<(), CellRefusal>
    requires shared_cells { IsShared desk.old.config shared_cells.now }
    requires reach { Reaches desk.old.id (route transport.old) shared_cells.now }
    requires clock { desk.old.pass.clock ≡ shared_cells.now.clock }
    requires rest { AtRest transport.old }
    requires lying { desk.old.lying ≡ true }
    requires own { ask.now.client ≡ desk.old.id }
    requires formed { IsFormedBody ask.now.body }
    requires asks { IsAsk ask.now.body }
    requires node { ask.now.node < desk.old.config.n }
    ensures sent { OnOk result (HasSent desk.old ask.now desk.new) }
    ensures both { OnOk result (AddBoth desk.old transport.old desk.new transport.new) }
    ensures err { OnErr result (desk.new ≡ desk.old) }
    ensures route { route transport.new ≡ route transport.old }
    ensures rest { AtRest transport.new }
{
    let kept = ask.copy()?;
    let block = block_of(ask);
    let (told, note) = transport.ask(rt, &OpenGate, shared_cells, desk, block, Way::Call, ask)?;
    desk.note_sent(shared_cells.clock(), kept, told, note)?;
    Ok(())
}
