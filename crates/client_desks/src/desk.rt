ghost use Rattle.std.specs.Prelude.{◌≡◌, ◌↔◌, IsTrue, ℕ, ◌<◌, ◌≤◌, ◌+◌, ◌-◌, ◌^◌, [], None, Some, Err, true, false, IfOk, OnOk, OnErr, IfSome, IsSome, map};
ghost use Rattle.protocol.specs.Messages.{IsFormedBody};
ghost use Rattle.protocol.specs.Seen.{ops_of, phase_of, record_of};
ghost use Rattle.event_clock.specs.Passes.{left_of, met, sight_of};
ghost use Rattle.journals.specs.Desks.{FitsOp, ActsAs};
ghost use Rattle.locked_nodes.specs.Cells.{number_of, reply_told};
ghost use Rattle.client_desks.specs.Desks.{DeskView, first_desk, met_desk, state_at, task_at, records_at, asks_of, IsUp, CanStart, CanCall, with_own, desk_entry, KeptDesk, with_call, ending};

use crate::recording::{Foreseen, foresee, opened, take};
use client_core::Client;
use event_clock::{Clock, Note, Pass};
use journals::{DeskAct, DeskEntry, DeskJournal, Way};
use lists::{Copied, ItemList, NoMemory};
use locked_nodes::{CellRefusal, Told};
use quorum_rules::Config;
use run_words::{Outcome, Record};
use std::alloc::Global;
use std::marker::Model;
use wire_forms::{Message, Op};

/// What a desk leaves: the client's journal, the records that it tells, and the pass.
#[derive(Drop)]
pub struct Finished {
    pub journal: DeskJournal,
    pub records: ItemList<Record>,
    pub pass: Pass,
}

/// One client's journal and its pass, which one thread owns. A correct client's desk also has the client, which is what its
/// journal leaves, and the records of its operations, which are those that the journal tells. Contracts see the cluster, the client's
/// number and whether it lies, the journal and the pass.
pub struct Desk {
    config: Config,
    id: u32,
    lying: bool,
    /// A lying client's stays idle.
    client: Client,
    crashed: bool,
    entries: Vec<DeskEntry>,
    /// In the order of their starts; the last one is open while its operation is under way.
    records: Vec<Record>,
    pass: Pass,
}

// By hand, since a derived drop is proved anew wherever one is let go.
impl Drop for Desk {
    fn drop(self) {
        let Desk {
            config: _config,
            id: _id,
            lying: _lying,
            client: _client,
            crashed: _crashed,
            entries: _entries,
            records: _records,
            pass: _pass,
        } = self;
    }
}

impl Model for Desk {
    ghost use Rattle.std.specs.Prelude.{map};
    ghost use Rattle.protocol.specs.Seen.{record_of};
    ghost use Rattle.client_desks.specs.Desks.{DeskView, IsDesk};

    ghost Value = { DeskView };

    ghost view = { λ d. record { config = d.config; id = d.id; lying = d.lying; entries = d.entries.items; pass = d.pass } };

    ghost invariant = { λ d. IsDesk d.config d.id d.lying d.client d.crashed d.entries.items (map record_of d.records.items) d.pass };
}

impl Desk {
    /// The desk of a correct client that has done nothing.
    pub fn new(alloc: Global, config: &Config, id: u32, pass: Pass) -> Result<Desk, NoMemory>
        requires unused { pass.drawn ≡ [] }
        ensures { IfOk result (λ d. d ≡ first_desk config.now id false pass) }
    {
        Desk::open(alloc, config, id, false, pass)
    }

    /// The desk of a lying client that has done nothing.
    pub fn lying(alloc: Global, config: &Config, id: u32, pass: Pass) -> Result<Desk, NoMemory>
        requires unused { pass.drawn ≡ [] }
        ensures { IfOk result (λ d. d ≡ first_desk config.now id true pass) }
    {
        Desk::open(alloc, config, id, true, pass)
    }

    fn open(
        alloc: Global,
        config: &Config,
        id: u32,
        lying: bool,
        pass: Pass,
    ) -> Result<Desk, NoMemory>
        requires unused { pass.drawn ≡ [] }
        ensures { IfOk result (λ d. d ≡ first_desk config.now id lying pass) }
    {
        Ok(Desk {
            config: *config,
            id,
            lying,
            client: Client::new(alloc, config, id)?,
            crashed: false,
            entries: Vec::new(alloc),
            records: Vec::new(alloc),
            pass,
        })
    }

    /// Whether an operation can start: the client is correct, hasn't crashed, is idle, and has operations left.
    pub fn can_start(&self) -> bool
        ensures { IsTrue result ↔ CanStart self.now }
    {
        !self.lying && !self.crashed && self.client.is_idle() && self.client.started() < u32::MAX
    }

    /// Whether a node can be called: the client is correct, hasn't crashed, is busy, and has phases left, and the node hasn't
    /// answered the phase.
    pub fn can_call(&self, node: u8) -> bool
        requires { node < self.now.config.n }
        ensures { IsTrue result ↔ CanCall self.now node }
    {
        !self.lying
            && !self.crashed
            && !self.client.is_idle()
            && !self.client.answered(node)
            && self.client.phase() < u64::MAX
    }

    /// The client's number.
    pub fn id(&self) -> u32
        ensures { result ≡ self.now.id }
    {
        self.id
    }

    /// The number of the last operation that the client started, counted from 1.
    pub fn ops(&self) -> u64
        ensures { result ≡ ops_of (state_at self.now).client.seen }
    {
        self.client.ops()
    }

    /// The phase of the operation under way, 0 where there is none.
    pub fn phase(&self) -> u64
        ensures { result ≡ phase_of (task_at self.now) }
    {
        self.client.phase()
    }

    /// What the client did so far, by ascending number.
    pub fn journal(&self) -> &[DeskEntry]
        ensures { result.now ≡ self.now.entries }
    {
        self.entries.as_slice()
    }

    /// The records of the operations that the client started so far, in order.
    pub fn records(&self) -> &[Record]
        ensures { map record_of result.now ≡ records_at self.now }
    {
        self.records.as_slice()
    }

    /// What each desk keeps, whatever was done with it.
    pub fn known(&self)
        ensures { KeptDesk self.now }
    {
        // Whoever reads a field knows what the type keeps.
        let _pass = &self.pass;
    }

    /// Lets the desk's pass and another one see what either has seen.
    pub fn meet(&mut self, clock: &Clock, other: &mut Pass)
        requires clock { self.old.pass.clock ≡ clock.now }
        requires other { other.old.clock ≡ clock.now }
        ensures desk { self.new ≡ met_desk self.old other.old }
        ensures other { other.new ≡ met other.old self.old.pass }
    {
        clock.meet(&mut self.pass, other);
    }

    /// A note of what the desk's pass has seen, to go along with an ask.
    pub fn note(&mut self, clock: &Clock) -> Note
        requires clock { self.old.pass.clock ≡ clock.now }
        ensures note { result ≡ sight_of self.old.pass }
        ensures same { self.new ≡ self.old }
    {
        clock.note(&mut self.pass)
    }

    /// What the client's phase asks of a node, if it asks anything.
    pub fn asks(&self, node: u8) -> Result<Option<Message>, NoMemory>
        ensures asked { IfOk result (λ ask. ask ≡ asks_of self.now node) }
        ensures to { IfOk result (λ ask.
            IfSome ask (λ m. (m.node ≡ node) × (m.client ≡ self.now.id))) }
        ensures some { CanCall self.now node → IfOk result (λ ask. IsSome ask) }
    {
        self.client.outstanding(node)
    }

    /// Whether an entry of this number can be added: it isn't below any that the desk's pass has seen.
    pub fn can_hear(&self, number: u64) -> bool
        ensures { IsTrue result ↔ self.now.pass.seen ≤ number }
    {
        self.pass.seen() <= number
    }

    /// The journal and the records that it tells, and the pass, which drew the numbers of its starts and crashes.
    pub fn finish(self) -> Finished
        ensures client { result.journal.client ≡ self.id }
        ensures entries { result.journal.entries ≡ self.entries }
        ensures records { map record_of result.records ≡ records_at self }
        ensures pass { result.pass ≡ self.pass }
        ensures kept { KeptDesk self }
    {
        let Desk {
            config: _,
            id,
            lying: _,
            client: _,
            crashed: _,
            entries,
            records,
            pass,
        } = self;
        Finished {
            journal: DeskJournal {
                client: id,
                entries: ItemList::from_vec(entries),
            },
            records: ItemList::from_vec(records),
            pass,
        }
    }

    /// Starts an operation. `ClockFull` comes exactly where the pass can't draw.
    pub fn start(&mut self, clock: &Clock, op: &Op) -> Result<(), CellRefusal>
        requires clock { self.old.pass.clock ≡ clock.now }
        requires can { CanStart self.old }
        requires fits { FitsOp self.old.config op.now }
        ensures ok { OnOk result
            ((n : ℕ) × (self.old.pass.seen ≤ n)
            × (self.new ≡ with_own self.old n (DeskAct.Start op.now))) }
        ensures full { (result ≡ Err CellRefusal.ClockFull) ↔ (left_of self.old.pass ≡ 0) }
        ensures err { OnErr result (self.new ≡ self.old) }
    {
        if self.pass.left() == 0 {
            return Err(CellRefusal::ClockFull);
        }
        self.entries.reserve(1)?;
        self.records.reserve(1)?;
        let noted = op.copy()?;
        let told = op.copy()?;
        let _mail = self.client.start(op)?;
        let number = clock.draw(&mut self.pass);
        self.entries.push_reserved(DeskEntry {
            number,
            act: DeskAct::Start { op: noted },
        });
        // Places count from 1, and numbers from 0.
        self.records
            .push_reserved(opened(self.id, number + 1, told));
        Ok(())
    }

    /// The client crashes. `ClockFull` comes exactly where the pass can't draw.
    pub fn crash(&mut self, clock: &Clock) -> Result<(), CellRefusal>
        requires clock { self.old.pass.clock ≡ clock.now }
        requires up { IsUp self.old }
        ensures ok { OnOk result
            ((n : ℕ) × (self.old.pass.seen ≤ n) × (self.new ≡ with_own self.old n DeskAct.Crash)) }
        ensures full { (result ≡ Err CellRefusal.ClockFull) ↔ (left_of self.old.pass ≡ 0) }
        ensures err { OnErr result (self.new ≡ self.old) }
    {
        if self.pass.left() == 0 {
            return Err(CellRefusal::ClockFull);
        }
        self.entries.reserve(1)?;
        let number = clock.draw(&mut self.pass);
        self.entries.push_reserved(DeskEntry {
            number,
            act: DeskAct::Crash,
        });
        self.crashed = true;
        Ok(())
    }

    /// Hears what the thread of a node told of the ask that the client's phase makes of that node: the entry of the call, whose
    /// number the note has seen. It answers the outcome exactly where the reply ends the operation.
    pub fn hear(
        &mut self,
        clock: &Clock,
        way: Way,
        ask: Message,
        told: Told,
        note: Note,
    ) -> Result<Option<Outcome>, NoMemory>
        requires clock { (self.old.pass.clock ≡ clock.now) × (note.clock ≡ clock.now) }
        requires can { CanCall self.old ask.node }
        requires asked { asks_of self.old ask.node ≡ Some ask }
        requires later { self.old.pass.seen ≤ number_of told }
        requires seen { note.seen ≡ number_of told + 1 }
        ensures ok { OnOk result
            (self.new
            ≡ with_call self.old (number_of told) (DeskAct.Call way ask (reply_told told))) }
        ensures ended { IfOk result (λ outcome.
            outcome ≡ ending (state_at self.old).client (reply_told told)) }
        ensures err { OnErr result (self.new ≡ self.old) }
    {
        self.add(clock, way, ask, told, note)
    }

    /// Adds the entry of a lying client's ask, which the thread of a node met, and whose number the note has seen.
    pub fn note_sent(
        &mut self,
        clock: &Clock,
        ask: Message,
        told: Told,
        note: Note,
    ) -> Result<(), NoMemory>
        requires clock { (self.old.pass.clock ≡ clock.now) × (note.clock ≡ clock.now) }
        requires lying { self.old.lying ≡ true }
        requires own { ask.client ≡ self.old.id }
        requires formed { IsFormedBody ask.body }
        requires later { self.old.pass.seen ≤ number_of told }
        requires seen { note.seen ≡ number_of told + 1 }
        ensures ok { OnOk result
            (self.new
            ≡ with_call self.old (number_of told) (DeskAct.Call Way.Call ask (reply_told told))) }
        ensures err { OnErr result (self.new ≡ self.old) }
    {
        let _idle = &self.client;
        let _outcome = self.add(clock, Way::Call, ask, told, note)?;
        Ok(())
    }

    // Adds the entry of a call that the client may make and that was told this, and hears the reply, if there is one.
    fn add(
        &mut self,
        clock: &Clock,
        way: Way,
        ask: Message,
        told: Told,
        note: Note,
    ) -> Result<Option<Outcome>, NoMemory>
        requires clock { (self.old.pass.clock ≡ clock.now) × (note.clock ≡ clock.now) }
        requires may { ActsAs self.old.lying (state_at self.old)
            (DeskAct.Call way ask (reply_told told)) }
        requires phase { phase_of (task_at self.old) < 2 ^ 64 - 1 }
        requires later { self.old.pass.seen ≤ number_of told }
        requires seen { note.seen ≡ number_of told + 1 }
        ensures ok { OnOk result
            (self.new
            ≡ with_call self.old (number_of told) (DeskAct.Call way ask (reply_told told))) }
        ensures ended { IfOk result (λ outcome.
            outcome ≡ ending (state_at self.old).client (reply_told told)) }
        ensures err { OnErr result (self.new ≡ self.old) }
    {
        self.entries.reserve(1)?;
        let Foreseen { step, outcome } = foresee(&self.client, &told)?;
        clock.heed(&mut self.pass, note);
        self.entries.push_reserved(entry_of(way, ask, told));
        // The place after the number of the entry.
        let place = self.pass.seen();
        take(&mut self.client, &mut self.records, place, step);
        Ok(outcome)
    }
}

// The entry of a call that was told this.
fn entry_of(way: Way, ask: Message, told: Told) -> DeskEntry
    ensures { result ≡ desk_entry (number_of told) (DeskAct.Call way ask (reply_told told)) }
{
    let (number, reply) = told.into_reply();
    DeskEntry {
        number,
        act: DeskAct::Call { way, ask, reply },
    }
}
