//! A node in a cell.
ghost use Rattle.std.specs.Prelude.{◌≡◌, ◌↔◌, ◌+◌, ◌<◌, ◌≤◌, ◌%◌, [], ◌∷◌, ◌++◌, length, ℕ, Ok, Err, true, false, if◌then◌else◌, IfOk, OnErr, vec_len, vec_capacity};
ghost use Rattle.event_clock.specs.Passes.{left_of, drew, met, with_sight};
ghost use Rattle.journals.specs.Acts.{act, answer_of, can_prune};
ghost use Rattle.locked_nodes.specs.CellShards.{cell_shard_of, cell_shards_of};
ghost use Rattle.locked_nodes.specs.Cells.{Serves, HoldsWhole, KeptCell, HasNoLateMail, HasMoreAside, BroughtLate, state_of, loses, told_as, number_of, entry, with_entry, with_seen, rechartered, new_cell, met_cell, items};

use crate::answers::{CellRefusal, Late, Pruning, Told};
use crate::cell_shard::CellShard;
use crate::charter::{Item, Terms};
use crate::state::CellState;
use event_clock::{Clock, Note, Pass};
use journals::laws::acts;
use journals::{Answer, Nature, NodeAct, NodeEntry, NodeJournal, Way};
use lists::{ItemList, NoMemory};
use quorum_rules::Config;
use receipt_lock::Kept;
use stamp_order::Stamp;
use std::alloc::Global;
use std::marker::Model;
use std::mem::replace;
use std::snapshot::Snapshot;
use wire_forms::Message;

/// A node with the journal of what it did, and the pass that draws the journal's numbers. Contracts see its charter, its
/// journal and its pass; the node's versions, the asks that are held back and whether it has crashed are what the journal
/// leaves.
pub struct NodeCell {
    terms: Terms,
    state: CellState,
    journal: Vec<NodeEntry>,
    pass: Pass,
}

impl Drop for NodeCell {
    fn drop(self) {
        let NodeCell {
            terms: _terms,
            state: _state,
            journal: _journal,
            pass: _pass,
        } = self;
    }
}

impl Model for NodeCell {
    ghost use Rattle.locked_nodes.specs.Cells.{CellView, IsCell};

    ghost Value = { CellView };

    ghost view = { λ c. record { charter = c.terms; journal = c.journal.items; pass = c.pass } };

    ghost invariant = { λ c. IsCell c.terms c.state c.journal.items c.pass };
}

impl Kept for NodeCell {
    ghost use Rattle.locked_nodes.specs.Cells.{items};

    type Entry = Item;

    ghost list = { items };

    fn entries(&self) -> u64 {
        self.list_len()
    }
}

impl NodeCell {
    /// The cell of a node that has done nothing, for the blocks of one shard. Its pass has drawn nothing; a node that is to
    /// crash after so many asks that it serves has one cell alone.
    pub fn new(
        alloc: Global,
        config: &Config,
        number: u8,
        shard: u32,
        shards: u32,
        nature: Nature,
        crash_after: Option<u64>,
        pass: Pass,
    ) -> Result<NodeCell, NoMemory>
        requires number { number < config.now.n }
        requires shard { shard < shards }
        requires unused { pass.drawn ≡ [] }
        ensures { IfOk result (λ cell.
            cell ≡ new_cell config.now number shard shards nature crash_after pass) }
    {
        let state = CellState::new(alloc, config, number, crash_after)?;
        let terms = Terms {
            config: *config,
            number,
            shard,
            shards,
            nature,
            crash_after,
            pass: Snapshot::of(&pass),
            base: 0,
            prunes: true,
        };
        Ok(NodeCell {
            terms,
            state,
            journal: Vec::new(alloc),
            pass,
        })
    }

    /// The node's number.
    pub fn number(&self) -> u8
        ensures { result ≡ self.now.charter.number }
    {
        self.terms.number()
    }

    /// Which blocks of which node the cell serves.
    pub fn cell_shard(&self) -> CellShard
        ensures { result ≡ cell_shard_of self.now.charter }
    {
        self.terms.cell_shard()
    }

    /// How many numbers the cell's pass may still draw.
    pub fn left(&self) -> u64
        ensures { result ≡ left_of self.now.pass }
    {
        self.pass.left()
    }

    /// What the node did, in order.
    pub fn journal(&self) -> &[NodeEntry]
        ensures { result.now ≡ self.now.journal }
    {
        self.journal.as_slice()
    }

    /// What each cell keeps, whatever was done with it.
    pub fn known(&self)
        ensures { KeptCell self.now }
    {
        // Whoever reads a field knows what the type keeps.
        let _pass = &self.pass;
    }

    /// Lets the node meet an ask, which comes this way, and adds what it does to the journal. The caller's note comes with the ask:
    /// the entry's number is not below any that the note has seen, and the note then has seen it.
    ///
    /// The ask is one that the cell serves, and is held back only where the node has one cell. `ClockFull` comes exactly where
    /// the cell's pass has no number left.
    pub fn answer(
        &mut self,
        clock: &Clock,
        caller: &mut Note,
        way: Way,
        ask: &Message,
    ) -> Result<Told, CellRefusal>
        requires ask { Serves self.old.charter ask.now }
        requires whole { HoldsWhole self.old.charter way }
        requires clock { self.old.charter.pass.clock ≡ clock.now }
        requires caller { caller.old.clock ≡ clock.now }
        ensures cell { IfOk result (λ told.
            self.new
            ≡ with_entry self.old (number_of told)
            (act (state_of self.old) self.old.charter.nature way ask.now)) }
        ensures told { IfOk result (λ told.
            told ≡ told_as (number_of told)
            (answer_of (act (state_of self.old) self.old.charter.nature way ask.now))) }
        ensures later { IfOk result (λ told. caller.old.seen ≤ number_of told) }
        ensures caller { IfOk result (λ told.
            caller.new ≡ with_sight caller.old (number_of told + 1)) }
        ensures full { (result ≡ Err CellRefusal.ClockFull) ↔ (left_of self.old.pass ≡ 0) }
        ensures err { OnErr result ((self.new ≡ self.old) × (caller.new ≡ caller.old)) }
    {
        if self.pass.left() == 0 {
            return Err(CellRefusal::ClockFull);
        }
        self.journal.reserve(1)?;
        let (act, answer) = self.state.act(self.terms.nature(), way, ask)?;
        acts();
        let number = add_entry(&mut self.journal, &mut self.pass, clock, caller, act);
        Ok(told(number, answer))
    }

    /// Lets the node meet the oldest ask that is held back, whose answer nobody hears, and adds what it does to the journal.
    ///
    /// `NoMail` comes exactly where no ask is held back, and `ClockFull` exactly where one is and the cell's pass has no number
    /// left. A held ask is lost exactly where the node lies, has crashed, or crashes now. No client has a side of what is added.
    pub fn bring_late(&mut self, clock: &Clock) -> Result<Late, CellRefusal>
        requires clock { self.old.charter.pass.clock ≡ clock.now }
        ensures delivered { (n : ℕ) → result ≡ Ok (Late.Delivered n) →
            BroughtLate self.old n self.new
            × (loses (state_of self.old) self.old.charter.nature ≡ false) }
        ensures lost { (n : ℕ) → result ≡ Ok (Late.Lost n) →
            BroughtLate self.old n self.new
            × (loses (state_of self.old) self.old.charter.nature ≡ true) }
        ensures none { (result ≡ Ok Late.NoMail) ↔ HasNoLateMail self.old }
        ensures full { (result ≡ Err CellRefusal.ClockFull)
            ↔ ((HasNoLateMail self.old → ⊥) × (left_of self.old.pass ≡ 0)) }
        ensures same { result ≡ Ok Late.NoMail → self.new ≡ self.old }
        ensures err { OnErr result (self.new ≡ self.old) }
        ensures aside { HasMoreAside self.old self.new }
    {
        if self.state.has_no_mail() {
            return Ok(Late::NoMail);
        }
        if self.pass.left() == 0 {
            return Err(CellRefusal::ClockFull);
        }
        self.journal.reserve(1)?;
        let nature = self.terms.nature();
        let lost = self.state.loses(nature);
        let act = self.state.act_late(nature)?;
        acts();
        let mut note = clock.note(&mut self.pass);
        let number = add_entry(&mut self.journal, &mut self.pass, clock, &mut note, act);
        Ok(late_told(lost, number))
    }

    /// Drops versions of a block by a stamp, and notes it in the journal under a number that is not below any that the caller
    /// has seen; where the node lies or has crashed it is skipped.
    ///
    /// The block is one of the cell's shard, and prunes may follow by the cell's charter. `ClockFull` comes exactly where the
    /// node prunes and the cell's pass has no number left.
    pub fn prune(
        &mut self,
        clock: &Clock,
        caller: &mut Pass,
        block: u32,
        stamp: &Stamp,
    ) -> Result<Pruning, CellRefusal>
        requires block { (block < self.old.charter.config.blocks)
            × (block % self.old.charter.shards ≡ self.old.charter.shard) }
        requires may { self.old.charter.prunes ≡ true }
        requires clock { self.old.charter.pass.clock ≡ clock.now }
        requires caller { caller.old.clock ≡ clock.now }
        ensures pruned { (n : ℕ) → result ≡ Ok (Pruning.Pruned n) →
            (self.new ≡ with_entry self.old n (NodeAct.Pruned block stamp.now))
            × (caller.old.seen ≤ n) × (caller.new ≡ with_seen caller.old (n + 1)) }
        ensures skipped { (result ≡ Ok Pruning.Skipped)
            ↔ (can_prune (state_of self.old) self.old.charter.nature ≡ false) }
        ensures full { (result ≡ Err CellRefusal.ClockFull)
            ↔ ((can_prune (state_of self.old) self.old.charter.nature ≡ true)
            × (left_of self.old.pass ≡ 0)) }
        ensures same { result ≡ Ok Pruning.Skipped →
            (self.new ≡ self.old) × (caller.new ≡ caller.old) }
        ensures err { OnErr result ((self.new ≡ self.old) × (caller.new ≡ caller.old)) }
    {
        if !self.state.can_prune(self.terms.nature()) {
            return Ok(Pruning::Skipped);
        }
        if self.pass.left() == 0 {
            return Err(CellRefusal::ClockFull);
        }
        self.journal.reserve(1)?;
        self.state.prune(block, stamp);
        acts();
        let act = NodeAct::Pruned {
            block,
            stamp: *stamp,
        };
        let mut note = clock.note(caller);
        let number = add_entry(&mut self.journal, &mut self.pass, clock, &mut note, act);
        clock.heed(caller, note);
        Ok(Pruning::Pruned { number })
    }

    /// Lets the cell's pass and another one see what either has seen.
    pub fn meet(&mut self, clock: &Clock, caller: &mut Pass)
        requires clock { self.old.charter.pass.clock ≡ clock.now }
        requires caller { caller.old.clock ≡ clock.now }
        ensures cell { self.new ≡ met_cell self.old caller.old }
        ensures caller { caller.new ≡ met caller.old self.old.pass }
    {
        clock.meet(&mut self.pass, caller);
    }

    /// The same cell under a new charter, by which its whole journal is its base and its pass is as it stands, and which says
    /// whether prunes may follow.
    pub fn go_on(self, prunes: bool) -> NodeCell
        ensures { result ≡ rechartered self prunes }
    {
        let NodeCell {
            terms,
            state,
            journal,
            pass,
        } = self;
        let terms = terms.next(&pass, journal.len() as u64, prunes);
        NodeCell {
            terms,
            state,
            journal,
            pass,
        }
    }

    /// What the node did, in order, and the pass, which drew the numbers.
    pub fn finish(self) -> (NodeJournal, Pass)
        ensures journal { result.0 ≡ self.journal }
        ensures pass { result.1 ≡ self.pass }
        ensures kept { KeptCell self }
    {
        let NodeCell {
            terms: _terms,
            state: _state,
            journal,
            pass,
        } = self;
        (ItemList::from_vec(journal), pass)
    }

    // How many entries its list has: the charter, and those of the journal.
    #[tactic(auto, using(crate::proofs::lemmas::Growing::length_items))]
    fn list_len(&self) -> u64
        ensures { result ≡ length (items self.now) }
    {
        self.journal.len() as u64 + 1
    }
}

// Draws a number that neither the pass nor the caller has seen, and writes down what was done then.
fn add_entry(
    journal: &mut Vec<NodeEntry>,
    pass: &mut Pass,
    clock: &Clock,
    caller: &mut Note,
    act: NodeAct,
) -> u64
    requires room { vec_len journal.old < vec_capacity journal.old }
    requires pass { pass.old.clock ≡ clock.now }
    requires caller { caller.old.clock ≡ clock.now }
    requires left { 0 < left_of pass.old }
    ensures journal { journal.new.items ≡ journal.old.items ++ entry result act ∷ [] }
    ensures pass { pass.new ≡ drew pass.old result }
    ensures caller { caller.new ≡ with_sight caller.old (result + 1) }
    ensures later { (pass.old.seen ≤ result) × (caller.old.seen ≤ result) }
{
    let before = clock.note(pass);
    clock.heed(pass, replace(caller, before));
    let number = clock.draw(pass);
    *caller = clock.note(pass);
    journal.push_reserved(NodeEntry { number, act });
    number
}

fn told(number: u64, answer: Answer) -> Told
    ensures { result ≡ told_as number answer }
{
    match answer {
        Answer::Reply(reply) => Told::Answered { number, reply },
        Answer::Nothing(why) => Told::Silent { number, why },
    }
}

fn late_told(lost: bool, number: u64) -> Late
    ensures { result ≡ (if lost then Late.Lost number else Late.Delivered number) }
{
    if lost {
        Late::Lost { number }
    } else {
        Late::Delivered { number }
    }
}

/// The shards of the cells, in their order.
pub fn shards_in(alloc: Global, cells: &[NodeCell]) -> Result<Vec<CellShard>, NoMemory>
    ensures { IfOk result (λ cell_shards. cell_shards.items ≡ cell_shards_of cells.now) }
{
    let mut cell_shards = Vec::new(alloc);
    for cell in cells {
        cell_shards.push(cell.cell_shard())?;
    }
    Ok(cell_shards)
}
