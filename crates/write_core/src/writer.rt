ghost use Rattle.std.specs.Prelude.{◌≡◌, ◌<◌, ◌↔◌, true, false, IsTrue, IsSome, IsSomeAnd, IfSome, IfOk, OnOk, OnErr, Some, None};
ghost use Rattle.wire_forms.specs.declared.op.Op.TheVariants.{Write as WriteOp};
ghost use Rattle.protocol.specs.Operations.{value_of};
ghost use Rattle.protocol.specs.Operations.Stage.{Times};
ghost use Rattle.protocol.specs.Seen.{Hearing, with_task, has_answered, phase_of, chosen_of};
ghost use Rattle.operation_core.specs.Stages.{stage_of, IsEncoded};
ghost use Rattle.operation_core.specs.Counting.{begun_in, first_mail, counts_in, ends_in, hears_in, next_in, outstanding_in, AnswerDoes, GoesOn, IsAtEnd, IsPhaseEnd};
ghost use Rattle.write_core.specs.declared.writer.Writing.TheVariants.{More, Spent};
ghost use Rattle.write_core.specs.Writers.{after_hearing, said_of, ended_as, FindsLastTime, IsUnder};
ghost use Rattle.write_core.specs.Made.{IsMadeFor};

use crate::encoding::encoded;
use crate::times::drawn;
use cross_sum::Bytes;
use frag_check::Summed;
use lists::{Copied, NoMemory};
use operation_core::{Operation, PhaseEnd, Stage, Storing};
use quorum_rules::Config;
use run_words::Outcome;
use stamp_order::Stamp;
use std::alloc::Global;
use std::marker::Model;
use wire_forms::{Mail, Message, Op, Reply, Tag};

/// What a writer says to an answer.
#[derive(Drop)]
pub enum Writing {
    /// The phase goes on.
    More,
    /// The next phase begins with these messages, one to each node in order.
    Send(Mail),
    /// The value is stored under this stamp.
    Wrote(Stamp),
    /// There is no time after the one that was drawn.
    Spent,
}

/// A write of a client. Contracts see the cluster's numbers, the client, and the task while it isn't over.
pub struct Writer {
    operation: Operation,
    /// The value's fragments and its cross checksum, where they were made before the phase that stores them.
    made: Option<Summed>,
}

// By hand, since a derived drop is proved anew wherever a writer is let go.
impl Drop for Writer {
    fn drop(self) {
        let Writer {
            operation: _operation,
            made: _made,
        } = self;
    }
}

impl Model for Writer {
    ghost use Rattle.protocol.specs.Seen.{SeenOperation};
    ghost use Rattle.write_core.specs.Made.{IsWriting};

    ghost Value = { SeenOperation };

    ghost view = { λ w. w.operation };

    ghost invariant = { λ w. IsWriting w.operation w.made };
}

impl Writer {
    /// Begins a write, with the messages that ask all nodes for their times.
    pub fn begin(
        alloc: Global,
        config: &Config,
        client: u32,
        op: u64,
        block: u32,
        value: &Bytes,
    ) -> Result<(Writer, Mail), NoMemory>
        ensures writer { IfOk result (λ r. r.0
            ≡ begun_in config.now client op (WriteOp block value.now)) }
        ensures mail { IfOk result (λ r. r.1
            ≡ first_mail config.now client op (WriteOp block value.now)) }
    {
        let write = Op::Write {
            block,
            value: value.copy()?,
        };
        let (operation, mail) = Operation::begin(alloc, config, client, op, write)?;
        let made = None;
        Ok((Writer { operation, made }, mail))
    }

    /// Hears a node's answer: it is counted if it is the node's first of the present phase, and the phase ends when as many
    /// nodes have answered as aren't faulty.
    pub fn hear(&mut self, node: u8, tag: Tag, reply: &Reply) -> Result<Writing, NoMemory>
        requires { IsSome self.old.task }
        ensures said { IfOk result (λ said. said
            ≡ said_of self.old (hears_in self.old node tag reply.now)) }
        ensures more { IfOk result (λ said. (said ≡ More)
            ↔ (ends_in self.old node tag reply.now ≡ false)) }
        ensures spent { IfOk result (λ said. (said ≡ Spent)
            ↔ FindsLastTime self.old.config self.old.task node tag reply.now) }
        ensures ok { OnOk result (self.new
            ≡ after_hearing self.old (hears_in self.old node tag reply.now)) }
        ensures err { OnErr result (self.new ≡ self.old) }
    {
        if self.operation.ends_phase(node, tag, reply) {
            let end = self.phase_end(node, tag, reply)?;
            return Ok(self.enter(end));
        }
        if self.counts(node, tag, reply) {
            let reply = reply.copy()?;
            self.count(node, tag, reply);
        }
        Ok(Writing::More)
    }

    /// Whether the present phase counts a node's answer with this tag.
    pub fn counts(&self, node: u8, tag: Tag, reply: &Reply) -> bool
        ensures { IsTrue result ↔ (counts_in self.now node tag reply.now ≡ true) }
    {
        self.operation.counts(node, tag, reply)
    }

    /// Whether a node's answer with this tag ends the present phase: the phase counts it, and then waits for no other.
    pub fn ends_phase(&self, node: u8, tag: Tag, reply: &Reply) -> bool
        ensures { result ≡ ends_in self.now node tag reply.now }
    {
        self.operation.ends_phase(node, tag, reply)
    }

    /// Counts an answer that doesn't end the present phase. It takes no memory.
    pub fn count(&mut self, node: u8, tag: Tag, reply: Reply)
        requires counts { counts_in self.old node tag reply ≡ true }
        requires goes_on { ends_in self.old node tag reply ≡ false }
        ensures { self.new ≡ after_hearing self.old (hears_in self.old node tag reply) }
    {
        self.operation.count(node, tag, reply);
    }

    /// What the present phase comes to with an answer that ends it: a stamp that is chosen is stored; else the next time is
    /// drawn, if there is one. It takes all memory that is needed, and changes nothing.
    pub fn phase_end(&self, node: u8, tag: Tag, reply: &Reply) -> Result<PhaseEnd, NoMemory>
        requires { ends_in self.now node tag reply.now ≡ true }
        ensures { IfOk result (IsPhaseEnd self.now (hears_in self.now node tag reply.now)) }
    {
        match self.operation.chosen_stamp() {
            Some(stamp) => Ok(PhaseEnd::Ends(Outcome::Wrote(stamp))),
            None => self.drawn_end(node, tag, reply),
        }
    }

    /// Begins the next phase, as an answer that ends the present one has it. It takes no memory.
    pub fn go_on(&mut self, stage: Stage)
        requires { GoesOn self.old stage }
        ensures { self.new ≡ next_in self.old (stage_of stage) }
    {
        self.operation.go_on(stage);
        self.made = None;
    }

    /// The value whose fragments are made when the present phase ends: none where the phase doesn't ask for times, or they
    /// were made already.
    pub fn value_to_encode(&self) -> Option<&Bytes>
        ensures { IfSome result (λ value. IsSomeAnd self.now.task
            (λ t. (t.stage ≡ Times) × (value.now ≡ value_of t.work))) }
    {
        if self.made.is_some() {
            return None;
        }
        match (self.operation.stage(), self.operation.op()) {
            (Some(Stage::Times), Op::Write { value, .. }) => Some(value),
            _ => None,
        }
    }

    /// Keeps the fragments of the value and its cross checksum, so that they aren't made when the present phase ends.
    pub fn keep_made(&mut self, made: Summed)
        requires { IsMadeFor self.old made }
        ensures { self.new ≡ self.old }
    {
        self.made = Some(made);
    }

    /// Ends the write, as an answer that ends the present phase has it. It takes no memory.
    pub fn end(&mut self)
        requires { IsAtEnd self.old }
        ensures { self.new ≡ with_task self.old None }
    {
        self.operation.end();
        self.made = None;
    }

    /// The operation that the write is.
    pub fn operation(&self) -> &Operation
        ensures { result.now ≡ self.now }
    {
        &self.operation
    }

    /// Whether the write is over.
    pub fn is_over(&self) -> bool
        ensures { IsTrue result ↔ (self.now.task ≡ None) }
    {
        self.operation.is_over()
    }

    /// The number of the present phase, or 0 where the write is over.
    pub fn phase(&self) -> u64
        ensures { result ≡ phase_of self.now.task }
    {
        self.operation.phase()
    }

    /// The present phase's message to a node: none where the write is over or there is no such node.
    pub fn outstanding(&self, node: u8) -> Result<Option<Message>, NoMemory>
        ensures { IfOk result (λ m. m ≡ outstanding_in self.now node) }
    {
        self.operation.outstanding(node)
    }

    /// Whether the present phase has counted an answer of this node.
    pub fn has_answered(&self, node: u8) -> bool
        ensures { result ≡ has_answered self.now.task node }
    {
        self.operation.has_answered(node)
    }

    /// The stamp under which the value is being stored: none where it isn't chosen yet, or the write is over.
    pub fn chosen_stamp(&self) -> Option<Stamp>
        ensures { result ≡ chosen_of self.now.task }
    {
        self.operation.chosen_stamp()
    }

    /// The block that is written.
    pub fn block(&self) -> u32
        ensures { IfSome self.now.task (λ t. result ≡ t.block) }
    {
        self.operation.block()
    }

    /// Does what the phase comes to with an answer that ends it, and says it.
    fn enter(&mut self, end: PhaseEnd) -> Writing
        requires { (h : Hearing) × AnswerDoes self.old h × IsPhaseEnd self.old h end }
        ensures said { (h : Hearing) → IsPhaseEnd self.old h end → result ≡ said_of self.old h }
        ensures new { (h : Hearing) → IsPhaseEnd self.old h end
            → self.new ≡ after_hearing self.old h }
    {
        match end {
            PhaseEnd::Begins(stage, mail) => {
                self.go_on(stage);
                Writing::Send(mail)
            }
            PhaseEnd::Ends(outcome) => {
                self.end();
                ended_as(&outcome)
            }
        }
    }

    /// Draws the next time, for a phase that asks for times and ends with this answer.
    fn drawn_end(&self, node: u8, tag: Tag, reply: &Reply) -> Result<PhaseEnd, NoMemory>
        requires ends { ends_in self.now node tag reply.now ≡ true }
        requires asks { IsSomeAnd self.now.task (λ t. t.stage ≡ Times) }
        ensures { IfOk result (IsPhaseEnd self.now (hears_in self.now node tag reply.now)) }
    {
        let answers = self.operation.answers_with(node, tag, reply)?;
        let time = drawn(answers.as_slice(), self.operation.config().b() as usize + 1);
        if time == u64::MAX {
            return Ok(PhaseEnd::Ends(Outcome::Spent));
        }
        let stage = Stage::Storing(self.storing_under(time + 1)?);
        let mail = self.operation.mail_of(&stage)?;
        Ok(PhaseEnd::Begins(stage, mail))
    }

    /// The value, encoded, under this time.
    fn storing_under(&self, time: u64) -> Result<Storing, NoMemory>
        requires { IsSome self.now.task }
        ensures stored { IfOk result (λ storing. IsUnder self.now time storing) }
        ensures encoded { IfOk result (λ storing. IsEncoded self.now.config storing) }
    {
        let operation = &self.operation;
        match operation.op() {
            Op::Write { value, .. } => encoded(
                operation.allocator(),
                operation.config(),
                operation.client(),
                time,
                value,
                &self.made,
            ),
            Op::Read { .. } => unreachable!(),
        }
    }
}

/// How a writer tells that its write has ended.
fn ended_as(outcome: &Outcome) -> Writing
    ensures { result ≡ ended_as outcome.now }
{
    match outcome {
        Outcome::Wrote(stamp) => Writing::Wrote(*stamp),
        Outcome::Spent => Writing::Spent,
        // A write ends in no other way.
        Outcome::Gave { .. } | Outcome::Outvoted(_) => Writing::More,
    }
}

impl Copied for Writer {
    fn copy(&self) -> Result<Writer, NoMemory> {
        Ok(Writer {
            operation: self.operation.copy()?,
            made: None,
        })
    }
}
