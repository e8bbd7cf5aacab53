ghost use Rattle.std.specs.Prelude.{◌≡◌, ◌<◌, ◌↔◌, true, false, length, option_copied, IsTrue, IfSome, IfOk, Some, None};
ghost use Rattle.quorum_rules.specs.Limits.{IsValid};
ghost use Rattle.protocol.specs.Seen.{work_of, with_task, has_answered, phase_of, chosen_of, seen_counted};
ghost use Rattle.operation_core.specs.Stages.{stage_of};
ghost use Rattle.operation_core.specs.Counting.{begun_in, first_mail, counts_in, ends_in, outstanding_in, counted_in, next_in, rounds_of, MayBegin, GoesOn, IsAtEnd, IsMail, IsStage};

use crate::answers::{clear, copied, is_kept, no_answers};
use crate::mailing::{Head, mail, message};
use crate::stage::Stage;
use lists::{Copied, NoMemory};
use quorum_rules::Config;
use stamp_order::{Bound, Stamp};
use std::alloc::Global;
use std::marker::Model;
use wire_forms::{Mail, Message, Op, Reply, Tag};

/// An operation of a client: its present phase, and the answers that the phase has counted. Contracts see the cluster's
/// numbers, the client, and the task while the operation isn't over.
pub struct Operation {
    config: Config,
    client: u32,
    number: u64,
    op: Op,
    phase: u64,
    rounds: u64,
    /// None once the operation is over.
    stage: Option<Stage>,
    /// For each node its answer, if the phase counted one.
    answers: Vec<Option<Reply>>,
    /// How many nodes have answered.
    heard: u32,
}

// By hand, since a derived drop is proved anew wherever an operation is let go.
impl Drop for Operation {
    fn drop(self) {
        let Operation {
            config: _config,
            client: _client,
            number: _number,
            op: _op,
            phase: _phase,
            rounds: _rounds,
            stage: _stage,
            answers: _answers,
            heard: _heard,
        } = self;
    }
}

impl Model for Operation {
    ghost use Rattle.protocol.specs.Seen.{SeenOperation};
    ghost use Rattle.operation_core.specs.Counting.{task_in, IsOperation};

    ghost Value = { SeenOperation };

    ghost view = { λ o. record { config = o.config; client = o.client; task = task_in o.number o.op o.phase o.rounds o.stage o.answers.items } };

    ghost invariant = { λ o. IsOperation o.config o.phase o.rounds o.stage o.answers.items o.heard };
}

impl Operation {
    /// Begins an operation, the client's of this number, with the messages of its first phase.
    pub fn begin(
        alloc: Global,
        config: &Config,
        client: u32,
        number: u64,
        op: Op,
    ) -> Result<(Operation, Mail), NoMemory>
        ensures operation { IfOk result (λ r. r.0 ≡ begun_in config.now client number op) }
        ensures mail { IfOk result (λ r. r.1 ≡ first_mail config.now client number op) }
        ensures valid { IfOk result (λ _. IsValid config.now) }
    {
        let (stage, rounds, block) = match &op {
            Op::Read { block } => (Stage::Versions(Bound::All), 1, *block),
            Op::Write { block, .. } => (Stage::Times, 0, *block),
        };
        let head = Head {
            client,
            tag: Tag {
                op: number,
                phase: 1,
            },
            block,
        };
        let mail = mail(alloc, config, head, &stage)?;
        let operation = Operation {
            config: *config,
            client,
            number,
            op,
            phase: 1,
            rounds,
            stage: Some(stage),
            answers: no_answers(alloc, config.n())?,
            heard: 0,
        };
        Ok((operation, mail))
    }

    /// Whether the present phase counts a node's answer with this tag.
    pub fn counts(&self, node: u8, tag: Tag, reply: &Reply) -> bool
        ensures { result ≡ counts_in self.now node tag reply.now }
    {
        let Some(stage) = &self.stage else {
            return false;
        };
        tag.op == self.number
            && tag.phase == self.phase
            && u32::from(node) < self.config.n()
            && stage.counts(reply)
            && !is_kept(self.answers.as_slice(), node)
    }

    /// Whether a node's answer with this tag ends the present phase: the phase counts it, and then waits for no other.
    pub fn ends_phase(&self, node: u8, tag: Tag, reply: &Reply) -> bool
        ensures { result ≡ ends_in self.now node tag reply.now }
    {
        self.counts(node, tag, reply) && self.heard + 1 >= self.config.wait()
    }

    /// Counts an answer that doesn't end the present phase. It takes no memory.
    pub fn count(&mut self, node: u8, tag: Tag, reply: Reply)
        requires counts { counts_in self.old node tag reply ≡ true }
        requires goes_on { ends_in self.old node tag reply ≡ false }
        ensures { self.new ≡ counted_in self.old node reply }
    {
        self.answers[usize::from(node)] = Some(reply);
        self.heard += 1;
    }

    /// The answers that the present phase has counted, with this one, which ends it.
    pub fn answers_with(
        &self,
        node: u8,
        tag: Tag,
        reply: &Reply,
    ) -> Result<Vec<Option<Reply>>, NoMemory>
        requires { ends_in self.now node tag reply.now ≡ true }
        ensures answers { IfOk result (λ answers. IfSome self.now.task
            (λ t. answers.items ≡ (seen_counted t node reply.now).answers)) }
        ensures places { IfOk result (λ answers. length answers.items ≡ self.now.config.n) }
    {
        let mut answers = copied(&self.answers)?;
        answers[usize::from(node)] = Some(reply.copy()?);
        Ok(answers)
    }

    /// The messages of a next phase in this stage.
    pub fn mail_of(&self, stage: &Stage) -> Result<Mail, NoMemory>
        requires { MayBegin self.now stage.now }
        ensures { IfOk result (IsMail (next_in self.now (stage_of stage.now))) }
    {
        let head = Head {
            client: self.client,
            tag: Tag {
                op: self.number,
                phase: self.phase + 1,
            },
            block: self.block(),
        };
        mail(*self.answers.allocator(), &self.config, head, stage)
    }

    /// Begins the next phase, as an answer that ends the present one has it. It takes no memory.
    pub fn go_on(&mut self, stage: Stage)
        requires { GoesOn self.old stage }
        ensures { self.new ≡ next_in self.old (stage_of stage) }
    {
        self.phase += 1;
        self.rounds = stage.rounds_after(self.rounds);
        self.stage = Some(stage);
        clear(&mut self.answers);
        self.heard = 0;
    }

    /// Ends the operation, as an answer that ends the present phase has it.
    pub fn end(&mut self)
        requires { IsAtEnd self.old }
        ensures { self.new ≡ with_task self.old None }
    {
        self.stage = None;
    }

    /// Whether the operation is over.
    pub fn is_over(&self) -> bool
        ensures { IsTrue result ↔ (self.now.task ≡ None) }
    {
        self.stage.is_none()
    }

    /// The cluster that it takes place in.
    pub fn config(&self) -> &Config
        ensures { result.now ≡ self.now.config }
    {
        &self.config
    }

    /// The client whose operation it is.
    pub fn client(&self) -> u32
        ensures { result ≡ self.now.client }
    {
        self.client
    }

    /// What is to be done.
    pub fn op(&self) -> &Op
        ensures { IfSome self.now.task (λ t. t.work ≡ work_of result.now) }
    {
        &self.op
    }

    /// The block that it is on.
    pub fn block(&self) -> u32
        ensures { IfSome self.now.task (λ t. result ≡ t.block) }
    {
        match &self.op {
            Op::Read { block } => *block,
            Op::Write { block, .. } => *block,
        }
    }

    /// The number of the present phase, from 1 on, or 0 where the operation is over.
    pub fn phase(&self) -> u64
        ensures { result ≡ phase_of self.now.task }
    {
        if self.stage.is_some() { self.phase } else { 0 }
    }

    /// How many rounds of asking for versions have begun, or 0 where the operation is over.
    pub fn rounds(&self) -> u64
        ensures { result ≡ rounds_of self.now.task }
    {
        if self.stage.is_some() { self.rounds } else { 0 }
    }

    /// What the present phase asks for: none where the operation is over.
    pub fn stage(&self) -> Option<&Stage>
        ensures { IsStage self.now.task (option_copied result) }
    {
        self.stage.as_ref()
    }

    /// For each node its answer, if the present phase counted one.
    pub fn answers(&self) -> &[Option<Reply>]
        ensures answers { IfSome self.now.task (λ t. result.now ≡ t.answers) }
        ensures places { length result.now ≡ self.now.config.n }
    {
        self.answers.as_slice()
    }

    /// Where the operation takes its memory from.
    pub fn allocator(&self) -> Global {
        *self.answers.allocator()
    }

    /// Whether the present phase has counted an answer of this node.
    pub fn has_answered(&self, node: u8) -> bool
        ensures { result ≡ has_answered self.now.task node }
    {
        self.stage.is_some() && is_kept(self.answers.as_slice(), node)
    }

    /// The stamp under which a value that is written is being stored: none where it isn't chosen yet, or there is no write
    /// under way.
    pub fn chosen_stamp(&self) -> Option<Stamp>
        ensures { result ≡ chosen_of self.now.task }
    {
        match (&self.op, &self.stage) {
            (Op::Write { .. }, Some(Stage::Storing(storing))) => Some(storing.stamp),
            _ => None,
        }
    }

    /// The present phase's message to a node: none where the operation is over or there is no such node.
    pub fn outstanding(&self, node: u8) -> Result<Option<Message>, NoMemory>
        ensures { IfOk result (λ m. m ≡ outstanding_in self.now node) }
    {
        let Some(stage) = &self.stage else {
            return Ok(None);
        };
        if u32::from(node) >= self.config.n() {
            return Ok(None);
        }
        let head = Head {
            client: self.client,
            tag: Tag {
                op: self.number,
                phase: self.phase,
            },
            block: self.block(),
        };
        Ok(Some(message(&self.config, head, stage, node)?))
    }
}

impl Copied for Operation {
    fn copy(&self) -> Result<Operation, NoMemory> {
        let stage = match &self.stage {
            Some(stage) => Some(stage.copy()?),
            None => None,
        };
        Ok(Operation {
            config: self.config,
            client: self.client,
            number: self.number,
            op: self.op.copy()?,
            phase: self.phase,
            rounds: self.rounds,
            stage,
            answers: copied(&self.answers)?,
            heard: self.heard,
        })
    }
}
