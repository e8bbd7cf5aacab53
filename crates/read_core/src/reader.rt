ghost use Rattle.std.specs.Prelude.{◌≡◌, ◌<◌, ◌-◌, ◌^◌, ◌↔◌, IsTrue, true, false, IfOk, OnOk, OnErr, IfSome, None};
ghost use Rattle.std.specs.Option.{ForSome};
ghost use Rattle.wire_forms.specs.declared.op.Op.TheVariants.{Read as ReadOp};
ghost use Rattle.protocol.specs.Seen.{has_answered, phase_of};
ghost use Rattle.operation_core.specs.Stages.{stage_of};
ghost use Rattle.operation_core.specs.Counting.{first_mail, counts_in, ends_in, hears_in, counted_in, outstanding_in, GoesOn, IsAtEnd, IsPhaseEnd};
ghost use Rattle.read_core.specs.Readers.{begun_read, read_with, next_read, TellsIn, after_hearing, IsOutvoted, EndsOutvoted, EndsPhase};
ghost use Rattle.wire_forms.specs.Firsts.{first_of};

use crate::read_end::ReadEnd;
use crate::reading::Reading;
use crate::round::end_of_round;
use lists::{Copied, NoMemory};
use operation_core::{Operation, PhaseEnd, Stage};
use quorum_rules::Config;
use run_words::{How, Outcome};
use stamp_order::Stamp;
use std::alloc::Global;
use std::marker::Model;
use wire_forms::{Mail, Message, Op, Reply, Tag};

/// A read of a block by a correct client. It asks all nodes for versions, round by round with ever lower bounds, until
/// enough nodes tell of one that is sound. If that one is stored at too few nodes, it stores it again before it gives it.
/// Contracts see the operation that it is, and how many rounds it has begun, also when it is over.
pub struct Reader {
    operation: Operation,
    /// The stamp of the cluster's first version.
    first: Stamp,
    /// How many rounds of asking for versions have begun.
    rounds: u64,
}

// By hand, since a derived drop is proved anew wherever a reader is let go.
impl Drop for Reader {
    fn drop(self) {
        let Reader {
            operation: _operation,
            first: _first,
            rounds: _rounds,
        } = self;
    }
}

impl Model for Reader {
    ghost use Rattle.read_core.specs.Readers.{SeenRead, IsReader};

    ghost Value = { SeenRead };

    ghost view = { λ r. record { operation = r.operation; rounds = r.rounds } };

    ghost invariant = { λ r. IsReader r.first r.operation r.rounds };
}

impl Reader {
    /// Begins a read of a block, the client's operation of number `op`. The messages are those of its first phase. `first` is the
    /// first stamp of the configuration.
    pub fn begin(
        alloc: Global,
        config: &Config,
        first: &Stamp,
        client: u32,
        op: u64,
        block: u32,
    ) -> Result<(Reader, Mail), NoMemory>
        requires first { first.now ≡ (first_of config.now).stamp }
        ensures reader { IfOk result (λ r. r.0 ≡ begun_read config.now client op block) }
        ensures mail { IfOk result (λ r. r.1 ≡ first_mail config.now client op (ReadOp block)) }
    {
        let read = Op::Read { block };
        let (operation, mail) = Operation::begin(alloc, config, client, op, read)?;
        let reader = Reader {
            operation,
            first: *first,
            rounds: 1,
        };
        Ok((reader, mail))
    }

    /// Hears a node's answer. It counts where it has the tag of the phase, is of the kind that the phase asks for, and is
    /// the node's first; else nothing changes. Where no memory is found nothing changes either, and the same answer may be
    /// heard again.
    pub fn hear(&mut self, node: u8, tag: Tag, reply: &Reply) -> Result<Reading, NoMemory>
        requires { ForSome self.old.operation.task (λ t. t.phase < 2 ^ 64 - 1) }
        ensures reading { IfOk result (TellsIn self.old.operation
            (hears_in self.old.operation node tag reply.now)) }
        ensures outvoted { IfOk result (λ reading. IsOutvoted reading
            ↔ EndsOutvoted self.old.operation.config self.old.operation.task node tag reply.now) }
        ensures after { OnOk result (self.new
            ≡ after_hearing self.old (hears_in self.old.operation node tag reply.now)) }
        ensures err { OnErr result (self.new ≡ self.old) }
    {
        if self.operation.ends_phase(node, tag, reply) {
            return self.end_by(node, tag, reply);
        }
        if self.operation.counts(node, tag, reply) {
            let reply = reply.copy()?;
            self.operation.count(node, tag, reply);
        }
        Ok(Reading::More)
    }

    /// What the present phase comes to with an answer that ends it. It takes all memory that is needed, and changes nothing.
    pub fn phase_end(&self, node: u8, tag: Tag, reply: &Reply) -> Result<PhaseEnd, NoMemory>
        requires ends { ends_in self.now.operation node tag reply.now ≡ true }
        requires phase { ForSome self.now.operation.task (λ t. t.phase < 2 ^ 64 - 1) }
        ensures { IfOk result (IsPhaseEnd self.now.operation
            (hears_in self.now.operation node tag reply.now)) }
    {
        match self.decided(node, tag, reply)? {
            ReadEnd::Outvoted(nodes) => Ok(PhaseEnd::Ends(Outcome::Outvoted(nodes))),
            ReadEnd::Gives { stamp, value, how } => Ok(PhaseEnd::Ends(Outcome::Gave {
                stamp,
                value,
                how,
                rounds: self.rounds,
            })),
            ReadEnd::GoesOn(stage) => {
                let mail = self.operation.mail_of(&stage)?;
                Ok(PhaseEnd::Begins(stage, mail))
            }
        }
    }

    /// Begins the next phase, as an answer that ends the present one has it. It takes no memory.
    pub fn go_on(&mut self, stage: Stage)
        requires { GoesOn self.old.operation stage }
        ensures { self.new ≡ next_read self.old (stage_of stage) }
    {
        self.operation.go_on(stage);
        self.rounds = self.operation.rounds();
    }

    /// Ends the read, as an answer that ends the present phase has it. It takes no memory.
    pub fn end(&mut self)
        requires { IsAtEnd self.old.operation }
        ensures { self.new ≡ read_with self.old None }
    {
        self.operation.end();
    }

    // Ends the phase with its last answer: by a next one, or with the read.
    fn end_by(&mut self, node: u8, tag: Tag, reply: &Reply) -> Result<Reading, NoMemory>
        requires ends { ends_in self.old.operation node tag reply.now ≡ true }
        requires phase { ForSome self.old.operation.task (λ t. t.phase < 2 ^ 64 - 1) }
        ensures reading { IfOk result (TellsIn self.old.operation
            (hears_in self.old.operation node tag reply.now)) }
        ensures after { OnOk result (self.new
            ≡ after_hearing self.old (hears_in self.old.operation node tag reply.now)) }
        ensures err { OnErr result (self.new ≡ self.old) }
    {
        match self.decided(node, tag, reply)? {
            ReadEnd::Outvoted(nodes) => {
                self.end();
                Ok(Reading::Outvoted(nodes))
            }
            ReadEnd::Gives { stamp, value, how } => {
                self.end();
                Ok(Reading::Got { stamp, value, how })
            }
            ReadEnd::GoesOn(stage) => {
                let mail = self.operation.mail_of(&stage)?;
                self.go_on(stage);
                Ok(Reading::Send(mail))
            }
        }
    }

    // What the phase comes to with this answer, which ends it.
    fn decided(&self, node: u8, tag: Tag, reply: &Reply) -> Result<ReadEnd, NoMemory>
        requires { ends_in self.now.operation node tag reply.now ≡ true }
        ensures { IfOk result (EndsPhase (counted_in self.now.operation node reply.now)) }
    {
        let operation = &self.operation;
        match operation.stage() {
            Some(Stage::Versions(bound)) => end_of_round(
                operation.allocator(),
                operation.config(),
                &self.first,
                bound,
                operation.answers_with(node, tag, reply)?.as_slice(),
            ),
            Some(Stage::Storing(storing)) => Ok(ReadEnd::Gives {
                stamp: storing.stamp,
                value: storing.value.copy()?,
                how: How::Repaired,
            }),
            Some(Stage::Times) | None => unreachable!(),
        }
    }

    /// Whether a node's answer is one that the present phase counts.
    pub fn counts(&self, node: u8, tag: Tag, reply: &Reply) -> bool
        ensures { result ≡ counts_in self.now.operation node tag reply.now }
    {
        self.operation.counts(node, tag, reply)
    }

    /// Whether a node's answer with this tag ends the present phase: the phase counts it, and then waits for no other.
    pub fn ends_phase(&self, node: u8, tag: Tag, reply: &Reply) -> bool
        ensures { result ≡ ends_in self.now.operation node tag reply.now }
    {
        self.operation.ends_phase(node, tag, reply)
    }

    /// Counts an answer that doesn't end the present phase. It takes no memory.
    pub fn count(&mut self, node: u8, tag: Tag, reply: Reply)
        requires counts { counts_in self.old.operation node tag reply ≡ true }
        requires goes_on { ends_in self.old.operation node tag reply ≡ false }
        ensures { self.new ≡ after_hearing self.old (hears_in self.old.operation node tag reply) }
    {
        self.operation.count(node, tag, reply);
    }

    /// The operation that the read is.
    pub fn operation(&self) -> &Operation
        ensures { result.now ≡ self.now.operation }
    {
        &self.operation
    }

    /// Whether the node's answer was counted in the present phase.
    pub fn has_answered(&self, node: u8) -> bool
        ensures { result ≡ has_answered self.now.operation.task node }
    {
        self.operation.has_answered(node)
    }

    /// The present phase's message to a node. There is none exactly where the read is over or there is no such node.
    pub fn outstanding(&self, node: u8) -> Result<Option<Message>, NoMemory>
        ensures { IfOk result (λ message. message ≡ outstanding_in self.now.operation node) }
    {
        self.operation.outstanding(node)
    }

    /// Whether the read has ended.
    pub fn is_over(&self) -> bool
        ensures { IsTrue result ↔ (self.now.operation.task ≡ None) }
    {
        self.operation.is_over()
    }

    /// The block that is read.
    pub fn block(&self) -> u32
        ensures { IfSome self.now.operation.task (λ t. result ≡ t.block) }
    {
        self.operation.block()
    }

    /// The number of the present phase, from 1 on, or 0 where the read is over.
    pub fn phase(&self) -> u64
        ensures { result ≡ phase_of self.now.operation.task }
    {
        self.operation.phase()
    }

    /// How many rounds of asking for versions have begun, also when the read is over.
    pub fn rounds(&self) -> u64
        ensures { result ≡ self.now.rounds }
    {
        self.rounds
    }
}

impl Copied for Reader {
    fn copy(&self) -> Result<Reader, NoMemory> {
        Ok(Reader {
            operation: self.operation.copy()?,
            first: self.first,
            rounds: self.rounds,
        })
    }
}
