ghost use Rattle.std.specs.Prelude.{◌≡◌, ◌↔◌, ◌<◌, ◌-◌, ◌^◌, IsTrue, MatchOption, IfOk, IfSome, IsSomeAnd, OnOk, OnErr, Some, None, true};
ghost use Rattle.protocol.specs.Seen.{ops_of, block_of, work_of, has_answered, phase_of, chosen_of};
ghost use Rattle.protocol.specs.Operations.{value_of};
ghost use Rattle.protocol.specs.Operations.Stage.{Times};
ghost use Rattle.protocol.specs.World.{Fits};
ghost use Rattle.protocol.specs.Instance.{setting};
ghost use Rattle.wire_forms.specs.Firsts.{first_of};
ghost use Rattle.operation_core.specs.Counting.{begun_task, first_mail, ends_in, outstanding_in, GoesOn, IsAtEnd, IsPhaseEnd};
ghost use Rattle.write_core.specs.Made.{IsMadeFor};
ghost use Rattle.client_core.specs.Works.{HasBegun};
ghost use Rattle.operation_core.specs.Clients.{hears, with_task, with_started, started};
ghost use Rattle.client_core.specs.Clients.{operation_of, idle_client, hears_answer, next_of, mail_of, is_only_counted, goes_to, IsStep, IsHeard};

use crate::heard::Heard;
use crate::step::Step;
use cross_sum::Bytes;
use frag_check::Summed;
use lists::{Copied, NoMemory};
use operation_core::{Operation, PhaseEnd, Stage};
use quorum_rules::Config;
use read_core::Reader;
use stamp_order::Stamp;
use std::alloc::Global;
use std::marker::Model;
use wire_forms::{Body, First, Mail, Message, Op, Reply, Tag};
use write_core::Writer;

/// How many numbers the operations of one life have.
const LIFE: u64 = 4_294_967_296;

/// What a client does.
#[derive(Drop)]
enum Work {
    Idle,
    Writing(Writer),
    Reading(Reader),
}

/// A correct client. It runs one operation at a time. Contracts see the cluster's numbers, the client's own number, and
/// what it does.
pub struct Client {
    alloc: Global,
    config: Config,
    /// The stamp of the first version in the cluster.
    first: Stamp,
    id: u32,
    /// How often it came back.
    life: u32,
    /// How many operations it has started since then.
    started: u32,
    work: Work,
}

impl Drop for Client {
    fn drop(self) {
        let Client {
            alloc: _alloc,
            config: _config,
            first: _first,
            id: _id,
            life: _life,
            started: _started,
            work: _work,
        } = self;
    }
}

impl Model for Client {
    ghost use Rattle.operation_core.specs.Clients.{ClientView};
    ghost use Rattle.operation_core.specs.Counting.{begun_task, first_mail, outstanding_in};
    ghost use Rattle.client_core.specs.Works.{task_of, IsClient};

    ghost Value = { ClientView };

    ghost view = { λ c. record { config = c.config; id = c.id; seen = record { life = c.life; started = c.started; task = task_of c.work } } };

    ghost invariant = { λ c. IsClient c.config c.first c.id c.life c.started c.work };
}

impl Client {
    /// A client before its first operation.
    pub fn new(alloc: Global, config: &Config, id: u32) -> Result<Client, NoMemory>
        ensures { IfOk result (λ c. c ≡ idle_client config.now id 0) }
    {
        Client::again(alloc, config, id, 0)
    }

    /// A client that comes back: idle, in its next life.
    pub fn again(alloc: Global, config: &Config, id: u32, life: u32) -> Result<Client, NoMemory>
        ensures { IfOk result (λ c. c ≡ idle_client config.now id life) }
    {
        Ok(Client {
            alloc,
            config: *config,
            first: First::of(alloc, config)?.stamp,
            id,
            life,
            started: 0,
            work: Work::Idle,
        })
    }

    /// An idle client of the same cluster, in this life. It needs no memory, and the stamp of the first version isn't computed
    /// again.
    pub fn sibling(&self, id: u32, life: u32) -> Client
        ensures { result ≡ idle_client self.now.config id life }
    {
        Client {
            alloc: self.alloc,
            config: self.config,
            first: self.first,
            id,
            life,
            started: 0,
            work: Work::Idle,
        }
    }

    /// Starts an operation. The messages are those of its first phase.
    pub fn start(&mut self, op: &Op) -> Result<Mail, NoMemory>
        requires idle { self.now.seen.task ≡ None }
        requires block { block_of op.now < self.now.config.blocks }
        requires fits { Fits (setting self.now.config) (work_of op.now) }
        requires fresh { self.now.seen.started < 2 ^ 32 - 1 }
        ensures mail { IfOk result (λ mail. mail ≡ mail_of self.old (started self.old op.now)) }
        ensures ok { OnOk result (self.new ≡ with_started self.old (started self.old op.now)) }
        ensures err { OnErr result (self.new ≡ self.old) }
    {
        let number = self.ops() + 1;
        let (work, mail) = begin(self.alloc, &self.config, &self.first, self.id, number, op)?;
        self.started += 1;
        self.work = work;
        Ok(mail)
    }

    /// Hears a message. It changes something only where it is an answer to this client that the phase under way counts.
    /// Where no memory is found nothing changes either, and the same message may be heard again.
    pub fn hear(&mut self, message: &Message) -> Result<Heard, NoMemory>
        requires { phase_of self.now.seen.task < 2 ^ 64 - 1 }
        ensures ok { IfOk result (IsHeard self.old self.new message.now) }
        ensures err { OnErr result (self.new ≡ self.old) }
    {
        match self.prepare(message)? {
            Step::Ignored => Ok(Heard::Unchanged),
            Step::Counts { node, tag, reply } => {
                self.count(node, tag, reply);
                Ok(Heard::More)
            }
            Step::EndsPhase(PhaseEnd::Begins(stage, mail)) => {
                self.go_on(stage);
                Ok(Heard::Send(mail))
            }
            Step::EndsPhase(PhaseEnd::Ends(outcome)) => {
                self.end();
                Ok(Heard::Ended(outcome))
            }
        }
    }

    /// What a message would do to the client. It takes all memory that this needs, and changes nothing: `count`, `go_on` and
    /// `end` do it.
    pub fn prepare(&self, message: &Message) -> Result<Step, NoMemory>
        requires { phase_of self.now.seen.task < 2 ^ 64 - 1 }
        ensures { IfOk result (IsStep self.now
            (hears self.now self.now.seen.task message.now)) }
    {
        match &message.body {
            Body::Answer(reply) if message.client == self.id => {
                self.step_by(message.node, message.tag, reply)
            }
            _ => Ok(Step::Ignored),
        }
    }

    /// Hears an answer that is only counted.
    pub fn count(&mut self, node: u8, tag: Tag, reply: Reply)
        requires { is_only_counted (hears_answer self.old node tag reply) ≡ true }
        ensures { self.new ≡ with_task self.old (goes_to (hears_answer self.old node tag reply)) }
    {
        match &mut self.work {
            Work::Idle => {}
            Work::Writing(writer) => writer.count(node, tag, reply),
            Work::Reading(reader) => reader.count(node, tag, reply),
        }
    }

    /// Begins the next phase of the operation under way, as an answer that ends the present phase has it.
    pub fn go_on(&mut self, stage: Stage)
        requires { GoesOn (operation_of self.old) stage }
        ensures { self.new ≡ with_task self.old (next_of self.old stage) }
    {
        match &mut self.work {
            Work::Idle => {}
            Work::Writing(writer) => writer.go_on(stage),
            Work::Reading(reader) => reader.go_on(stage),
        }
    }

    /// Ends the operation under way, as an answer that ends the present phase has it.
    pub fn end(&mut self)
        requires { IsAtEnd (operation_of self.old) }
        ensures { self.new ≡ with_task self.old None }
    {
        self.work = Work::Idle;
    }

    /// The value whose fragments are made when the present phase ends: none where no write is under way, its phase doesn't ask
    /// for times, or they were made already.
    pub fn value_to_encode(&self) -> Option<&Bytes>
        ensures { IfSome result (λ value. IsSomeAnd self.now.seen.task
            (λ t. (t.stage ≡ Times) × (value.now ≡ value_of t.work))) }
    {
        match &self.work {
            Work::Writing(writer) => writer.value_to_encode(),
            Work::Idle | Work::Reading(_) => None,
        }
    }

    /// Keeps the fragments of the value that is being written and its cross checksum, so that they aren't made when the present
    /// phase ends.
    pub fn keep_made(&mut self, made: Summed)
        requires { IsMadeFor (operation_of self.old) made }
        ensures { self.new ≡ self.old }
    {
        if let Work::Writing(writer) = &mut self.work {
            writer.keep_made(made);
        }
    }

    /// The present phase's message to the node; None exactly where the client is idle or there is no such node.
    pub fn outstanding(&self, node: u8) -> Result<Option<Message>, NoMemory>
        ensures { IfOk result (λ message. message ≡ outstanding_in (operation_of self.now) node) }
    {
        match self.operation() {
            Some(operation) => operation.outstanding(node),
            None => Ok(None),
        }
    }

    /// Whether the node has answered the phase under way.
    pub fn answered(&self, node: u8) -> bool
        ensures { result ≡ has_answered self.now.seen.task node }
    {
        match self.operation() {
            Some(operation) => operation.has_answered(node),
            None => false,
        }
    }

    /// Whether no operation is under way.
    pub fn is_idle(&self) -> bool
        ensures { IsTrue result ↔ (self.now.seen.task ≡ None) }
    {
        matches!(self.work, Work::Idle)
    }

    /// The number of the last operation that it started; those of each life count on from a multiple of 2^32.
    pub fn ops(&self) -> u64
        ensures { result ≡ ops_of self.now.seen }
    {
        u64::from(self.life) * LIFE + u64::from(self.started)
    }

    /// How often it came back.
    pub fn life(&self) -> u32
        ensures { result ≡ self.now.seen.life }
    {
        self.life
    }

    /// How many operations it has started since it last came back.
    pub fn started(&self) -> u32
        ensures { result ≡ self.now.seen.started }
    {
        self.started
    }

    /// The phase of the operation under way, 0 where there is none.
    pub fn phase(&self) -> u64
        ensures { result ≡ phase_of self.now.seen.task }
    {
        match self.operation() {
            Some(operation) => operation.phase(),
            None => 0,
        }
    }

    /// The stamp that the write under way has chosen, if there is one.
    pub fn stamp(&self) -> Option<Stamp>
        ensures { result ≡ chosen_of self.now.seen.task }
    {
        match self.operation() {
            Some(operation) => operation.chosen_stamp(),
            None => None,
        }
    }

    // What an answer to the client would do to the operation under way.
    fn step_by(&self, node: u8, tag: Tag, reply: &Reply) -> Result<Step, NoMemory>
        requires { phase_of self.now.seen.task < 2 ^ 64 - 1 }
        ensures { IfOk result (IsStep self.now (hears_answer self.now node tag reply.now)) }
    {
        let Some(operation) = self.operation() else {
            return Ok(Step::Ignored);
        };
        if operation.ends_phase(node, tag, reply) {
            return Ok(Step::EndsPhase(self.phase_end(node, tag, reply)?));
        }
        if !operation.counts(node, tag, reply) {
            return Ok(Step::Ignored);
        }
        let reply = reply.copy()?;
        Ok(Step::Counts { node, tag, reply })
    }

    // What the phase under way comes to with an answer that ends it.
    fn phase_end(&self, node: u8, tag: Tag, reply: &Reply) -> Result<PhaseEnd, NoMemory>
        requires ends { ends_in (operation_of self.now) node tag reply.now ≡ true }
        requires phase { phase_of self.now.seen.task < 2 ^ 64 - 1 }
        ensures { IfOk result (IsPhaseEnd (operation_of self.now)
            (hears_answer self.now node tag reply.now)) }
    {
        match &self.work {
            Work::Idle => unreachable!(),
            Work::Writing(writer) => writer.phase_end(node, tag, reply),
            Work::Reading(reader) => reader.phase_end(node, tag, reply),
        }
    }

    // The operation under way, if there is one.
    fn operation(&self) -> Option<&Operation>
        ensures { MatchOption result (self.now.seen.task ≡ None)
            (λ o. o.now ≡ operation_of self.now) }
    {
        match &self.work {
            Work::Idle => None,
            Work::Writing(writer) => Some(writer.operation()),
            Work::Reading(reader) => Some(reader.operation()),
        }
    }
}

/// Begins an operation, the client's of this number, with the messages of its first phase.
fn begin(
    alloc: Global,
    config: &Config,
    first: &Stamp,
    id: u32,
    number: u64,
    op: &Op,
) -> Result<(Work, Mail), NoMemory>
    requires first { first.now ≡ (first_of config.now).stamp }
    ensures work { IfOk result (λ r.
        HasBegun config.now id (begun_task config.now number op.now) r.0) }
    ensures mail { IfOk result (λ r. r.1 ≡ first_mail config.now id number op.now) }
{
    match op {
        Op::Read { block } => {
            let (reader, mail) = Reader::begin(alloc, config, first, id, number, *block)?;
            Ok((Work::Reading(reader), mail))
        }
        Op::Write { block, value } => {
            let (writer, mail) = Writer::begin(alloc, config, id, number, *block, value)?;
            Ok((Work::Writing(writer), mail))
        }
    }
}

impl Copied for Client {
    fn copy(&self) -> Result<Client, NoMemory> {
        let work = match &self.work {
            Work::Idle => Work::Idle,
            Work::Writing(writer) => Work::Writing(writer.copy()?),
            Work::Reading(reader) => Work::Reading(reader.copy()?),
        };
        Ok(Client {
            alloc: self.alloc,
            config: self.config,
            first: self.first,
            id: self.id,
            life: self.life,
            started: self.started,
            work,
        })
    }
}
