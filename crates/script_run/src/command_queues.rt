ghost use Rattle.std.specs.Prelude.{◌≡◌, ◌≤◌, ◌<◌, ℕ, [], length, replicate, option_map, slice_set, All, IfSome, IfNone, IfOk, OnOk, IsErrOf};
ghost use Rattle.std.specs.declared.option.Option.TheVariants.{None, Some};
ghost use Rattle.wire_forms.specs.Liars.{has_number, AreLiars};
ghost use Rattle.protocol.specs.Instance.{setting_of};
ghost use Rattle.protocol.specs.Lines.{FitsLine, fault, plays, start_line};
ghost use Rattle.block_device.specs.Ranges.{fault_of};
ghost use Rattle.block_device.specs.Steps.{steps_of, Fits};
ghost use Rattle.event_lines.specs.declared.line.ReplayLine.TheVariants.{Plain};
ghost use Rattle.line_forms.specs.declared.cause.Cause.TheVariants.{Step};
ghost use Rattle.line_forms.specs.declared.cause.Cause.{Cause as Causes};
ghost use Rattle.event_lines.specs.Lines.{IsEventLine};
ghost use Rattle.world_state.specs.Worlds.{setting_in, world_in};
ghost use Rattle.script_run.specs.Performing.{returning, start_queues, cause_of, after_line, started_by, run_line, next_line, command_cause, next_cause, begun, stepped};
ghost use Rattle.script_run.specs.CommandQueues.{queues_in};

use block_device::{BlockStep, Command, DeviceOp, DeviceRefusal, commands, range_fault};
use event_lines::ReplayLine;
use line_forms::{Cause, LineRefusal};
use lists::{ItemList, NoMemory};
use quorum_rules::Config;
use run_words::Line;
use std::alloc::Global;
use std::marker::Model;
use wire_forms::{Liars, Op};
use world_steps::{StepRefusal, World};

/// How many client numbers there are, with the first, which nobody has.
const CLIENTS: usize = 1001;

/// A world, and for each client what is left of its last command. Contracts see the queues of the definitions.
#[derive(Drop)]
pub struct CommandQueues {
    alloc: Global,
    config: Config,
    world: World,
    /// By client number, the first of which nobody has.
    left: Vec<Command>,
}

impl Model for CommandQueues {
    ghost use Rattle.std.specs.Prelude.{◌≡◌};
    ghost use Rattle.script_run.specs.CommandQueues.{QueuesView, AreQueues};

    ghost Value = { QueuesView };

    ghost view = { λ d. record { world = d.world; left = d.left.items } };

    ghost invariant = { λ d. AreQueues d.config d.left.items × (d.world.config ≡ d.config) };
}

impl CommandQueues {
    /// The queues before anything took place.
    pub fn new(alloc: Global, config: &Config, liars: &Liars) -> Result<CommandQueues, NoMemory>
        requires { AreLiars config.now liars.now }
        ensures cluster { IfOk result (λ d. d.world.config ≡ config.now) }
        ensures liars { IfOk result (λ d. setting_in d.world ≡ setting_of config.now
            (has_number liars.now.nodes) (has_number liars.now.clients)) }
        ensures start { IfOk result (λ d. queues_in d ≡ start_queues (setting_in d.world)) }
    {
        let world = World::new(alloc, config, liars)?;
        let left = empty_queues(alloc)?;
        Ok(CommandQueues {
            alloc,
            config: *config,
            world,
            left,
        })
    }

    /// Does what a line of a replay asks at one place. A line that can't take place is refused with its first cause.
    pub fn perform(&mut self, place: u64, line: ReplayLine) -> Result<(), LineRefusal>
        requires later { self.now.world.seen.place < place }
        requires line { IsEventLine self.now.world.config line }
        ensures allowed { OnOk result (cause_of (setting_in self.old.world) self.old.world.config
            (queues_in self.old) line ≡ None) }
        // The line of the run that it is, is one of this configuration.
        ensures fits { OnOk result (FitsLine (setting_in self.old.world)
            (run_line (setting_in self.old.world) (queues_in self.old) line)) }
        ensures ok { OnOk result (queues_in self.new ≡ after_line
            (setting_in self.old.world) self.old.world.config (queues_in self.old) place line) }
        ensures cluster { OnOk result (self.new.world.config ≡ self.old.world.config) }
        ensures setting { OnOk result (setting_in self.new.world ≡ setting_in self.old.world) }
        ensures cause { (c : Causes) → IsErrOf result (LineRefusal.Cause c)
            → cause_of (setting_in self.old.world) self.old.world.config
            (queues_in self.old) line ≡ Some c }
    {
        match line {
            ReplayLine::Plain(line) => self.play(place, &line),
            ReplayLine::Put {
                client,
                offset,
                bytes,
            } => self.begin(place, client, &DeviceOp::Put { offset, bytes }),
            ReplayLine::Get {
                client,
                offset,
                length,
            } => self.begin(place, client, &DeviceOp::Get { offset, length }),
            ReplayLine::Next { client } => self.step(place, client),
        }
    }

    /// Does a plain line's events. A client that comes back drops the steps that it had left.
    fn play(&mut self, place: u64, line: &Line) -> Result<(), LineRefusal>
        requires later { self.now.world.seen.place < place }
        requires fits { FitsLine (setting_in self.now.world) line.now }
        ensures allowed { OnOk result (cause_of (setting_in self.old.world) self.old.world.config
            (queues_in self.old) (Plain line.now) ≡ None) }
        ensures ok { OnOk result (queues_in self.new ≡ after_line
            (setting_in self.old.world) self.old.world.config (queues_in self.old) place
            (Plain line.now)) }
        ensures cluster { OnOk result (self.new.world.config ≡ self.old.world.config) }
        ensures setting { OnOk result (setting_in self.new.world ≡ setting_in self.old.world) }
        ensures cause { (c : Causes) → IsErrOf result (LineRefusal.Cause c)
            → cause_of (setting_in self.old.world) self.old.world.config (queues_in self.old)
            (Plain line.now) ≡ Some c }
    {
        if let Err(refusal) = play(&mut self.world, place, line) {
            return Err(refusal);
        }
        drop_steps(&mut self.left, returning(line), self.alloc);
        Ok(())
    }

    /// Begins a client's command.
    fn begin(&mut self, place: u64, client: u32, op: &DeviceOp) -> Result<(), LineRefusal>
        requires later { self.now.world.seen.place < place }
        requires client { client ≤ 1000 }
        ensures allowed { OnOk result (command_cause (fault_of self.old.world.config op.now)
            ((queues_in self.old).left client) ≡ None) }
        ensures ok { OnOk result (queues_in self.new ≡ begun
            (setting_in self.old.world) self.old.world.config
            (queues_in self.old) place client op.now) }
        ensures cluster { OnOk result (self.new.world.config ≡ self.old.world.config) }
        ensures setting { OnOk result (setting_in self.new.world ≡ setting_in self.old.world) }
        ensures cause { (c : Causes) → IsErrOf result (LineRefusal.Cause c)
            → command_cause (fault_of self.old.world.config op.now)
            ((queues_in self.old).left client) ≡ Some c }
    {
        let command = self.command(client, op)?;
        play(&mut self.world, place, &Line::Lost { client, node: 0 })?;
        self.left[client as usize] = command;
        Ok(())
    }

    /// The command of a client that may begin it.
    fn command(&self, client: u32, op: &DeviceOp) -> Result<Command, LineRefusal>
        requires { client ≤ 1000 }
        ensures allowed { OnOk result (command_cause (fault_of self.now.world.config op.now)
            ((queues_in self.now).left client) ≡ None) }
        ensures steps { IfOk result (λ steps. steps ≡ steps_of self.now.world.config op.now) }
        ensures fit { IfOk result (λ steps. All (Fits self.now.world.config) steps) }
        ensures cause { (c : Causes) → IsErrOf result (LineRefusal.Cause c)
            → command_cause (fault_of self.now.world.config op.now)
            ((queues_in self.now).left client) ≡ Some c }
    {
        if let Some(fault) = range_fault(&self.config, op) {
            return Err(LineRefusal::Cause(Cause::Device(fault)));
        }
        if !self.left[client as usize].is_over() {
            return Err(LineRefusal::Cause(Cause::QueueBusy));
        }
        match commands(self.alloc, &self.config, op) {
            Ok(steps) => Ok(Command::of(steps)),
            Err(DeviceRefusal::NoMemory) => Err(LineRefusal::NoMemory),
            Err(DeviceRefusal::PastEnd | DeviceRefusal::EmptyRange) => unreachable!(),
        }
    }

    /// Starts the first step that is left of a client's command.
    fn step(&mut self, place: u64, client: u32) -> Result<(), LineRefusal>
        requires later { self.now.world.seen.place < place }
        requires client { client ≤ 1000 }
        ensures allowed { OnOk result (next_cause (setting_in self.old.world)
            (queues_in self.old).world client ((queues_in self.old).left client) ≡ None) }
        ensures fits { OnOk result (FitsLine (setting_in self.old.world) (next_line
            (setting_in self.old.world) (queues_in self.old).world client
            ((queues_in self.old).left client))) }
        ensures ok { OnOk result (queues_in self.new ≡ stepped (setting_in self.old.world)
            (queues_in self.old) place client ((queues_in self.old).left client)) }
        ensures cluster { OnOk result (self.new.world.config ≡ self.old.world.config) }
        ensures setting { OnOk result (setting_in self.new.world ≡ setting_in self.old.world) }
        ensures cause { (c : Causes) → IsErrOf result (LineRefusal.Cause c)
            → next_cause (setting_in self.old.world) (queues_in self.old).world client
            ((queues_in self.old).left client) ≡ Some c }
    {
        let Some(step) = self.left[client as usize].next() else {
            return Err(LineRefusal::Cause(Cause::NoCommand));
        };
        let line = self.line_of(client, step)?;
        play(&mut self.world, place, &line)
    }

    /// The line by which a client starts a step.
    fn line_of(&self, client: u32, step: BlockStep) -> Result<Line, NoMemory>
        requires { Fits self.now.world.config step }
        ensures line { IfOk result (λ line. line ≡ started_by (setting_in self.now.world)
            (world_in self.now.world) client step) }
        ensures fits { IfOk result (λ line. FitsLine (setting_in self.now.world) line) }
    {
        self.world.is_reached();
        let op = step.into_op(self.alloc, &self.config, client, self.world.records())?;
        Ok(start_of(client, op))
    }

    /// The world alone.
    pub fn into_world(self) -> World
        ensures { result ≡ self.world }
    {
        let CommandQueues { world, .. } = self;
        world
    }
}

/// A queue for each client, with no step.
fn empty_queues(alloc: Global) -> Result<Vec<Command>, NoMemory>
    ensures { IfOk result (λ left. left.items ≡ replicate 1001 []) }
{
    let mut left = Vec::with_capacity(alloc, CLIENTS)?;
    for _ in 0..CLIENTS {
        left.push(Command::of(ItemList::new(alloc)))?;
    }
    Ok(left)
}

/// Does a line's events. A line that can't take place is refused with the first fault that it meets.
fn play(world: &mut World, place: u64, line: &Line) -> Result<(), LineRefusal>
    requires later { world.now.seen.place < place }
    requires fits { FitsLine (setting_in world.now) line.now }
    ensures allowed { OnOk result
        (option_map Step (fault (setting_in world.old) (world_in world.old) line.now) ≡ None) }
    ensures ok { OnOk result
        (world_in world.new ≡ plays (setting_in world.old) (world_in world.old) place line.now) }
    ensures cluster { world.new.config ≡ world.old.config }
    ensures setting { OnOk result (setting_in world.new ≡ setting_in world.old) }
    ensures cause { (c : Causes) → IsErrOf result (LineRefusal.Cause c)
        → option_map Step (fault (setting_in world.old) (world_in world.old) line.now) ≡ Some c }
{
    match world.play(place, line) {
        Ok(()) => Ok(()),
        Err(StepRefusal::NoMemory) => Err(LineRefusal::NoMemory),
        Err(StepRefusal::Fault(fault)) => Err(LineRefusal::Cause(Cause::Step(fault))),
    }
}

/// The line by which a client starts an operation.
fn start_of(client: u32, op: Op) -> Line
    ensures { result ≡ start_line client op }
{
    match op {
        Op::Read { block } => Line::Read { client, block },
        Op::Write { block, value } => Line::Write {
            client,
            block,
            value,
        },
    }
}

/// Who comes back at the line.
fn returning(line: &Line) -> Option<u32>
    ensures { result ≡ returning line.now }
{
    match line {
        Line::Back { client } => Some(*client),
        _ => None,
    }
}

/// Leaves the client, if there is one, without steps.
fn drop_steps(left: &mut Vec<Command>, client: Option<u32>, alloc: Global)
    requires { IfSome client (λ c. c < length left.old.items) }
    ensures kept { IfNone client (left.new.items ≡ left.old.items) }
    ensures dropped { IfSome client (λ c. left.new.items ≡ slice_set left.old.items c []) }
{
    if let Some(client) = client {
        left[client as usize] = Command::of(ItemList::new(alloc));
    }
}
