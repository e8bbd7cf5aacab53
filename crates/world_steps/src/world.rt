ghost use Rattle.std.specs.Prelude.{false, ◌≡◌, ℕ, ◌<◌, OnOk, OnErr, IfOk, IsErrOf, map};
ghost use Rattle.std.specs.declared.option.Option.TheVariants.{None, Some};
ghost use Rattle.wire_forms.specs.Liars.{has_number, AreLiars};
ghost use Rattle.protocol.specs.Instance.{setting_of};
ghost use Rattle.protocol.specs.World.{start_world};
ghost use Rattle.protocol.specs.Setting.{first_stamp};
ghost use Rattle.protocol.specs.Lines.{fault, plays, FitsLine};
ghost use Rattle.protocol.specs.Seen.{record_of, accepted_of};
ghost use Rattle.run_words.specs.declared.line.StepFault.{StepFault as Faults};
ghost use Rattle.node_core.specs.Seen.{versions_in};
ghost use Rattle.version_disk.specs.Held.{held};
ghost use Rattle.world_state.specs.Worlds.{setting_in, world_in, node_in};
ghost use Rattle.world_steps.specs.Reached.{IsReached};
ghost use Rattle.world_steps.specs.Events.{line_of, Happens};

use crate::event::Event;
use crate::play::play;
use crate::refusal::StepRefusal;
use lists::{ItemList, NoMemory};
use quorum_rules::Config;
use run_words::{Accepted, Line, Record};
use stamp_order::Stamp;
use std::alloc::Global;
use std::marker::Model;
use wire_forms::{Liars, Message};
use world_state::State;

/// The last world of a run. Contracts see the cluster's numbers, who lies, and the world of the definitions; and that lines of
/// a run lead to it, so that the laws of every run hold of it.
#[derive(Drop)]
pub struct World {
    /// On the heap, so that what moves and drops a world does so in one step.
    state: Box<State>,
}

impl Model for World {
    ghost use Rattle.world_state.specs.Worlds.{WorldView};
    ghost use Rattle.world_steps.specs.Reached.{IsReached};

    ghost Value = { WorldView };

    ghost view = { λ w. w.state.value };

    ghost invariant = { λ w. IsReached w.state.value };
}

impl World {
    /// The world before anything took place, in a cluster in which these nodes and clients lie.
    pub fn new(alloc: Global, config: &Config, liars: &Liars) -> Result<World, NoMemory>
        requires { AreLiars config.now liars.now }
        ensures cluster { IfOk result (λ w. w.config ≡ config.now) }
        ensures liars { IfOk result (λ w. setting_in w ≡ setting_of config.now
            (has_number liars.now.nodes) (has_number liars.now.clients)) }
        ensures start { IfOk result (λ w. world_in w ≡ start_world (setting_in w)) }
    {
        let state = State::new(alloc, config, liars)?;
        Ok(World {
            state: Box::new(alloc, state)?,
        })
    }

    /// Does the line's events at one place. A line that can't take place is refused with the first fault that it meets. After
    /// any refusal nothing has changed.
    pub fn play(&mut self, place: u64, line: &Line) -> Result<(), StepRefusal>
        requires later { self.now.seen.place < place }
        requires fits { FitsLine (setting_in self.now) line.now }
        ensures allowed { OnOk result
            (fault (setting_in self.old) (world_in self.old) line.now ≡ None) }
        ensures ok { OnOk result
            (world_in self.new ≡ plays (setting_in self.old) (world_in self.old) place line.now) }
        ensures cluster { OnOk result (self.new.config ≡ self.old.config) }
        ensures setting { OnOk result (setting_in self.new ≡ setting_in self.old) }
        ensures fault { (f : Faults) → IsErrOf result (StepRefusal.Fault f)
            → fault (setting_in self.old) (world_in self.old) line.now ≡ Some f }
        ensures unchanged { OnErr result (self.new ≡ self.old) }
    {
        play(&mut self.state, place, line)
    }

    /// Does the event, and nothing else, at one place. An event that can't take place is refused with the first fault that it
    /// meets. After any refusal nothing has changed.
    pub fn step(&mut self, place: u64, event: &Event) -> Result<(), StepRefusal>
        requires later { self.now.seen.place < place }
        requires fits { FitsLine (setting_in self.now) (line_of event.now) }
        ensures allowed { OnOk result
            (fault (setting_in self.old) (world_in self.old) (line_of event.now) ≡ None) }
        ensures ok { OnOk result (world_in self.new ≡ plays (setting_in self.old)
            (world_in self.old) place (line_of event.now)) }
        ensures happens { OnOk result (Happens (setting_in self.old)
            (world_in self.old) place event.now (world_in self.new)) }
        ensures cluster { OnOk result (self.new.config ≡ self.old.config) }
        ensures setting { OnOk result (setting_in self.new ≡ setting_in self.old) }
        ensures fault { (f : Faults) → IsErrOf result (StepRefusal.Fault f)
            → fault (setting_in self.old) (world_in self.old) (line_of event.now) ≡ Some f }
        ensures unchanged { OnErr result (self.new ≡ self.old) }
    {
        let line = event.line(self.state.allocator())?;
        self.play(place, &line)
    }

    /// Every message that was ever sent, in order.
    pub fn pool(&self) -> &[Message]
        ensures { result.now ≡ self.now.seen.pool }
    {
        self.state.pool()
    }

    /// The operations of correct clients, in order of start.
    pub fn records(&self) -> &[Record]
        ensures { map record_of result.now ≡ self.now.seen.records }
    {
        self.state.records()
    }

    /// The operations of correct clients alone, in order of start: all else is given up.
    pub fn into_records(self) -> ItemList<Record>
        ensures { map record_of result ≡ self.seen.records }
    {
        let World { state } = self;
        Box::into_inner(state).into_records()
    }

    /// The versions that nodes accepted, in order of acceptance, first versions aside.
    pub fn accepted(&self) -> &[Accepted]
        ensures { map accepted_of result.now ≡ self.now.seen.accepted }
    {
        self.state.accepted()
    }

    /// The place of the last line that took place, 0 at first.
    pub fn place(&self) -> u64
        ensures { result ≡ self.now.seen.place }
    {
        self.state.place()
    }

    /// The stamp that each block has from the beginning.
    pub fn first_stamp(&self) -> &Stamp
        ensures { result.now ≡ first_stamp (setting_in self.now) }
    {
        self.state.first_stamp()
    }

    /// The bytes of the disk of a node that isn't declared lying. They hold the node's state.
    pub fn stored(&self, node: u8) -> &[u8]
        requires there { node < self.now.config.n }
        requires upright { (setting_in self.now).lying_node node ≡ false }
        ensures state { held self.now.config node result.now ≡ node_in self.now node }
        ensures versions { (block : ℕ) → block < self.now.config.blocks
            → versions_in (held self.now.config node result.now) block ≡
            (world_in self.now).versions node block }
    {
        self.state.stored(node)
    }

    /// Each world is the last one of a run.
    pub fn is_reached(&self)
        ensures { IsReached self.now }
    {
        let _ = &self.state;
    }
}
