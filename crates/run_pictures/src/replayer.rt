//! A world in which a script's lines are played one by one.
ghost use Rattle.std.specs.Prelude.{◌≡◌, IfOk};
ghost use Rattle.wire_forms.specs.Liars.{AreLiars};
ghost use Rattle.event_lines.specs.Lines.{IsEventLine};

use event_lines::{ReplayLine, read_event};
use line_forms::LineRefusal;
use lists::NoMemory;
use quorum_rules::Config;
use run_words::Line;
use std::alloc::Global;
use std::marker::Model;
use wire_forms::{Liars, Message};
use world_steps::{StepRefusal, World};

/// A world and its cluster. Contracts see the world.
#[derive(Drop)]
pub struct Replayer {
    alloc: Global,
    config: Config,
    world: World,
}

impl Model for Replayer {
    ghost use Rattle.std.specs.Prelude.{◌≡◌};
    ghost use Rattle.world_state.specs.Worlds.{WorldView};

    ghost Value = { WorldView };

    ghost view = { λ s. s.world };

    ghost invariant = { λ s. s.world.config ≡ s.config };
}

impl Replayer {
    /// The beginning of a run.
    pub fn new(alloc: Global, config: &Config, liars: &Liars) -> Result<Replayer, NoMemory>
        requires { AreLiars config.now liars.now }
        ensures { IfOk result (λ s. s.config ≡ config.now) }
    {
        let world = World::new(alloc, config, liars)?;
        Ok(Replayer {
            alloc,
            config: *config,
            world,
        })
    }

    /// Plays the text of an event line at a place, and gives the line; none where the text is that of a device command, or
    /// of a line that can't take place.
    pub fn start(&mut self, place: u64, text: &[u8]) -> Result<Option<Line>, NoMemory>
        ensures { self.new.config ≡ self.old.config }
    {
        let event = match self.event(text) {
            Ok(event) => event,
            Err(LineRefusal::NoMemory) => return Err(NoMemory),
            Err(LineRefusal::Cause(_)) => return Ok(None),
        };
        if self.takes_place(place, &event)? {
            Ok(line_of(event))
        } else {
            Ok(None)
        }
    }

    fn event(&self, text: &[u8]) -> Result<ReplayLine, LineRefusal>
        ensures { IfOk result (λ event. IsEventLine self.now.config event) }
    {
        read_event(self.alloc, &self.config, text)
    }

    /// Plays a line at a place, and tells whether it took place. A device command doesn't.
    pub fn takes_place(&mut self, place: u64, event: &ReplayLine) -> Result<bool, NoMemory>
        requires { IsEventLine self.now.config event.now }
        ensures { self.new.config ≡ self.old.config }
    {
        let ReplayLine::Plain(line) = event else {
            return Ok(false);
        };
        if place <= self.world.place() {
            return Ok(false);
        }
        match self.world.play(place, line) {
            Ok(()) => Ok(true),
            Err(StepRefusal::Fault(_)) => Ok(false),
            Err(StepRefusal::NoMemory) => Err(NoMemory),
        }
    }

    /// Every message that was sent.
    pub fn pool(&self) -> &[Message] {
        self.world.pool()
    }
}

/// The line of an event that is none of the device.
fn line_of(event: ReplayLine) -> Option<Line> {
    match event {
        ReplayLine::Plain(line) => Some(line),
        ReplayLine::Put { .. } | ReplayLine::Get { .. } | ReplayLine::Next { .. } => None,
    }
}
