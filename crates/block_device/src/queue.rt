ghost use Rattle.std.specs.Prelude.{◌≡◌, ◌++◌, ◌↔◌, [], IsTrue, IfNone, option_to_list};

use crate::steps::{BlockStep, BlockSteps};
use std::collections::VecDeque;
use std::marker::Model;

/// A command under way. Contracts see the list of the steps that are left of it.
#[derive(Drop)]
pub struct Command {
    left: VecDeque<BlockStep>,
}

impl Model for Command {
    ghost use Rattle.std.specs.Prelude.{List};
    ghost use Rattle.block_device.specs.declared.steps.BlockStep.{BlockStep};

    ghost Value = { List BlockStep };

    ghost view = { λ c. c.left.items };
}

impl Command {
    /// The command with these steps.
    pub fn of(steps: BlockSteps) -> Command
        ensures { result ≡ steps }
    {
        Command {
            left: VecDeque::from_vec(steps.into_vec()),
        }
    }

    /// Takes the first step that is left, if there is one.
    pub fn next(&mut self) -> Option<BlockStep>
        ensures steps { self.old ≡ option_to_list result ++ self.new }
        ensures none { IfNone result (self.old ≡ []) }
    {
        self.left.pop_front()
    }

    /// Whether no step is left.
    pub fn is_over(&self) -> bool
        ensures { IsTrue result ↔ (self.now ≡ []) }
    {
        self.left.is_empty()
    }
}
