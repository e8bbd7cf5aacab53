ghost use Rattle.std.specs.Prelude.{◌≡◌, ◌<◌, ◌^◌, length, IfOk, IfErr};
ghost use Rattle.command_texts.specs.Texts.{Writes, Refuses};
ghost use Rattle.command_texts.specs.Words.{RunsThreads};

use crate::check::verdict_of;
use crate::replay::report_of;
use crate::sum::sum_of;
use crate::{Command, Refusal};
use cross_sum::Bytes;
use history_book::Flaw;
use std::alloc::Global;

/// What a command writes for an input.
#[derive(Drop)]
pub struct Answer {
    pub text: Bytes,
    /// The first flaw of a history that isn't one of plain registers. Only `check` tells one.
    pub flaw: Option<Flaw>,
}

impl Answer {
    /// A text that tells no flaw.
    pub fn of(text: Bytes) -> Answer
        ensures text { result.text ≡ text }
        ensures flaw { result.flaw ≡ None }
    {
        Answer { text, flaw: None }
    }
}

/// What a command that runs no threads writes for an input, and the flaw that it finds.
pub fn text_of(alloc: Global, command: Command, input: &Bytes) -> Result<Answer, Refusal>
    requires short { length input.now < 2 ^ 32 }
    requires alone { RunsThreads command → ⊥ }
    ensures text { IfOk result (λ answer. Writes command input.now answer.text answer.flaw) }
    ensures refused { IfErr result (λ refusal. Refuses command input.now refusal) }
{
    match command {
        Command::Replay => report_of(alloc, input),
        Command::Check => verdict_of(alloc, input),
        Command::Sum => sum_of(alloc, input),
        Command::Run(_) | Command::Trace(_) | Command::Soak(_) => unreachable!(),
    }
}
