ghost use Rattle.std.specs.Prelude.{◌<◌, ◌-◌, ◌^◌, IfOk, IfErr};
ghost use Rattle.command_texts.specs.Replays.{IsReportOf};
ghost use Rattle.command_texts.specs.Texts.{Writes, Refuses};

use crate::text::Answer;
use crate::{Command, Refusal};
use cross_sum::Bytes;
use history_book::print;
use lists::NoMemory;
use script_run::{World, last_history, perform};
use script_text::read_replay;
use std::alloc::Global;

// The report of the history of the run that leads to a world.
fn told(alloc: Global, world: World) -> Result<Bytes, NoMemory>
    requires { world.seen.place < 2 ^ 31 - 1 }
    ensures { IfOk result (λ text. IsReportOf world text) }
{
    let history = last_history(alloc, world)?;
    print(alloc, &history)
}

/// The report of the history of the run of a script's lines.
pub fn report_of(alloc: Global, input: &Bytes) -> Result<Answer, Refusal>
    ensures text { IfOk result (λ answer. Writes Command.Replay input.now answer.text answer.flaw) }
    ensures refused { IfErr result (λ refusal. Refuses Command.Replay input.now refusal) }
{
    let replay = read_replay(alloc, input.as_slice())?;
    match perform(alloc, replay) {
        Ok(world) => Ok(Answer::of(told(alloc, world)?)),
        Err(refusal) => Err(Refusal::from(refusal)),
    }
}
