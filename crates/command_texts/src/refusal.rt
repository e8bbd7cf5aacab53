ghost use Rattle.std.specs.Prelude.{◌≡◌};
ghost use Rattle.command_texts.specs.Statuses.{refusal_of, refusal_of_run};
ghost use Rattle.command_texts.specs.declared.refusal.Refusal.TheVariants as refusals;

use event_clock::{Drawn, RunRefusal};
use line_forms::{ScriptFault, ScriptRefusal};
use lists::NoMemory;

/// Why a command writes no text for an input.
#[derive(Drop)]
pub enum Refusal {
    /// No memory was found.
    NoMemory,
    /// The input is refused at the line and for the cause that the fault has.
    BadScript(ScriptFault),
    /// A run in threads drew as many numbers as a pass may.
    ClockFull(Drawn),
}

impl From<ScriptRefusal> for Refusal {
    ghost from_gives = { λ r e. e ≡ refusal_of r };

    fn from(refusal: ScriptRefusal) -> Refusal {
        match refusal {
            ScriptRefusal::NoMemory => Refusal::NoMemory,
            ScriptRefusal::Fault(fault) => Refusal::BadScript(fault),
        }
    }
}

impl From<NoMemory> for Refusal {
    ghost from_gives = { λ _ e. e ≡ refusals.NoMemory };

    fn from(_: NoMemory) -> Refusal {
        Refusal::NoMemory
    }
}

impl From<RunRefusal> for Refusal {
    ghost from_gives = { λ r e. e ≡ refusal_of_run r };

    fn from(refusal: RunRefusal) -> Refusal {
        match refusal {
            RunRefusal::NoMemory => Refusal::NoMemory,
            RunRefusal::ClockFull(drawn) => Refusal::ClockFull(drawn),
        }
    }
}
