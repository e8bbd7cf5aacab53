ghost use Rattle.std.specs.Prelude.{◌≡◌};
ghost use Rattle.world_steps.specs.declared.refusal.StepRefusal.TheVariants as refusals;

use lists::NoMemory;
use run_words::StepFault;

/// Why a line or an event doesn't take place.
#[derive(Clone, Copy, Debug, PartialEq, Eq)]
pub enum StepRefusal {
    /// No memory was found.
    NoMemory,
    /// It can't take place in this world: the first fault that it meets.
    Fault(StepFault),
}

impl From<NoMemory> for StepRefusal {
    ghost from_gives = { λ _ e. e ≡ refusals.NoMemory };

    fn from(_: NoMemory) -> StepRefusal {
        StepRefusal::NoMemory
    }
}
