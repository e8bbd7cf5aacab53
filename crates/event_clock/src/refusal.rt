use crate::clock::Drawn;
use lists::NoMemory;

/// Why a run whose threads draw the numbers of its entries wasn't carried to its end.
#[derive(Drop)]
pub enum RunRefusal {
    /// No memory was found.
    NoMemory,
    /// A pass drew 2^40 numbers and can't draw more. The numbers drawn show it.
    ClockFull(Drawn),
}

impl From<NoMemory> for RunRefusal {
    ghost use Rattle.std.specs.Prelude.{◌≡◌};
    ghost use Rattle.event_clock.specs.declared.refusal.RunRefusal.TheVariants as refusals;

    ghost from_gives = { λ _ e. e ≡ refusals.NoMemory };

    fn from(_: NoMemory) -> RunRefusal {
        RunRefusal::NoMemory
    }
}
