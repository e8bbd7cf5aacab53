//! How a picture ends that isn't drawn, and its line on standard error.
ghost use Rattle.std.specs.Prelude.{◌≡◌, ◌↔◌, IsTrue};
ghost use Rattle.run_pictures.specs.declared.status.PictureRefusal.TheVariants as refusals;
ghost use Rattle.run_pictures.specs.Statuses.{status_of};

use command_texts::{Refusal, Status};
use lists::NoMemory;
use std::fmt;

/// How many event lines are drawn at most.
pub const MOST_LINES: usize = 400;

/// Why no picture is drawn.
#[derive(Drop)]
pub enum PictureRefusal {
    /// The script is refused as `replay` refuses it.
    Replay(Refusal),
    /// The script has so many event lines, which is more than are drawn.
    TooManyLines(usize),
}

impl From<Refusal> for PictureRefusal {
    ghost from_gives = { λ r e. e ≡ refusals.Replay r };

    fn from(refusal: Refusal) -> PictureRefusal {
        PictureRefusal::Replay(refusal)
    }
}

impl From<NoMemory> for PictureRefusal {
    ghost use Rattle.command_texts.specs.declared.refusal.Refusal.TheVariants.{NoMemory};

    ghost from_gives = { λ _ e. e ≡ refusals.Replay NoMemory };

    fn from(_: NoMemory) -> PictureRefusal {
        PictureRefusal::Replay(Refusal::NoMemory)
    }
}

/// How a call of the program ended.
#[derive(Drop)]
pub enum PictureStatus {
    /// As a call of `replay` ends.
    Replay(Status),
    /// The script has so many event lines, which is more than are drawn.
    TooManyLines(usize),
}

impl PictureStatus {
    /// The status of a script of which no picture is drawn.
    pub fn of(refusal: PictureRefusal) -> PictureStatus
        ensures { result ≡ status_of refusal }
    {
        match refusal {
            PictureRefusal::Replay(refusal) => PictureStatus::Replay(Status::of_refusal(refusal)),
            PictureRefusal::TooManyLines(lines) => PictureStatus::TooManyLines(lines),
        }
    }

    /// Whether the picture was written whole.
    pub fn is_done(&self) -> bool
        ensures { IsTrue result ↔ (self.now ≡ PictureStatus.Replay Status.Done) }
    {
        match self {
            PictureStatus::Replay(status) => status.is_done(),
            PictureStatus::TooManyLines(_) => false,
        }
    }

    /// The number with which the program ends: that of `replay`, and 11 where there are too many lines.
    pub fn number(&self) -> u8 {
        match self {
            PictureStatus::Replay(status) => status.number(),
            PictureStatus::TooManyLines(_) => 11,
        }
    }
}

/// What stands of a status on standard error.
impl fmt::Display for PictureStatus {
    fn fmt<W: fmt::Write>(&self, f: &mut fmt::Formatter<W>) -> fmt::Result {
        match self {
            PictureStatus::Replay(status) => write!(f, "{status}"),
            PictureStatus::TooManyLines(lines) => {
                write!(
                    f,
                    "pasis: {lines} event lines, and at most {MOST_LINES} are drawn"
                )
            }
        }
    }
}
