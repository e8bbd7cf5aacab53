ghost use Rattle.std.specs.Prelude.{◌≡◌};
ghost use Rattle.line_forms.specs.Tables.{refused_at};
ghost use Rattle.line_forms.specs.declared.refusal.LineRefusal.TheVariants as line_refusals;
ghost use Rattle.line_forms.specs.declared.refusal.ScriptRefusal.TheVariants as script_refusals;

use crate::cause::Cause;
use lists::NoMemory;
use std::alloc::{AllocError, AllocFailed};

/// Why nothing was read from a line.
#[derive(Clone, Copy, Debug, PartialEq, Eq)]
pub enum LineRefusal {
    /// No memory was found.
    NoMemory,
    /// The line is wrong.
    Cause(Cause),
}

impl From<NoMemory> for LineRefusal {
    ghost from_gives = { λ _ e. e ≡ line_refusals.NoMemory };

    fn from(_: NoMemory) -> LineRefusal {
        LineRefusal::NoMemory
    }
}

impl From<AllocError> for LineRefusal {
    ghost from_gives = { λ _ e. e ≡ line_refusals.NoMemory };

    fn from(_: AllocError) -> LineRefusal {
        LineRefusal::NoMemory
    }
}

impl<T: Drop> From<AllocFailed<T>> for LineRefusal {
    ghost from_gives = { λ _ e. e ≡ line_refusals.NoMemory };

    fn from(_: AllocFailed<T>) -> LineRefusal {
        LineRefusal::NoMemory
    }
}

impl From<Cause> for LineRefusal {
    ghost from_gives = { λ c e. e ≡ line_refusals.Cause c };

    fn from(cause: Cause) -> LineRefusal {
        LineRefusal::Cause(cause)
    }
}

/// The first line of a text that has a cause, and the first cause that it has.
#[derive(Clone, Copy, Debug, PartialEq, Eq)]
pub struct ScriptFault {
    /// The line's number, counted from 1.
    pub line: u64,
    /// Why the line is refused.
    pub cause: Cause,
}

/// Why nothing was read from a text.
#[derive(Clone, Copy, Debug, PartialEq, Eq)]
pub enum ScriptRefusal {
    /// No memory was found.
    NoMemory,
    /// A line of the text is wrong.
    Fault(ScriptFault),
}

impl From<NoMemory> for ScriptRefusal {
    ghost from_gives = { λ _ e. e ≡ script_refusals.NoMemory };

    fn from(_: NoMemory) -> ScriptRefusal {
        ScriptRefusal::NoMemory
    }
}

impl From<AllocError> for ScriptRefusal {
    ghost from_gives = { λ _ e. e ≡ script_refusals.NoMemory };

    fn from(_: AllocError) -> ScriptRefusal {
        ScriptRefusal::NoMemory
    }
}

impl<T: Drop> From<AllocFailed<T>> for ScriptRefusal {
    ghost from_gives = { λ _ e. e ≡ script_refusals.NoMemory };

    fn from(_: AllocFailed<T>) -> ScriptRefusal {
        ScriptRefusal::NoMemory
    }
}

impl From<ScriptFault> for ScriptRefusal {
    ghost from_gives = { λ f e. e ≡ script_refusals.Fault f };

    fn from(fault: ScriptFault) -> ScriptRefusal {
        ScriptRefusal::Fault(fault)
    }
}

/// The refusal of a text whose line of this number is refused.
pub fn refused(line: u64, refusal: LineRefusal) -> ScriptRefusal
    ensures { result ≡ refused_at line refusal }
{
    match refusal {
        LineRefusal::NoMemory => ScriptRefusal::NoMemory,
        LineRefusal::Cause(cause) => ScriptRefusal::Fault(ScriptFault { line, cause }),
    }
}
