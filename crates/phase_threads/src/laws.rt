//! Laws of a run's cells and desks, each the contract of a function that does nothing.

ghost use Rattle.phase_threads.specs.Standing.{PhasesWork, JournalsBelow, CellsPrune, NodesPrune, NothingLate};
ghost use Rattle.phase_threads.specs.Ended.{RunsEnd};

use locked_nodes::laws::kept_journals;
use plan_followed::laws::{phases_close, plans};

/// After a phase what was closed is closed in the journals that cells and desks then make; what their passes have seen bounds the
/// numbers in these; the prunes that cells did are those of the phase; whether a cell prunes is whether its node does; and where no
/// cell holds back an ask no node does.
pub fn phases_work()
    ensures work { PhasesWork }
    ensures below { JournalsBelow }
    ensures prunes { CellsPrune }
    ensures may { NodesPrune }
    ensures late { NothingLate }
{
    kept_journals();
}

/// When a run has ended its journals are those of a run of the plan.
pub fn runs_end()
    ensures { RunsEnd }
{
    kept_journals();
    plans();
    phases_close();
}
