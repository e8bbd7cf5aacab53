//! The threads of a phase.
ghost use Rattle.std.specs.Prelude.{◌≡◌, ◌≤◌, ℕ, None, IfOk};
ghost use Rattle.client_threads.specs.Phases.{DoesPhases};
ghost use Rattle.client_threads.specs.Running.{IsOpen, IsStanding, HasDonePhase, cuts, plan_of};

use crate::state::{Run, know_cells};
use client_duties::ClientDuty;
use event_clock::Clock;
use lists::NoMemory;
use locked_nodes::{CellRefusal, NodeCell};
use phase_threads::{Left, Seat};

/// What a phase leaves: the clock, and the cells and seats with the refusal that came, if one did.
pub type Phased = Result<(Clock, Left<ClientDuty>), NoMemory>;

/// Lets each client do its part of the next phase. It hands the run back with the refusal that came, if one did.
pub(crate) fn work<F: Fn(Clock, Vec<NodeCell>, Vec<Seat<ClientDuty>>) -> Phased>(
    phase: &F,
    run: Run,
) -> Result<(Run, Option<CellRefusal>), NoMemory>
    requires phase { DoesPhases (F.pre phase.now) (F.post phase.now) }
    requires standing { (k : ℕ) × IsStanding k run × (k ≤ cuts (plan_of run)) }
    ensures open { IfOk result (λ r. IsOpen r.0) }
    ensures plan { IfOk result (λ r. plan_of r.0 ≡ plan_of run) }
    ensures clock { IfOk result (λ r. r.0.clock ≡ run.clock) }
    ensures done { IfOk result (λ r.
        r.1 ≡ None → (k : ℕ) → IsStanding k run → HasDonePhase k run r.0) }
{
    let Run {
        plan,
        clock,
        cells,
        clients,
        keeper,
        begun,
    } = run;
    know_cells(cells.as_slice());
    let (clock, left) = phase(clock, cells, clients)?;
    let Left {
        cells,
        seats: clients,
        refused,
    } = left;
    let run = Run {
        plan,
        clock,
        cells,
        clients,
        keeper,
        begun,
    };
    Ok((run, refused))
}
