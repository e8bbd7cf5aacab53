//! What happens between two phases.
ghost use Rattle.std.specs.Prelude.{◌≡◌, ◌+◌, ℕ, None, IfOk};
ghost use Rattle.phase_threads.specs.Standing.{AreKept};
ghost use Rattle.client_threads.specs.Running.{IsOpen, IsWorked, IsBetween, plan_of, clients_of};
ghost use Rattle.client_threads.specs.Meeting.{HasMetAll};

use crate::meeting::{meet_cells, meet_desks};
use crate::pruning::prune_all;
use crate::reads::gather;
use crate::state::Run;
use lists::NoMemory;
use locked_nodes::CellRefusal;
use phase_threads::laws::phases_work;
use plan_followed::laws::phases_close;
use plan_followed::prunings;
use plan_words::Plan;
use std::alloc::Global;

/// Closes a phase of the plan's run that is worked off: one pass meets all others, the nodes prune what was read in the phase, and
/// the pass meets all others again. It hands the run back with the refusal that came, if one did.
pub(crate) fn close_phase(
    alloc: Global,
    plan: &Plan,
    run: Run,
) -> Result<(Run, Option<CellRefusal>), NoMemory>
    requires worked { (k : ℕ) × IsWorked k run }
    requires plan { plan_of run ≡ plan.now }
    ensures open { IfOk result (λ r. IsOpen r.0) }
    ensures plan { IfOk result (λ r. plan_of r.0 ≡ plan_of run) }
    ensures clock { IfOk result (λ r. r.0.clock ≡ run.clock) }
    ensures closed { IfOk result (λ r.
        r.1 ≡ None → (k : ℕ) → IsWorked k run → IsBetween (k + 1) r.0) }
{
    phases_work();
    phases_close();
    let mut run = run;
    meet_all(&mut run);
    let given = gather(alloc, run.clients.as_slice(), run.begun)?;
    let blocks = plan.config.blocks();
    let prunings = prunings(alloc, blocks, given.early.as_slice(), given.late.as_slice())?;
    let Run {
        plan: snapshot,
        clock,
        cells,
        clients,
        mut keeper,
        begun: _begun,
    } = run;
    let (cells, refused) = prune_all(alloc, plan, &clock, &mut keeper, cells, prunings.as_slice())?;
    let begun = keeper.seen();
    let mut run = Run {
        plan: snapshot,
        clock,
        cells,
        clients,
        keeper,
        begun,
    };
    meet_all(&mut run);
    Ok((run, refused))
}

// One pass meets all others.
fn meet_all(run: &mut Run)
    requires { IsOpen run.old }
    ensures open { IsOpen run.new }
    ensures met { HasMetAll run.old run.new }
    ensures kept { AreKept run.new.cells.items (clients_of run.new) }
{
    meet_cells(&run.clock, &mut run.keeper, run.cells.as_mut_slice());
    meet_desks(&run.clock, &mut run.keeper, run.clients.as_mut_slice());
}
