//! What nodes hold back when the threads of a phase have ended.
ghost use Rattle.std.specs.Prelude.{◌≡◌, All, OnOk};
ghost use Rattle.std.specs.List.{AllZip};
ghost use Rattle.locked_nodes.specs.Cells.{HasNoLateMail, KeptCell, HasMoreAside};

use crate::state::know_cells;
use event_clock::Clock;
use locked_nodes::{CellRefusal, Late, NodeCell};
use std::sync::Wait;

/// Lets all asks that the cells hold back come late, cell by cell.
pub(crate) fn bring_all<R: Wait>(
    rt: &R,
    clock: &Clock,
    cells: &mut [NodeCell],
) -> Result<(), CellRefusal>
    requires { All (λ c. c.charter.pass.clock ≡ clock.now) cells.old }
    ensures cells { AllZip HasMoreAside cells.old cells.new }
    ensures known { All KeptCell cells.new }
    ensures none { OnOk result (All HasNoLateMail cells.new) }
{
    know_cells(cells);
    for cell in cells.iter_mut() {
        bring(rt, clock, cell)?;
    }
    Ok(())
}

// Lets all asks that one cell holds back come late.
fn bring<R: Wait>(rt: &R, clock: &Clock, cell: &mut NodeCell) -> Result<(), CellRefusal>
    requires { cell.old.charter.pass.clock ≡ clock.now }
    ensures cell { HasMoreAside cell.old cell.new }
    ensures known { KeptCell cell.new }
    ensures none { OnOk result (HasNoLateMail cell.new) }
{
    for _ in rt.forever() {
        let brought = cell.bring_late(clock);
        cell.known();
        if let Late::NoMail = brought? {
            return Ok(());
        }
    }
    unreachable!()
}
