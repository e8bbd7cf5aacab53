//! One pass meets all others.
ghost use Rattle.std.specs.Prelude.{◌≡◌, ◌≤◌, All};
ghost use Rattle.std.specs.List.{AllZip};
ghost use Rattle.locked_nodes.specs.Cells.{KeptCell};
ghost use Rattle.client_desks.specs.Desks.{KeptDesk};
ghost use Rattle.client_threads.specs.Met.{HasMetCell, HasMetSeat, IsKeeper};
ghost use Rattle.client_threads.specs.Running.{desks_of};

use client_duties::ClientDuty;
use event_clock::{Clock, Pass};
use locked_nodes::NodeCell;
use phase_threads::Seat;

/// Lets the pass meet that of each cell.
pub(crate) fn meet_cells(clock: &Clock, keeper: &mut Pass, cells: &mut [NodeCell])
    requires keeper { keeper.old.clock ≡ clock.now }
    requires cells { All (λ c. c.charter.pass.clock ≡ clock.now) cells.old }
    ensures keeper { IsKeeper keeper.old keeper.new }
    ensures cells { AllZip HasMetCell cells.old cells.new }
    ensures seen { All (λ c.
        (keeper.old.seen ≤ c.pass.seen) × (c.pass.seen ≤ keeper.new.seen)) cells.new }
    ensures kept { All KeptCell cells.new }
{
    for cell in cells.iter_mut() {
        cell.meet(clock, keeper);
        cell.known();
    }
}

/// Lets the pass meet that of each client's desk.
pub(crate) fn meet_desks(clock: &Clock, keeper: &mut Pass, seats: &mut [Seat<ClientDuty>])
    requires keeper { keeper.old.clock ≡ clock.now }
    requires desks { All (λ s. s.desk.pass.clock ≡ clock.now) seats.old }
    ensures keeper { IsKeeper keeper.old keeper.new }
    ensures seats { AllZip HasMetSeat seats.old seats.new }
    ensures seen { All (λ s.
        (keeper.old.seen ≤ s.desk.pass.seen) × (s.desk.pass.seen ≤ keeper.new.seen)) seats.new }
    ensures kept { All KeptDesk (desks_of seats.new) }
{
    for seat in seats.iter_mut() {
        seat.desk.meet(clock, keeper);
        seat.desk.known();
    }
}
