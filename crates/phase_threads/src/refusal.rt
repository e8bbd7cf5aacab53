//! Which refusal counts.
ghost use Rattle.std.specs.Prelude.{◌≡◌, ◌↔◌, ◌⊎◌, None, Some};

use locked_nodes::CellRefusal;

/// The refusal that counts of two, where each may be none: none exactly where neither is there, want of memory where one of both
/// is want of memory, and else the other kind.
pub fn first_refusal(one: Option<CellRefusal>, other: Option<CellRefusal>) -> Option<CellRefusal>
    ensures none { (result ≡ None) ↔ ((one ≡ None) × (other ≡ None)) }
    ensures memory { (result ≡ Some CellRefusal.NoMemory)
        ↔ ((one ≡ Some CellRefusal.NoMemory) ⊎ (other ≡ Some CellRefusal.NoMemory)) }
{
    match (one, other) {
        (None, _) => other,
        (_, None) => one,
        (Some(CellRefusal::ClockFull), Some(CellRefusal::ClockFull)) => one,
        _ => Some(CellRefusal::NoMemory),
    }
}
