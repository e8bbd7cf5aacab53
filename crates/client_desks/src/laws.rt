//! When a desk went on, each law the contract of a function that does nothing.

ghost use Rattle.client_desks.specs.Desks.{DeskView};
ghost use Rattle.client_desks.specs.Later.{IsLater, GoesOn, OwnIsLater, CallIsLater};

/// A desk that did nothing went on; so did one with an entry more, whose number is not below what its pass had seen; and what goes
/// on from there went on from the first.
pub fn desks_go_on()
    ensures same { (d : DeskView) → IsLater d d }
    ensures on { GoesOn }
    ensures own { OwnIsLater }
    ensures call { CallIsLater }
{}
