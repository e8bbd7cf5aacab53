use cross_sum::Bytes;
use operation_core::Stage;
use run_words::{How, Nodes};
use stamp_order::Stamp;

/// What a phase comes to when it has heard enough nodes.
#[derive(Drop)]
pub(crate) enum ReadEnd {
    /// Too few answers are valid, and those of these nodes aren't.
    Outvoted(Nodes),
    /// The read gives this value.
    Gives {
        stamp: Stamp,
        value: Bytes,
        how: How,
    },
    /// A next phase begins.
    GoesOn(Stage),
}
