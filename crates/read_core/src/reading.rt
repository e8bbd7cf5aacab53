use cross_sum::Bytes;
use run_words::{How, Nodes};
use stamp_order::Stamp;
use wire_forms::Mail;

/// What an answer did to a read.
#[derive(Drop)]
pub enum Reading {
    /// The phase goes on: the answer was counted, or isn't one that the phase counts.
    More,
    /// The phase has ended, and these messages of the next one are to be sent.
    Send(Mail),
    /// The read has ended, and gives this value of the block.
    Got {
        stamp: Stamp,
        value: Bytes,
        how: How,
    },
    /// The read has ended: too few answers are valid, and those of these nodes aren't.
    Outvoted(Nodes),
}
