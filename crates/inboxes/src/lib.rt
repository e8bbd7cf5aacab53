//! Inboxes, into which several threads put items and from which one thread takes them. Of each sender the taker gets just
//! the items that the sender put, in its order.
#![tactic(auto)]

pub mod inbox;
mod rule;

pub use inbox::{Inbox, Putter, Putters, Sent, Sents, Taker, settle};

/// What may be put into an inbox. Each inbox has a place, which is given when it is opened, and whoever takes an item knows
/// that it fits the place.
pub trait InboxItem: Drop {
    /// What an inbox is for.
    type Place;

    /// What holds of each item in an inbox of this place.
    ghost fits: { Self.Place → Self → Type 0 };
}
