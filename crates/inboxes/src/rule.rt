// What passes know, the rule that their steps keep, and the kinds of step.
use crate::InboxItem;
use crossbeam_channel::protocol::{Join, Lesson, Outcome, Protocol, Split};
use std::collections::LinkedList;
use std::snapshot::Snapshot;

/// What goes through the channel: first the place and the number of senders, and then what the senders say. A sender's last
/// word has no item.
#[derive(Drop)]
pub enum Parcel<T: Drop, P> {
    Open(Snapshot<P>, u32),
    Said(u32, Option<T>),
}

/// Where an inbox is, and how many senders it has. No value of it is made.
pub struct Start<P> {
    pub place: P,
    pub senders: u64,
}

/// What a pass is for: it opens the inbox, sends for one sender, takes and has made so many senders, tells what a sender
/// said, or is spent. No value of it is made.
pub enum Role {
    Opens,
    Opening,
    Sends(u64),
    Takes(u64),
    Tells,
    Spent,
}

/// All that one sender said. No value of it is made.
pub struct Account<T> {
    pub from: u64,
    pub said: LinkedList<Option<T>>,
}

/// What a pass knows: the inbox, what its sender said, what the taker heard, and what it was told of a sender. No value of
/// it is made.
pub struct View<T, P> {
    pub role: Role,
    pub start: Option<Start<P>>,
    pub said: LinkedList<Option<T>>,
    pub heard: LinkedList<(u64, Option<T>)>,
    pub told: Option<Account<T>>,
}

pub struct Rule;

impl<T: InboxItem> Protocol<Parcel<T, T::Place>, View<T, T::Place>> for Rule {
    ghost use Rattle.inboxes.specs.Parcels.{Keeps, newcomer};

    ghost holds = { Keeps T.fits };

    ghost first = { newcomer };
}

/// Sends the place and the number of senders.
pub struct SendStart;

impl<T: InboxItem> Outcome<Parcel<T, T::Place>, View<T, T::Place>> for SendStart {
    ghost use Rattle.std.specs.Prelude.{◌≡◌};
    ghost use Rattle.inboxes.specs.Parcels.{opening_of};

    ghost then = { λ v x w. w ≡ opening_of x };
}

impl<T: InboxItem> Lesson<Parcel<T, T::Place>, View<T, T::Place>> for SendStart {
    ghost use Rattle.std.specs.Prelude.{⊤};

    ghost fact = { λ v items. ⊤ };
}

/// Takes them out again, and is the taker from then on.
pub struct TakeStart;

impl<T: InboxItem> Outcome<Parcel<T, T::Place>, View<T, T::Place>> for TakeStart {
    ghost use Rattle.std.specs.Prelude.{◌≡◌, []};
    ghost use Rattle.inboxes.specs.Parcels.{taking};

    ghost then = { λ v x w. w ≡ taking v.start 0 [] };
}

impl<T: InboxItem> Lesson<Parcel<T, T::Place>, View<T, T::Place>> for TakeStart {
    ghost use Rattle.std.specs.Prelude.{⊤};

    ghost fact = { λ v items. ⊤ };
}

/// Sends an item or the last word of a sender.
pub struct SendWord;

impl<T: InboxItem> Outcome<Parcel<T, T::Place>, View<T, T::Place>> for SendWord {
    ghost use Rattle.inboxes.specs.Parcels.{Says};

    ghost then = { Says };
}

impl<T: InboxItem> Lesson<Parcel<T, T::Place>, View<T, T::Place>> for SendWord {
    ghost use Rattle.std.specs.Prelude.{⊤};

    ghost fact = { λ v items. ⊤ };
}

/// Takes an item or a last word.
pub struct TakeWord;

impl<T: InboxItem> Outcome<Parcel<T, T::Place>, View<T, T::Place>> for TakeWord {
    ghost use Rattle.inboxes.specs.Parcels.{Hears};

    ghost then = { Hears T.fits };
}

impl<T: InboxItem> Lesson<Parcel<T, T::Place>, View<T, T::Place>> for TakeWord {
    ghost use Rattle.std.specs.Prelude.{⊤};

    ghost fact = { λ v items. ⊤ };
}

/// What the taker learns of the sender that it was told of.
pub struct Settle;

impl<T: InboxItem> Lesson<Parcel<T, T::Place>, View<T, T::Place>> for Settle {
    ghost use Rattle.inboxes.specs.Parcels.{Settles};

    ghost fact = { λ v items. Settles v };
}

/// Makes the next sender.
pub struct NextSender;

impl<T, P> Split<View<T, P>> for NextSender {
    ghost use Rattle.inboxes.specs.Parcels.{with_one_more, next_sender};

    ghost left = { with_one_more };

    ghost right = { next_sender };
}

/// Cuts off an account of what a sender said.
pub struct GiveAccount;

impl<T, P> Split<View<T, P>> for GiveAccount {
    ghost use Rattle.inboxes.specs.Parcels.{account_of};

    ghost left = { λ v. v };

    ghost right = { account_of };
}

/// Takes in an account.
pub struct TakeAccount;

impl<T, P> Join<View<T, P>> for TakeAccount {
    ghost use Rattle.inboxes.specs.Parcels.{with_account, spent};

    ghost both = { with_account };

    ghost spent = { spent };
}
