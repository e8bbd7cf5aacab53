ghost use Rattle.std.specs.Prelude.{◌≡◌, ◌+◌, ◌<◌, ◌≤◌, false, [], ◌∷◌, ◌++◌, length, All, Some, None, IfOk, IfSome, IfNone};
ghost use Rattle.crossbeam_channel.specs.Claims.{view, IsSeatAt};
ghost use Rattle.crossbeam_channel.specs.Ends.{sends_on, receives_on, ruled_capacity};
ghost use Rattle.crossbeam_channel.specs.Fifo.{Pushes, Pops, Learns};
ghost use Rattle.inboxes.specs.Parcels.{Keeps, taking, start, has_ended, words_of};
ghost use Rattle.inboxes.specs.Sides.{inbox_of, room_of, new_putter, AreNew, put_more, took, items_from, was_last_taken, IsDone, TookNext, TookLasts, IsSettled, IsTaking, IsSameSeat, HeardNext, HeardLasts};

use crate::InboxItem;
use crate::rule::{
    GiveAccount, NextSender, Parcel, Rule, SendStart, SendWord, Settle, TakeAccount, TakeStart,
    TakeWord, View,
};
use crossbeam_channel::protocol::{Lesson, Outcome};
use crossbeam_channel::{Pass, RuledReceiver, RuledSender, bounded_with};
use lists::{ItemList, NoMemory};
use std::alloc::Global;
use std::marker::Model;
use std::snapshot::Snapshot;
use std::sync::Wait;
use std::thread;

type InboxParcel<T> = Parcel<T, <T as InboxItem>::Place>;

type InboxView<T> = View<T, <T as InboxItem>::Place>;

type InboxPass<T> = Pass<InboxParcel<T>, InboxView<T>>;

type SendEnd<T> = RuledSender<InboxParcel<T>, InboxView<T>, Rule>;

type ReceiveEnd<T> = RuledReceiver<InboxParcel<T>, InboxView<T>, Rule>;

/// Opens inboxes.
pub struct Inbox;

// One sender of an inbox, before its last word or after it.
struct Sender<T: InboxItem> {
    end: SendEnd<T>,
    pass: InboxPass<T>,
    place: Snapshot<T::Place>,
    number: u32,
}

// By hand, as for takers: a derived drop is proved anew wherever one is let go.
impl<T: InboxItem> Drop for Sender<T> {
    fn drop(self) {
        let Sender {
            end: _end,
            pass: _pass,
            place: _place,
            number: _number,
        } = self;
    }
}

/// The right to put items into an inbox, as one of its senders. Contracts see the inbox, the sender's number, and the items
/// that it put, which are kept in proofs alone.
#[derive(Drop)]
pub struct Putter<T: InboxItem> {
    sender: Sender<T>,
}

impl<T: InboxItem> Model for Putter<T> {
    ghost use Rattle.crossbeam_channel.specs.Claims.{IsSeatAt};
    ghost use Rattle.crossbeam_channel.specs.Ends.{sends_on};
    ghost use Rattle.inboxes.specs.Sides.{Putting, putting_of, known_by, IsSending};

    ghost Value = { Putting T T.Place };

    ghost view = { λ p. putting_of p.sender.pass p.sender.place.value p.sender.number };

    ghost invariant = { λ p. IsSeatAt (sends_on p.sender.end) p.sender.pass
        × IsSending (known_by p.sender.pass) p.sender.place.value p.sender.number };
}

/// The putters of an inbox. A putter's number is its place in the list that `Inbox::open` gives, counted from 0.
pub type Putters<T> = ItemList<Putter<T>>;

/// What is left of a putter after its last word. Contracts see of it what they see of the putter.
#[derive(Drop)]
pub struct Sent<T: InboxItem> {
    sender: Sender<T>,
}

impl<T: InboxItem> Model for Sent<T> {
    ghost use Rattle.crossbeam_channel.specs.Claims.{IsSeatAt};
    ghost use Rattle.crossbeam_channel.specs.Ends.{sends_on};
    ghost use Rattle.inboxes.specs.Sides.{Putting, putting_of, known_by, IsSent};

    ghost Value = { Putting T T.Place };

    ghost view = { λ s. putting_of s.sender.pass s.sender.place.value s.sender.number };

    ghost invariant = { λ s. IsSeatAt (sends_on s.sender.end) s.sender.pass
        × IsSent (known_by s.sender.pass) s.sender.number };
}

/// What is left of several putters of an inbox.
pub type Sents<T> = ItemList<Sent<T>>;

/// The right to take items from an inbox. Contracts see the inbox, how many senders it has, and what was taken: the items
/// with their senders' numbers, and the last words that were passed over. The list is kept in proofs alone.
pub struct Taker<T: InboxItem> {
    end: ReceiveEnd<T>,
    pass: InboxPass<T>,
    place: Snapshot<T::Place>,
    senders: u32,
    lasts: u32,
}

impl<T: InboxItem> Drop for Taker<T> {
    fn drop(self) {
        let Taker {
            end: _end,
            pass: _pass,
            place: _place,
            senders: _senders,
            lasts: _lasts,
        } = self;
    }
}

impl<T: InboxItem> Model for Taker<T> {
    ghost use Rattle.crossbeam_channel.specs.Claims.{IsSeatAt};
    ghost use Rattle.crossbeam_channel.specs.Ends.{receives_on};
    ghost use Rattle.inboxes.specs.Sides.{Taking, inbox_of, known_by, IsTaking};

    ghost Value = { Taking T T.Place };

    ghost view = { λ t. record {
      inbox = inbox_of t.pass t.place.value;
      senders = t.senders;
      heard = (known_by t.pass).heard;
    } };

    ghost invariant = { λ t. IsSeatAt (receives_on t.end) t.pass
        × IsTaking (known_by t.pass) t.place.value t.senders t.lasts };
}

impl Inbox {
    /// An inbox of a place, which holds so many items at a time and has so many senders, from 1 to 65,536. It gives the
    /// taker, and a putter for each sender.
    pub fn open<T: InboxItem, R: Wait>(
        rt: &R,
        alloc: Global,
        room: u32,
        senders: u32,
        place: &T::Place,
    ) -> Result<(Taker<T>, Putters<T>), NoMemory>
        requires room { 1 ≤ room }
        requires senders { (1 ≤ senders) × (senders ≤ 65536) }
        ensures room { IfOk result (λ r. room_of r.0.inbox ≡ room) }
        ensures place { IfOk result (λ r. r.0.inbox.place ≡ place.now) }
        ensures senders { IfOk result (λ r. r.0.senders ≡ senders) }
        ensures heard { IfOk result (λ r. r.0.heard ≡ []) }
        ensures all { IfOk result (λ r. length r.1 ≡ senders) }
        ensures each { IfOk result (λ r. AreNew r.0.inbox r.1 senders) }
    {
        let Ok((end, from, mut pass)) = bounded_with::<InboxParcel<T>, InboxView<T>, Rule, Global>(
            alloc,
            room as usize,
        ) else {
            return Err(NoMemory);
        };
        send_post::<T, SendStart, R>(
            rt,
            &end,
            &mut pass,
            Parcel::Open(Snapshot::of(place), senders),
        );
        let _start = receive_post::<T, TakeStart, R>(rt, &from, &mut pass);
        let putters = hand_out::<T>(alloc, &end, &mut pass, place, senders)?;
        let taker = Taker {
            end: from,
            pass,
            place: Snapshot::of(place),
            senders,
            lasts: 0,
        };
        Ok((taker, putters))
    }
}

impl<T: InboxItem> Putter<T> {
    /// Waits for room, and puts an item. Where the taker was let go it doesn't return.
    pub fn put<R: Wait>(&mut self, rt: &R, item: T)
        requires { T.fits self.old.inbox.place item }
        ensures { self.new ≡ put_more self.old item }
    {
        let sender = &mut self.sender;
        send_post::<T, SendWord, R>(
            rt,
            &sender.end,
            &mut sender.pass,
            Parcel::Said(sender.number, Some(item)),
        );
    }

    /// Waits for room, and puts the sender's last word. Where the taker was let go it doesn't return.
    pub fn last<R: Wait>(self, rt: &R) -> Sent<T>
        ensures { result ≡ self }
    {
        let Putter { mut sender } = self;
        send_post::<T, SendWord, R>(
            rt,
            &sender.end,
            &mut sender.pass,
            Parcel::Said(sender.number, None),
        );
        Sent { sender }
    }
}

impl<T: InboxItem> Taker<T> {
    /// Waits for the next item, and takes it with its sender's number. Last words are passed over. None exactly where the
    /// last word of every sender was taken.
    pub fn take<R: Wait>(&mut self, rt: &R) -> Option<(u32, T)>
        ensures some { IfSome result (λ r. TookNext self.old r.0 r.1 self.new) }
        ensures took { IfSome result (λ r. took self.new ≡ took self.old ++ r ∷ []) }
        ensures sender { IfSome result (λ r. r.0 < self.old.senders) }
        ensures fits { IfSome result (λ r. T.fits self.old.inbox.place r.1) }
        ensures going { IfSome result (λ r. was_last_taken r.0 self.new ≡ false) }
        ensures none { IfNone result (TookLasts self.old self.new) }
        ensures kept { IfNone result (took self.new ≡ took self.old) }
        ensures done { IfNone result (IsDone self.new) }
        ensures senders { IfNone result (All (λ i. i.0 < self.new.senders) (took self.new)) }
    {
        take_next::<T, R>(
            rt,
            &self.end,
            &mut self.pass,
            &self.place,
            self.senders,
            &mut self.lasts,
        )
    }
}

/// Where the last word of each sender was taken: what was taken of these senders is what they put, in their order, each item
/// once, and then the last word.
pub fn settle<T: InboxItem>(taker: &mut Taker<T>, mut sents: Sents<T>)
    requires own { All (λ s. s.inbox ≡ taker.old.inbox) sents }
    requires done { IsDone taker.old }
    ensures taker { taker.new ≡ taker.old }
    ensures items { All (λ s. items_from s.number (took taker.old) ≡ s.put) sents }
    ensures settled { All (IsSettled taker.old) sents }
{
    while let Some(sent) = sents.pop() {
        settle_one(taker, sent);
    }
}

// The same for one sender.
fn settle_one<T: InboxItem>(taker: &mut Taker<T>, sent: Sent<T>)
    requires own { sent.inbox ≡ taker.old.inbox }
    requires done { IsDone taker.old }
    ensures taker { taker.new ≡ taker.old }
    ensures settled { IsSettled taker.old sent }
{
    let Sent { mut sender } = sent;
    let account = sender.end.another::<GiveAccount>(&mut sender.pass);
    sender.end.absorb::<TakeAccount>(&mut taker.pass, account);
    sender.end.learn_as::<Settle>(&mut taker.pass);
}

// Sends a parcel, and tries again where the channel hands it back.
fn send_post<T, M, R>(rt: &R, end: &SendEnd<T>, pass: &mut InboxPass<T>, mut parcel: InboxParcel<T>)
where
    T: InboxItem,
    M: Outcome<InboxParcel<T>, InboxView<T>> + Lesson<InboxParcel<T>, InboxView<T>>,
    R: Wait,
    requires own { IsSeatAt (sends_on end.now) pass.old }
    requires rule { Pushes (Keeps T.fits) (ruled_capacity (sends_on end.now))
        pass.old.id (view pass.old) parcel (M.then (view pass.old) parcel) }
    requires fact { Learns (Keeps T.fits) pass.old.id (view pass.old) (M.fact (view pass.old)) }
    ensures own { IsSeatAt (sends_on end.now) pass.new }
    ensures same { IsSameSeat pass.old pass.new }
    ensures sent { M.then (view pass.old) parcel (view pass.new) }
{
    for _ in rt.forever() {
        match end.send_as::<M, R>(rt, pass, parcel) {
            Ok(()) => return,
            Err(e) => parcel = e.into_inner(),
        }
        thread::yield_now();
    }
    unreachable!()
}

// Receives a parcel, and tries again where the channel gives none.
fn receive_post<T, M, R>(rt: &R, end: &ReceiveEnd<T>, pass: &mut InboxPass<T>) -> InboxParcel<T>
where
    T: InboxItem,
    M: Outcome<InboxParcel<T>, InboxView<T>> + Lesson<InboxParcel<T>, InboxView<T>>,
    R: Wait,
    requires own { IsSeatAt (receives_on end.now) pass.old }
    requires rule { Pops (Keeps T.fits) pass.old.id (view pass.old) (M.then (view pass.old)) }
    requires fact { Learns (Keeps T.fits) pass.old.id (view pass.old) (M.fact (view pass.old)) }
    ensures own { IsSeatAt (receives_on end.now) pass.new }
    ensures same { IsSameSeat pass.old pass.new }
    ensures received { M.then (view pass.old) result (view pass.new) }
{
    for _ in rt.forever() {
        if let Ok(parcel) = end.recv_as::<M, R>(rt, pass) {
            return parcel;
        }
        thread::yield_now();
    }
    unreachable!()
}

// The putters of an inbox that has made none.
fn hand_out<T: InboxItem>(
    alloc: Global,
    end: &SendEnd<T>,
    pass: &mut InboxPass<T>,
    place: &T::Place,
    senders: u32,
) -> Result<Putters<T>, NoMemory>
    requires own { IsSeatAt (sends_on end.now) pass.old }
    requires first { view pass.old ≡ taking (Some (start place.now senders)) 0 [] }
    ensures own { IsSeatAt (sends_on end.now) pass.new }
    ensures same { IsSameSeat pass.old pass.new }
    ensures made { IfOk result (λ list.
        view pass.new ≡ taking (Some (start place.now senders)) senders []) }
    ensures all { IfOk result (λ list. length list ≡ senders) }
    ensures each { IfOk result (λ list. AreNew (inbox_of pass.old place.now) list senders) }
{
    let mut list = ItemList::new(alloc);
    for number in 0..senders {
        list.push(make_putter::<T>(end, pass, place, number, senders)?)?;
    }
    Ok(list)
}

// The next putter.
fn make_putter<T: InboxItem>(
    end: &SendEnd<T>,
    pass: &mut InboxPass<T>,
    place: &T::Place,
    number: u32,
    senders: u32,
) -> Result<Putter<T>, NoMemory>
    requires own { IsSeatAt (sends_on end.now) pass.old }
    requires made { view pass.old ≡ taking (Some (start place.now senders)) number [] }
    requires more { number < senders }
    ensures own { IsSeatAt (sends_on end.now) pass.new }
    ensures same { IsSameSeat pass.old pass.new }
    ensures made { IfOk result (λ p.
        view pass.new ≡ taking (Some (start place.now senders)) (number + 1) []) }
    ensures new { IfOk result (λ p. p ≡ new_putter (inbox_of pass.old place.now) number) }
{
    let end = end.try_clone()?;
    let sender = Sender {
        pass: end.another::<NextSender>(pass),
        end,
        place: Snapshot::of(place),
        number,
    };
    Ok(Putter { sender })
}

// Takes the next item, unless the last words of all senders were taken.
fn take_next<T: InboxItem, R: Wait>(
    rt: &R,
    end: &ReceiveEnd<T>,
    pass: &mut InboxPass<T>,
    place: &Snapshot<T::Place>,
    senders: u32,
    lasts: &mut u32,
) -> Option<(u32, T)>
    requires own { IsSeatAt (receives_on end.now) pass.old }
    requires takes { IsTaking (view pass.old) place.now.value senders lasts.old }
    ensures own { IsSeatAt (receives_on end.now) pass.new }
    ensures same { IsSameSeat pass.old pass.new }
    ensures takes { IsTaking (view pass.new) place.now.value senders lasts.new }
    ensures some { IfSome result (λ r. HeardNext (view pass.old) r.0 r.1 (view pass.new)) }
    ensures sender { IfSome result (λ r. r.0 < senders) }
    ensures fits { IfSome result (λ r. T.fits place.now.value r.1) }
    ensures going { IfSome result (λ r.
        has_ended (words_of r.0 (view pass.new).heard) ≡ false) }
    ensures none { IfNone result (HeardLasts (view pass.old) (view pass.new)) }
    ensures done { IfNone result (lasts.new ≡ senders) }
{
    for _ in rt.forever() {
        if *lasts == senders {
            return None;
        }
        match receive_post::<T, TakeWord, R>(rt, end, pass) {
            Parcel::Said(from, Some(item)) => return Some((from, item)),
            Parcel::Said(_, None) => *lasts += 1,
            Parcel::Open(..) => unreachable!(),
        }
    }
    unreachable!()
}
