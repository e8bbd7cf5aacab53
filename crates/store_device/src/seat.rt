ghost use Rattle.std.specs.Prelude.{◌≡◌, ℕ, ◌<◌, ◌||◌, true, false, None, Some, is_some, length, map, All, IfOk, OnOk, slice_index_or};
ghost use Rattle.store_device.specs.Working.{HasWorked, WorksIn};
ghost use Rattle.store_device.specs.Answered.{RepliesIn, answer_of, gave, is_memory};

use crate::forms::form_all;
use batch_clients::{Answers, Asks};
use disk_model::Disk;
use lists::NoMemory;
use std::alloc::Global;
use std::mem::swap;
use std::thread::{Threads, for_each_mut};
use version_disk::{Replies, StoreRefusal, StoredNode};
use wire_forms::{Ask, Request};

/// A seat for a node: the node, if one sits there, what it is to answer, what it answered, and whether it found no memory for that.
#[derive(Drop)]
pub(crate) struct Seat<D: Disk> {
    pub(crate) node: Option<StoredNode<D>>,
    pub(crate) asks: Vec<Ask>,
    pub(crate) replies: Option<Replies>,
    pub(crate) starved: bool,
}

impl<D: Disk> Seat<D> {
    /// Has the node answer its asks. One that isn't up, finds no memory or room, or whose disk fails gives no answer.
    pub(crate) fn work(&mut self)
        ensures works { WorksIn D.pending D.seen D.moment D.left_since self.old.asks.items
            self.new.replies self.old.node self.new.node }
        ensures replied { RepliesIn D.seen D.most (length self.old.asks.items)
            (self.new.starved || is_some self.new.replies) self.old.node self.new.node }
    {
        match answer_in(&mut self.node, self.asks.as_slice()) {
            Ok(replies) => {
                self.replies = replies;
                self.starved = false;
            }
            Err(NoMemory) => {
                self.replies = None;
                self.starved = true;
            }
        }
    }
}

/// What the node that sits there answers to the asks, if one does.
fn answer_in<D: Disk>(
    seat: &mut Option<StoredNode<D>>,
    asks: &[Ask],
) -> Result<Option<Replies>, NoMemory>
    ensures works { WorksIn D.pending D.seen D.moment D.left_since asks.now (answer_of result) seat.old seat.new }
    ensures replied { RepliesIn D.seen D.most (length asks.now) (gave result) seat.old seat.new }
{
    let Some(node) = seat else {
        return Ok(None);
    };
    answer(node, asks)
}

/// What the node answers to the asks, if it does.
fn answer<D: Disk>(node: &mut StoredNode<D>, asks: &[Ask]) -> Result<Option<Replies>, NoMemory>
    ensures down { node.old.broken ≡ true → (node.new ≡ node.old) × (answer_of result ≡ None) }
    ensures up { node.old.broken ≡ false → HasWorked D.pending D.seen D.moment D.left_since
        asks.now (answer_of result) node.old node.new }
    ensures replied { RepliesIn D.seen D.most (length asks.now) (gave result) (Some node.old) (Some node.new) }
{
    match node.handle_all(asks) {
        Ok(replies) => {
            form_all(replies.as_slice());
            Ok(Some(replies))
        }
        Err(refusal) => silence(refusal),
    }
}

/// A node that refuses gives no answer. Want of memory is its caller's too.
fn silence(refusal: StoreRefusal) -> Result<Option<Replies>, NoMemory>
    ensures none { answer_of result ≡ None }
    ensures memory { gave result ≡ is_memory refusal }
{
    match refusal {
        StoreRefusal::NoMemory => Err(NoMemory),
        StoreRefusal::DiskFault | StoreRefusal::Broken | StoreRefusal::Full => Ok(None),
    }
}

/// A seat for each node.
pub(crate) fn seat_all<D: Disk + Drop>(
    alloc: Global,
    nodes: Vec<Option<StoredNode<D>>>,
) -> Result<Vec<Seat<D>>, NoMemory>
    ensures { IfOk result (λ seats. map (λ seat. seat.node) seats.items ≡ nodes.items) }
{
    let mut seats = Vec::with_capacity(alloc, nodes.len())?;
    for node in nodes {
        seats.push(Seat {
            node,
            asks: Vec::new(alloc),
            replies: None,
            starved: false,
        })?;
    }
    Ok(seats)
}

/// Hands each node what it is to answer.
pub(crate) fn hand_out<D: Disk>(seats: &mut [Seat<D>], asks: Asks)
    requires { length asks.items ≡ length seats.old }
    ensures nodes { map (λ seat. seat.node) seats.new ≡ map (λ seat. seat.node) seats.old }
    ensures asks { map (λ seat. seat.asks.items) seats.new ≡ map (λ a. a.items) asks.items }
{
    let mut asks = asks;
    for (i, seat) in seats.iter_mut().enumerate() {
        swap(&mut seat.asks, &mut asks[i]);
    }
}

/// Has each node answer its asks. Where more than one of them is to write, they work at once, in so many threads at most.
pub(crate) fn work<D: Disk + Send, R: Threads + Sync>(rt: &R, threads: usize, seats: &mut [Seat<D>])
    ensures count { length seats.new ≡ length seats.old }
    ensures each { (i : ℕ) (d : _) → i < length seats.old
        → WorksIn D.pending D.seen D.moment D.left_since (slice_index_or seats.old i d).asks.items
        (slice_index_or seats.new i d).replies (slice_index_or seats.old i d).node
        (slice_index_or seats.new i d).node }
    ensures replied { (i : ℕ) (d : _) → i < length seats.old
        → RepliesIn D.seen D.most (length (slice_index_or seats.old i d).asks.items)
        ((slice_index_or seats.new i d).starved || is_some (slice_index_or seats.new i d).replies)
        (slice_index_or seats.old i d).node (slice_index_or seats.new i d).node }
{
    let threads = if write_at_once(seats) { threads } else { 1 };
    for_each_mut(rt, seats, threads.max(1), &|_, seat| seat.work());
}

/// Whether more than one node is asked to write. What changes no disk takes less time than a thread does to begin.
fn write_at_once<D: Disk>(seats: &[Seat<D>]) -> bool {
    let mut writes = false;
    for seat in seats {
        if is_write(&seat.asks) {
            if writes {
                return true;
            }
            writes = true;
        }
    }
    false
}

/// Whether one of the asks is a write.
fn is_write(asks: &[Ask]) -> bool {
    for ask in asks {
        if matches!(ask.request, Request::Write(_)) {
            return true;
        }
    }
    false
}

/// Sees that no node found too little memory to answer.
pub(crate) fn none_starved<D: Disk>(seats: &[Seat<D>]) -> Result<(), NoMemory>
    ensures { OnOk result (All (λ seat. seat.starved ≡ false) seats.now) }
{
    for seat in seats {
        if seat.starved {
            return Err(NoMemory);
        }
    }
    Ok(())
}

/// Takes what each node answered.
pub(crate) fn gather<D: Disk>(alloc: Global, seats: &mut [Seat<D>]) -> Result<Answers, NoMemory>
    ensures nodes { map (λ seat. seat.node) seats.new ≡ map (λ seat. seat.node) seats.old }
    ensures answers { IfOk result (λ answers.
        answers.items ≡ map (λ seat. seat.replies) seats.old) }
{
    let mut answers = Vec::with_capacity(alloc, seats.len())?;
    for seat in seats.iter_mut() {
        answers.push(seat.replies.take())?;
    }
    Ok(answers)
}
