ghost use Rattle.std.specs.Prelude.{◌≡◌, [], ◌∷◌, map, IfOk, OnOk, ⊤};
ghost use Rattle.std.specs.List.{range_with_len};
ghost use Rattle.std.specs.Thread.{IsSync};
ghost use Rattle.inboxes.specs.Sides.{new_putter, took, items_from, IsDone};

use crate::pairs::{list_of, pair_of};
use inboxes::{Inbox, InboxItem, Putter, Sent, Taker, settle};
use lists::NoMemory;
use std::alloc::Global;
use std::sync::Wait;
use std::test::Fail;
use std::thread::{Threads, join};

#[derive(Drop)]
struct Number {
    value: u32,
}

impl InboxItem for Number {
    type Place = ();

    ghost fits = { λ place x. ⊤ };
}

type Taken = Vec<(u32, Number)>;

// Puts the numbers from 0 on, so many.
fn put_numbers<R: Wait>(rt: &R, mut putter: Putter<Number>, count: u32) -> Sent<Number>
    requires { putter.put ≡ [] }
    ensures inbox { result.inbox ≡ putter.inbox }
    ensures number { result.number ≡ putter.number }
    ensures put { map (λ n. n.value) result.put ≡ range_with_len 0 count }
{
    for value in 0..count {
        putter.put(rt, Number { value });
    }
    putter.last(rt)
}

// Takes all items.
fn take_all<R: Wait>(
    rt: &R,
    alloc: Global,
    mut taker: Taker<Number>,
) -> (Taker<Number>, Result<Taken, NoMemory>)
    requires { taker.heard ≡ [] }
    ensures inbox { result.0.inbox ≡ taker.inbox }
    ensures done { IsDone result.0 }
    ensures items { IfOk result.1 (λ v. v.items ≡ took result.0) }
{
    let mut items = Vec::new(alloc);
    let mut lost = false;
    for _ in rt.forever() {
        match taker.take(rt) {
            Some(item) => lost = items.push(item).is_err() || lost,
            None => break,
        }
    }
    (taker, if lost { Err(NoMemory) } else { Ok(items) })
}

// An inbox with two putters.
fn inbox_of_two<R: Wait>(
    rt: &R,
    alloc: Global,
) -> Result<(Taker<Number>, Putter<Number>, Putter<Number>), NoMemory>
    ensures taker { IfOk result (λ r. r.0.heard ≡ []) }
    ensures first { IfOk result (λ r. r.1 ≡ new_putter r.0.inbox 0) }
    ensures second { IfOk result (λ r. r.2 ≡ new_putter r.0.inbox 1) }
{
    let (taker, putters) = Inbox::open::<Number, R>(rt, alloc, 4, 2, &())?;
    let (first, second) = pair_of(putters);
    Ok((taker, first, second))
}

// Two threads put numbers.
fn put_both<R: Threads + Wait + Sync>(
    rt: &R,
    first: Putter<Number>,
    second: Putter<Number>,
    count: u32,
) -> (Sent<Number>, Sent<Number>)
    requires { (first.put ≡ []) × (second.put ≡ []) }
    ensures inbox { (result.0.inbox ≡ first.inbox) × (result.1.inbox ≡ second.inbox) }
    ensures number { (result.0.number ≡ first.number) × (result.1.number ≡ second.number) }
    ensures first { map (λ n. n.value) result.0.put ≡ range_with_len 0 count }
    ensures second { map (λ n. n.value) result.1.put ≡ range_with_len 0 count }
{
    join(
        rt,
        || put_numbers(rt, first, count),
        || put_numbers(rt, second, count),
    )
}

// What was taken of two senders is what they put.
fn settle_two(
    alloc: Global,
    mut taker: Taker<Number>,
    one: Sent<Number>,
    two: Sent<Number>,
) -> Result<(), NoMemory>
    requires own { (one.inbox ≡ taker.inbox) × (two.inbox ≡ taker.inbox) }
    requires numbers { (one.number ≡ 0) × (two.number ≡ 1) }
    requires done { IsDone taker }
    ensures one { OnOk result (items_from 0 (took taker) ≡ one.put) }
    ensures two { OnOk result (items_from 1 (took taker) ≡ two.put) }
{
    settle(&mut taker, list_of(alloc, one, two)?);
    Ok(())
}

// Two threads put numbers, and a third takes them.
fn send_side_by_side<R: Threads + Wait + Sync>(
    rt: &R,
    alloc: Global,
    count: u32,
) -> Result<Taken, NoMemory>
    ensures first { IfOk result (λ v.
        map (λ n. n.value) (items_from 0 v.items) ≡ range_with_len 0 count) }
    ensures second { IfOk result (λ v.
        map (λ n. n.value) (items_from 1 v.items) ≡ range_with_len 0 count) }
{
    let (taker, first, second) = inbox_of_two::<R>(rt, alloc)?;
    let ((taker, items), (one, two)) = join(
        rt,
        || -> (Taker<Number>, Result<Taken, NoMemory>)
            requires { taker.heard ≡ [] }
            ensures inbox { result.0.inbox ≡ taker.inbox }
            ensures done { IsDone result.0 }
            ensures items { IfOk result.1 (λ v. v.items ≡ took result.0) }
        { take_all(rt, alloc, taker) },
        || -> (Sent<Number>, Sent<Number>)
            requires { IsSync R.row × (first.put ≡ []) × (second.put ≡ []) }
            ensures inbox { (result.0.inbox ≡ first.inbox) × (result.1.inbox ≡ second.inbox) }
            ensures number { (result.0.number ≡ first.number) × (result.1.number ≡ second.number) }
            ensures first { map (λ n. n.value) result.0.put ≡ range_with_len 0 count }
            ensures second { map (λ n. n.value) result.1.put ≡ range_with_len 0 count }
        { put_both(rt, first, second, count) },
    );
    settle_two(alloc, taker, one, two)?;
    items
}

// How far the numbers of a sender count up from 0.
fn counted_of(items: &[(u32, Number)], sender: u32) -> u64 {
    let mut next = 0;
    for item in items {
        if item.0 == sender && u64::from(item.1.value) == next {
            next = u64::from(item.1.value) + 1;
        }
    }
    next
}

// Whether a hundred numbers came of each of two senders.
fn are_counted(items: Taken) -> bool {
    let items = items.as_slice();
    items.len() == 200 && counted_of(items, 0) == 100 && counted_of(items, 1) == 100
}

#[test]
fn two_threads_send(rt: HostRuntime) -> Result<(), Fail> {
    let items = send_side_by_side(&rt, rt.alloc(), 100)?;
    assert!(rt; are_counted(items));
    Ok(())
}
