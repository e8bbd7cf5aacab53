ghost use Rattle.std.specs.Prelude.{◌≡◌, ◌+◌, ◌≤◌, [], ◌∷◌, length, map, IfOk, IfSome};
ghost use Rattle.event_clock.specs.Views.{IsDrawnOnce};
ghost use Rattle.event_clock.specs.Passes.{left_of};

use crate::pairs::{list_of, pair_of};
use event_clock::{Clock, Drawn, Pass};
use lists::NoMemory;
use std::alloc::Global;
use std::test::Fail;
use std::thread::{Threads, join};

/// A clock, and its two passes.
pub fn clock_of_two(alloc: Global) -> Result<(Clock, Pass, Pass), NoMemory>
    ensures passes { IfOk result (λ r. r.0.passes ≡ 2) }
    ensures first { IfOk result (λ r. (r.1.clock ≡ r.0) × (r.1.drawn ≡ [])) }
    ensures second { IfOk result (λ r. (r.2.clock ≡ r.0) × (r.2.drawn ≡ [])) }
{
    let (clock, passes) = Clock::start(alloc, 2)?;
    let (first, second) = pair_of(passes);
    Ok((clock, first, second))
}

// One thread draws twice for each pass, in turn. Where it got other numbers than 0, 1, 2 and 3 there is none.
fn draw_in_turn(alloc: Global) -> Result<Option<Drawn>, NoMemory>
    ensures { IfOk result (λ drawn. IfSome drawn (λ d. map (λ s. s.drawn) d.shares
        ≡ (0 ∷ 2 ∷ []) ∷ (1 ∷ 3 ∷ []) ∷ [])) }
{
    let (clock, mut first, mut second) = clock_of_two(alloc)?;
    let one = clock.draw(&mut first);
    let two = clock.draw(&mut second);
    let three = clock.draw(&mut first);
    let four = clock.draw(&mut second);
    if one != 0 || two != 1 || three != 2 || four != 3 {
        return Ok(None);
    }
    Ok(Some(clock.close(list_of(alloc, first, second)?)))
}

fn count_in_turn(alloc: Global) -> Result<Option<u64>, NoMemory> {
    match draw_in_turn(alloc)? {
        Some(drawn) => Ok(Some(drawn.count())),
        None => Ok(None),
    }
}

#[test]
fn one_thread_draws_in_turn(rt: HostRuntime) {
    assert!(rt; count_in_turn(rt.alloc()) == Ok(Some(4)));
}

fn draw_many(clock: &Clock, mut pass: Pass, times: u32) -> Pass
    requires own { pass.clock ≡ clock.now }
    requires left { times ≤ left_of pass }
    ensures own { result.clock ≡ pass.clock }
    ensures drawn { length result.drawn ≡ length pass.drawn + times }
{
    for _ in 0..times {
        clock.draw(&mut pass);
    }
    pass
}

// Two threads draw a thousand numbers each.
fn draw_side_by_side<R: Threads + Sync>(rt: &R, alloc: Global) -> Result<Drawn, NoMemory>
    ensures lists { IfOk result (λ d. map (λ s. length s.drawn) d.shares ≡ 1000 ∷ 1000 ∷ []) }
    ensures once { IfOk result (λ d. IsDrawnOnce 2000 d.shares) }
{
    let (clock, first, second) = clock_of_two(alloc)?;
    let (first, second) = join(
        rt,
        || draw_many(&clock, first, 1000),
        || draw_many(&clock, second, 1000),
    );
    Ok(clock.close(list_of(alloc, first, second)?))
}

#[test]
fn two_threads_draw(rt: HostRuntime) -> Result<(), Fail> {
    let count = draw_side_by_side(&rt, rt.alloc())?.count();
    assert!(rt; count == 2000);
    Ok(())
}

// Whether a note of a pass that drew one number lets the other pass see that number.
fn heeds(clock: &Clock, first: &mut Pass, second: &mut Pass) -> bool
    requires first { (first.old.clock ≡ clock.now) × (first.old.drawn ≡ []) }
    requires second { second.old.clock ≡ clock.now }
{
    clock.draw(first);
    let note = clock.note(first);
    let is_before = first.seen() == 1 && second.seen() == 0;
    clock.heed(second, note);
    is_before && second.seen() == 1
}

fn note_is_heeded(alloc: Global) -> Result<bool, NoMemory> {
    let (clock, mut first, mut second) = clock_of_two(alloc)?;
    Ok(heeds(&clock, &mut first, &mut second))
}

#[test]
fn a_note_is_heeded(rt: HostRuntime) {
    assert!(rt; note_is_heeded(rt.alloc()) == Ok(true));
}
