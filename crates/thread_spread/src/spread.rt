ghost use Rattle.std.specs.Prelude.{◌<◌};
ghost use Rattle.std.specs.Fork.{AcceptsAt, ChangesAt, AcceptsEach, ChangesEach};
ghost use Rattle.thread_spread.specs.Calls.{AcceptsPart, ChangesPart};
ghost use denote.Param.Send.{IsSync, IsSend};

use std::thread::{Threads, for_each_mut, join_mut};

/// Calls `f(i, &mut s[i])` at each place, in at most `threads` threads of about as many places each. Where there are two or more the caller only
/// waits for them. So none of them waits for it: a system that is asked for a thread often begins it on the processor that asks.
pub fn for_each_apart<R: Threads + Sync, T: Send, F: Fn(usize, &mut T) + Sync>(
    rt: &R,
    s: &mut [T],
    threads: usize,
    f: &F,
)
    requires threads { 0 < threads }
    requires accepts { AcceptsEach F.Fn f.now s.old }
    ensures { ChangesEach F.Fn f.now s.old s.new }
{
    if threads == 1 || s.is_empty() {
        for_each_mut(rt, s, 1, f);
        return;
    }
    let size = s.len().div_ceil(threads);
    parts_from(rt, f, 0, size, s);
}

// Makes the calls at the places of a part that begins at place `base`, so many in a thread.
#[cycle(parts)]
fn parts_from<R: Threads + Sync, T: Send, F: Fn(usize, &mut T) + Sync>(
    rt: &R,
    f: &F,
    base: usize,
    size: usize,
    s: &mut [T],
)
    requires some { 0 < size }
    requires accepts { AcceptsPart F.Fn f.now base s.old }
    ensures { ChangesPart F.Fn f.now base s.old s.new }
{
    if s.is_empty() {
        return;
    }
    let len = size.min(s.len());
    let (part, rest) = s.split_at_mut(len);
    part_and_rest(rt, f, base, size, part, base + len, rest);
}

// Makes the calls of a part in a thread of its own, and meanwhile has those of the rest made. Apart from `parts_from`, so that what the closures
// require is what this function is given.
#[cycle(parts)]
fn part_and_rest<R: Threads + Sync, T: Send, F: Fn(usize, &mut T) + Sync>(
    rt: &R,
    f: &F,
    base: usize,
    size: usize,
    part: &mut [T],
    up: usize,
    rest: &mut [T],
)
    requires some { 0 < size }
    requires part { AcceptsPart F.Fn f.now base part.old }
    requires rest { AcceptsPart F.Fn f.now up rest.old }
    ensures part { ChangesPart F.Fn f.now base part.old part.new }
    ensures rest { ChangesPart F.Fn f.now up rest.old rest.new }
{
    let mut here = ||
        requires { IsSync F.row × IsSend T.row × AcceptsPart F.Fn f.now base part.now }
        ensures { ChangesPart F.Fn f.entry.now base part.entry.now part.exit.now }
    { in_turn(f, base, part) };
    let mut there = ||
        requires { IsSync R.row × IsSync F.row × IsSend T.row × (0 < size) × AcceptsPart F.Fn f.now up rest.now }
        ensures { ChangesPart F.Fn f.entry.now up rest.entry.now rest.exit.now }
    { parts_from(rt, f, up, size, rest) };
    join_mut(rt, &mut here, &mut there);
}

// Makes the calls of a part one after the other.
fn in_turn<T, F: Fn(usize, &mut T)>(f: &F, base: usize, s: &mut [T])
    requires { AcceptsPart F.Fn f.now base s.old }
    ensures { ChangesPart F.Fn f.now base s.old s.new }
{
    for k in 0..s.len() {
        at_one(f, base + k, &mut s[k]);
    }
}

// Makes the call at one place.
fn at_one<T, F: Fn(usize, &mut T)>(f: &F, i: usize, it: &mut T)
    requires { AcceptsAt F.Fn f.now i it.old }
    ensures { ChangesAt F.Fn f.now i it.old it.new }
{
    f(i, it);
}
