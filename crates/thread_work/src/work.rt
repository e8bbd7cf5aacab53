//! A thread for each thread state.
ghost use Rattle.std.specs.Prelude.{◌≡◌, ◌<◌, ℕ, All, length, slice_index_or};

use crate::gate::Gate;
use std::sync::Wait;
use std::thread::{Threads, for_each_mut};

/// Work that threads do on states of their own, beside what they share.
pub trait ThreadWork<P> {
    /// What must hold of what is shared and of a thread state, before its thread works.
    ghost can_work: { Self → P → Type 0 };

    /// What holds of what is shared, and of a thread state before its thread has worked and after.
    ghost works: { Self → P → P → Type 0 };

    /// What the thread of a thread state does.
    fn work<R: Wait, G: Gate>(&self, rt: &R, gate: &G, state: &mut P)
        requires { can_work self.now state.old }
        ensures { works self.now state.old state.new };
}

/// Each thread state has a thread of its own. Where a thread can't be made, another one does its work.
pub fn each<R: Threads + Wait + Sync, G: Gate + Sync, P: Send, C: ThreadWork<P> + Sync>(
    rt: &R,
    gate: &G,
    work: &C,
    states: &mut [P],
)
    requires can { All (C.can_work work.now) states.old }
    ensures count { length states.new ≡ length states.old }
    ensures done { (i : ℕ) (d : P) → i < length states.old →
        C.works work.now (slice_index_or states.old i d) (slice_index_or states.new i d) }
{
    let threads = states.len();
    if threads == 0 {
        return;
    }
    for_each_mut(rt, states, threads, &|_, state| work.work(rt, gate, state));
}
