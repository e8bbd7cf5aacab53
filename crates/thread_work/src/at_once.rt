//! Threads that all start, or none does.
ghost use Rattle.std.specs.Prelude.{◌≡◌, ◌≤◌, [], All, IfOk, vec_len, vec_capacity};
ghost use Rattle.thread_work.specs.declared.at_once.Started.TheVariants.{Whole, Nobody};
ghost use Rattle.thread_work.specs.Pairwise.{Beside};
ghost use Rattle.thread_work.specs.Starts.{GoesBy, IsBegun, lock_of};

use crate::gate::Gate;
use crate::work::ThreadWork;
use lists::NoMemory;
use std::alloc::Global;
use std::snapshot::Snapshot;
use std::sync::{OnceLock, OnceToken, Wait};
use std::thread;
use std::thread::{Promise, PromisedHandle, Scope, Threads};

/// What came of shared work that was to start whole.
#[derive(Drop)]
pub enum Started<P> {
    /// Each thread state was worked, in a thread of its own; all threads were made before one of them worked.
    Whole(Vec<P>),
    /// Nobody worked, and the thread states are as they were. It comes where a thread couldn't be made; no clause says so.
    Nobody(Vec<P>),
}

/// Lets each thread state have a thread of its own, all of which are made before the first one begins. Where one can't be made nobody
/// works: the threads that were made end, and the thread states come back as they were. All memory is taken before the first thread is
/// made.
pub fn each_at_once<
    'a,
    R: Threads + Wait + Sync,
    G: Gate + Sync,
    P: Send + Drop,
    C: ThreadWork<P> + Sync,
>(
    rt: &'a R,
    alloc: Global,
    gate: &'a G,
    work: &'a C,
    states: Vec<P>,
) -> Result<Started<P>, NoMemory>
    requires can { All (C.can_work work.now) states.items }
    ensures whole { IfOk result (λ s. (worked : _) → s ≡ Whole worked →
        Beside (λ i p q. C.works work.now p q) states.items worked.items) }
    ensures nobody { IfOk result (λ s. (same : _) → s ≡ Nobody same → same.items ≡ states.items) }
{
    let word = OnceLock::new();
    let call = Call {
        rt,
        gate,
        work,
        word: &word,
    };
    let shared = &call;
    thread::scope(
        thread::scope_env(),
        rt,
        move |scope| -> Result<Started<P>, NoMemory>
            requires { All (C.can_work shared.now.work.now) states.items }
            ensures whole { IfOk result (λ s. (worked : _) → s ≡ Whole worked →
                Beside (λ i p q. C.works shared.entry.now.work.now p q) states.items worked.items) }
            ensures nobody { IfOk result (λ s.
                (same : _) → s ≡ Nobody same → same.items ≡ states.items) }
        {
            let begun = Vec::with_capacity(alloc, states.len())?;
            let ended = Vec::with_capacity(alloc, states.len())?;
            let begun = begin_all(scope, shared, states, begun);
            let word = shared.say(true);
            let ended = finish_all(shared, &word, begun, ended);
            if *shared.word.value(&word) {
                Ok(Started::Whole(ended))
            } else {
                Ok(Started::Nobody(ended))
            }
        },
    )
}

// What all threads share. The first word that is said stands: true where each thread state has its thread.
#[derive(Drop)]
struct Call<'a, R, G, C> {
    rt: &'a R,
    gate: &'a G,
    work: &'a C,
    word: &'a OnceLock<bool>,
}

impl<'a, R: Wait, G: Gate, C> Call<'a, R, G, C> {
    // Says the word, where none was said before.
    fn say(&self, go: bool) -> OnceToken<'a, bool>
        ensures { result.of ≡ self.now.word.now.id }
    {
        match self.word.try_insert(self.rt, go) {
            Ok(said) => said,
            Err((said, _)) => said,
        }
    }

    // Waits for the word.
    fn hear(&self) -> OnceToken<'a, bool>
        ensures { result.of ≡ self.now.word.now.id }
    {
        for _ in self.rt.forever() {
            self.word.wait(self.rt);
            if let Some(heard) = self.word.witness() {
                return heard;
            }
        }
        unreachable!()
    }

    // Works where the word is to go, and hands the thread state back as it was where it isn't.
    fn go_by_word<P>(&self, mut state: P) -> Ended<'a, P>
    where
        C: ThreadWork<P>,
        requires { C.can_work self.now.work.now state }
        ensures word { result.word.of ≡ self.now.word.now.id }
        ensures state { GoesBy (C.works self.now.work.now) result.word.value state result.state }
    {
        let word = self.hear();
        if *self.word.value(&word) {
            self.work.work(self.rt, self.gate, &mut state);
        }
        Ended { state, word }
    }
}

// What is left with a thread state: the thread state, and the word by which its thread went.
#[derive(Drop)]
struct Ended<'a, P> {
    state: P,
    word: OnceToken<'a, bool>,
}

// What is to be left with a thread state.
struct Owed<'a, P, C> {
    work: &'a C,
    word: &'a OnceLock<bool>,
    state: Snapshot<P>,
}

// By hand, as for what has begun: so it asks nothing of a thread state and of shared work.
impl<'a, P, C> Drop for Owed<'a, P, C> {
    fn drop(self) {
        let Owed {
            work: _work,
            word: _word,
            state: _post,
        } = self;
    }
}

impl<'a, P, C: ThreadWork<P>> Promise<Ended<'a, P>> for Owed<'a, P, C> {
    ghost use Rattle.std.specs.Prelude.{◌≡◌};
    ghost use Rattle.thread_work.specs.Starts.{GoesBy};

    ghost kept_by = { λ o e. (e.word.of ≡ o.word.now.id)
        × GoesBy (C.works o.work.now) e.word.value o.state.value e.state };
}

// A thread state with its thread, or what is left of it where none could be made.
enum Begun<'a, P: Drop, C: ThreadWork<P>> {
    There(PromisedHandle<Ended<'a, P>, Owed<'a, P, C>>),
    Here(Ended<'a, P>),
}

impl<'a, P: Drop, C: ThreadWork<P>> Drop for Begun<'a, P, C> {
    fn drop(self) {
        match self {
            Begun::There(_thread) => {}
            Begun::Here(_ended) => {}
        }
    }
}

impl<'a, P: Drop, C: ThreadWork<P>> Begun<'a, P, C> {
    fn finish<R: Threads>(self, rt: &R) -> Ended<'a, P>
        ensures lock { result.word.of ≡ lock_of self.entry }
        ensures state { (work : C) (state : P) → IsBegun C.works work state self.entry →
            GoesBy (C.works work) result.word.value state result.state }
    {
        match self {
            Begun::There(thread) => thread.join(rt),
            Begun::Here(ended) => ended,
        }
    }
}

// Makes a thread for the thread state. Where it can't be made, the word is said that nobody works, which later threads hear at once.
fn begin<
    's,
    E,
    R: Wait + Sync + 's,
    G: Gate + Sync + 's,
    P: Send + Drop + 's,
    C: ThreadWork<P> + Sync + 's,
>(scope: &Scope<'s, E>, call: &'s Call<'s, R, G, C>, state: P) -> Begun<'s, P, C>
    requires { C.can_work call.now.work.now state }
    ensures lock { lock_of result ≡ call.now.word.now.id }
    ensures state { IsBegun C.works call.now.work.now state result }
{
    let owed = Owed {
        work: call.work,
        word: call.word,
        state: Snapshot::of(&state),
    };
    let go = move || -> Ended<'_, P>
        requires { C.can_work call.now.work.now state }
        ensures word { result.word.of ≡ call.entry.now.word.now.id }
        ensures state { GoesBy (C.works call.entry.now.work.now) result.word.value state result.state }
    { call.go_by_word(state) };
    match scope.spawn_with(owed, go) {
        Ok(thread) => Begun::There(thread),
        Err(refused) => {
            call.say(false);
            Begun::Here((refused.value)())
        }
    }
}

fn begin_all<
    's,
    E,
    R: Wait + Sync + 's,
    G: Gate + Sync + 's,
    P: Send + Drop + 's,
    C: ThreadWork<P> + Sync + 's,
>(
    scope: &Scope<'s, E>,
    call: &'s Call<'s, R, G, C>,
    states: Vec<P>,
    mut begun: Vec<Begun<'s, P, C>>,
) -> Vec<Begun<'s, P, C>>
    requires can { All (C.can_work call.now.work.now) states.items }
    requires none { begun.items ≡ [] }
    requires room { vec_len states ≤ vec_capacity begun }
    ensures lock { All (λ b. lock_of b ≡ call.now.word.now.id) result.items }
    ensures states { Beside (λ i p b.
        IsBegun C.works call.now.work.now p b) states.items result.items }
{
    for state in states {
        begun.push_reserved(begin(scope, call, state));
    }
    begun
}

// Waits until all threads have ended.
fn finish_all<'s, R: Threads + Wait, G: Gate, P: Drop, C: ThreadWork<P>>(
    call: &Call<'s, R, G, C>,
    word: &OnceToken<'s, bool>,
    begun: Vec<Begun<'s, P, C>>,
    mut ended: Vec<P>,
) -> Vec<P>
    requires lock { All (λ b. lock_of b ≡ word.now.of) begun.items }
    requires none { ended.items ≡ [] }
    requires room { vec_len begun ≤ vec_capacity ended }
    ensures { Beside (λ i b q. (p : P) → IsBegun C.works call.now.work.now p b →
        GoesBy (C.works call.now.work.now) word.now.value p q) begun.entry.items result.items }
{
    for one in begun {
        let Ended { state, word: heard } = one.finish(call.rt);
        word.agrees(&heard);
        ended.push_reserved(state);
    }
    ended
}
