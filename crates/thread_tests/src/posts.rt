ghost use Rattle.std.specs.Prelude.{◌≡◌, ◌+◌, All, IfOk};

use lists::NoMemory;
use std::alloc::Global;
use std::sync::{Barrier, Wait};
use std::test::Fail;
use thread_work::{Gate, OpenGate, Started, ThreadWork, each, each_at_once};

// A thread state, and how often it was worked.
#[derive(Drop)]
struct Post {
    number: u32,
    rounds: u32,
}

// So many thread states, from 0 on, at which nobody has worked.
fn posts_of(alloc: Global, count: u32) -> Result<Vec<Post>, NoMemory>
    ensures { IfOk result (λ v. All (λ p. p.rounds ≡ 0) v.items) }
{
    let mut posts = Vec::new(alloc);
    for number in 0..count {
        posts.push(Post { number, rounds: 0 })?;
    }
    Ok(posts)
}

// Whether these are all thread states in order, each worked once.
fn are_worked(posts: Vec<Post>, count: usize) -> bool {
    let mut fit = posts.len() == count;
    for i in 0..posts.len() {
        fit = fit && posts[i].number as usize == i && posts[i].rounds == 1;
    }
    fit
}

// Whether there was a thread for each thread state, and each was worked once.
fn are_all_worked(started: Started<Post>, count: usize) -> bool {
    match started {
        Started::Whole(posts) => are_worked(posts, count),
        Started::Nobody(_) => false,
    }
}

// Whoever works with a thread state waits until all others do.
#[derive(Drop)]
struct Meeting {
    all: Barrier,
}

impl ThreadWork<Post> for Meeting {
    ghost use Rattle.std.specs.Prelude.{◌≡◌, ◌+◌};

    ghost can_work = { λ m p. p.rounds ≡ 0 };

    ghost works = { λ m p q. (q.number ≡ p.number) × (q.rounds ≡ p.rounds + 1) };

    fn work<R: Wait, G: Gate>(&self, rt: &R, _gate: &G, post: &mut Post) {
        self.all.wait(rt);
        post.rounds += 1;
    }
}

// Whoever works with a thread state waits for nobody.
#[derive(Drop)]
struct Alone;

impl ThreadWork<Post> for Alone {
    ghost use Rattle.std.specs.Prelude.{◌≡◌, ◌+◌};

    ghost can_work = { λ a p. p.rounds ≡ 0 };

    ghost works = { λ a p q. (q.number ≡ p.number) × (q.rounds ≡ p.rounds + 1) };

    fn work<R: Wait, G: Gate>(&self, _rt: &R, _gate: &G, post: &mut Post) {
        post.rounds += 1;
    }
}

#[test]
fn posts_that_wait_for_one_another_end(rt: HostRuntime) -> Result<(), Fail> {
    let posts = posts_of(rt.alloc(), 3)?;
    let work = Meeting {
        all: Barrier::new(3),
    };
    let started = each_at_once(&rt, rt.alloc(), &OpenGate, &work, posts)?;
    assert!(&rt; are_all_worked(started, 3));
    Ok(())
}

#[test]
fn no_post_is_a_crew_too(rt: HostRuntime) -> Result<(), Fail> {
    let posts = posts_of(rt.alloc(), 0)?;
    let started = each_at_once(&rt, rt.alloc(), &OpenGate, &Alone, posts)?;
    assert!(&rt; are_all_worked(started, 0));
    Ok(())
}

#[test]
fn each_post_is_worked_once(rt: HostRuntime) -> Result<(), Fail> {
    let mut posts = posts_of(rt.alloc(), 5)?;
    each(&rt, &OpenGate, &Alone, posts.as_mut_slice());
    assert!(&rt; are_worked(posts, 5));
    Ok(())
}
