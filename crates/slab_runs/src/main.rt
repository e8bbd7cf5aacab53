//! Slabs in memory. Each sequence writes batches into a slab, takes marks away and uses their slots again, and lets a
//! crash come after some step. What the crash leaves is opened, and a line tells what the node keeps. Then it goes on, up
//! to another crash. tools/slab_model has the same sequences, and the expected lines are its own.
#![tactic(auto)]

mod draws;
mod fault;
mod life;
mod pool;
mod slab;
mod told;

use draws::Draws;
use fault::RunFault;
use life::live;
use slab::{Slab, cluster, damage, new_slab};
use slab_codec::Header;
use std::alloc::Global;
use std::io;
use told::tell;

/// How many sequences there are.
const SEQUENCES: u64 = 2000;

/// How many crashes each of them has.
const CRASHES: u64 = 2;

// The line of a sequence.
fn line_of(alloc: Global, seed: u64) -> Result<String, RunFault> {
    let mut draws = Draws::new(seed);
    let header = Header {
        config: cluster()?,
        number: 0,
        key: draws.next(),
    };
    let bytes = new_slab(alloc, &header, &mut draws)?;
    let mut line = String::new(alloc);
    let mut slab = Slab::open(alloc, &bytes)?;
    for _ in 0..CRASHES {
        let (mut left, step) = live(alloc, &mut slab, seed % 2 == 1, &mut draws)?;
        damage(&mut left, &mut draws);
        slab = Slab::open(alloc, &left)?;
        tell(alloc, &mut slab, step, &mut line)?;
    }
    Ok(line)
}

fn main(rt: HostRuntime) -> io::Result<()> {
    for seed in 0..SEQUENCES {
        match line_of(rt.alloc(), seed) {
            Ok(line) => println!(rt; "{seed}{line}")?,
            Err(fault) => println!(rt; "{seed} {fault:?}")?,
        }
    }
    Ok(())
}
