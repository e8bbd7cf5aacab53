//! The answer to a round: its block operations, and the replies.
ghost use Rattle.std.specs.Prelude.{◌≡◌, ◌<◌, All, IfOk, OnErr, List};
ghost use Rattle.store_front.specs.Rounds.{Exchange, IsAsked, IsBegun, IsExchange, AreSeparate, calls_of, blocks_read, requests_of};
ghost use Rattle.std.specs.List.{AllPairs};
ghost use Rattle.store_device.specs.Calls.{Leads};
ghost use Rattle.store_front.specs.Replies.{text_of};

use crate::operations::{read_blocks, write_blocks};
use crate::round::Round;
use crate::values::values_of;
use disk_model::Disk;
use lists::NoMemory;
use std::alloc::Global;
use std::thread::Threads;
use store_device::Store;

/// Does what the requests of a round ask, and makes the replies to them.
pub(crate) fn answer<D: Disk + Send, R: Threads + Sync>(
    rt: &R,
    alloc: Global,
    store: &mut Store<D>,
    round: &Round<'_>,
) -> Result<Vec<u8>, NoMemory>
    requires blocks { All (λ k. k < store.old.config.blocks) round.now.read.keys }
    requires asked { All IsAsked round.now.asked.items }
    requires apart { AllPairs (AreSeparate store.old.config) (requests_of round.now.asked.items) }
    requires read { round.now.read.keys
        ≡ blocks_read store.old.config (requests_of round.now.asked.items) }
    ensures config { store.new.config ≡ store.old.config }
    ensures answered { IfOk result (λ text. (round_done : Exchange D)
        × (round_done.requests ≡ requests_of round.now.asked.items)
        × IsExchange store.old.config round_done
        × Leads D.pending D.seen D.most D.moment D.left_since store.old (calls_of round_done) store.new
        × (text.items ≡ text_of store.old.config round_done)) }
    // where memory was wanting, a part of it was done
    ensures cut { OnErr result ((begun : Exchange D)
        × (begun.requests ≡ requests_of round.now.asked.items)
        × IsBegun store.old.config begun
        × Leads D.pending D.seen D.most D.moment D.left_since store.old (calls_of begun) store.new) }
{
    let mut done = read_blocks(rt, alloc, store, &round.read)?;
    let values = values_of(alloc, store.config(), &round.asked, &done.found)?;
    write_blocks(rt, alloc, store, values, &mut done)?;
    done.replies(alloc, store.config(), &round.asked)
}
