ghost use Rattle.std.specs.Prelude.{◌≡◌, length, IfOk};
ghost use Rattle.store_care.specs.Settling.{unsettled};
ghost use Rattle.pasis_store.specs.Upkeep.{IsTried};

use crate::folder::FileStore;
use crate::telling::tell;
use lists::NoMemory;
use std::thread::Threads;
use store_care::settle_all;
use store_words::Notice;

/// Settles what writes left that were cut off, and tells how many blocks aren't settled then, if some aren't. Gives their number.
pub fn settle<T: Threads + Sync>(
    rt: &HostRuntime,
    threads: &T,
    store: &mut FileStore,
) -> Result<u32, NoMemory>
    ensures config { store.new.config ≡ store.old.config }
    ensures tried { IsTried result store.old store.new }
    // all others are settled: by store_care's law `settled_blocks_hold` no write that was cut off before takes effect there later
    ensures unsettled { IfOk result (λ count. count ≡ length (unsettled store.new 0 store.new.config.blocks)) }
{
    let blocks = settle_all(threads, rt.alloc(), store)?;
    if blocks > 0 {
        tell(rt, &Notice::Unsettled { blocks });
    }
    Ok(blocks)
}
