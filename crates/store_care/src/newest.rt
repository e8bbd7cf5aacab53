//! The newest versions that a store's nodes keep.
ghost use Rattle.std.specs.Prelude.{◌≡◌, ◌-◌, ◌≤◌, ◌<◌, map, IfOk};
ghost use Rattle.std.specs.List.{range_with_len};
ghost use Rattle.store_care.specs.Holdings.{newest_at, newest_of};

use crate::holding::newest;
use disk_model::Disk;
use lists::NoMemory;
use std::alloc::Global;
use store_device::Store;
use wire_forms::Version;

/// The newest version of a block at each seat; None where no node is up there.
pub(crate) type Newest = Vec<Option<Version>>;

/// The newest versions of the blocks from the first up to the end.
pub(crate) fn newest_of_all<D: Disk>(
    alloc: Global,
    store: &mut Store<D>,
    first: u32,
    end: u32,
) -> Result<Vec<Newest>, NoMemory>
    requires order { first ≤ end }
    requires there { end ≤ store.old.config.blocks }
    ensures same { store.new ≡ store.old }
    ensures newest { IfOk result (λ all. map (λ newest. newest.items) all.items
        ≡ map (newest_of store.old) (range_with_len first (end - first))) }
{
    let mut all = Vec::new(alloc);
    for block in first..end {
        let newest = newest_of(alloc, store, block)?;
        all.push(newest)?;
    }
    Ok(all)
}

/// The newest version of a block at each seat.
pub(crate) fn newest_of<D: Disk>(
    alloc: Global,
    store: &mut Store<D>,
    block: u32,
) -> Result<Newest, NoMemory>
    requires { block < store.old.config.blocks }
    ensures same { store.new ≡ store.old }
    ensures newest { IfOk result (λ newest. newest.items ≡ newest_of store.old block) }
{
    let mut newest = Vec::new(alloc);
    for seat in 0..store.config().n() as usize {
        let version = newest_at(store, seat, block)?;
        newest.push(version)?;
    }
    Ok(newest)
}

/// The newest version that the node of a seat keeps of a block, if it is up.
pub(crate) fn newest_at<D: Disk>(
    store: &mut Store<D>,
    seat: usize,
    block: u32,
) -> Result<Option<Version>, NoMemory>
    requires { block < store.old.config.blocks }
    ensures same { store.new ≡ store.old }
    ensures newest { IfOk result (λ version. version ≡ newest_at store.old block seat) }
{
    if !store.is_up(seat) {
        return Ok(None);
    }
    match store.node(seat) {
        Some(node) => newest(node, block),
        None => Ok(None),
    }
}
