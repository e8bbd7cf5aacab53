//! A store on disks in memory.
ghost use Rattle.std.specs.Prelude.{◌≡◌, ◌<◌, replicate, None, IfOk};
ghost use Rattle.store_device.specs.Going.{store_of};
ghost use Rattle.store_device.specs.Stores.{IsStore};

use disk_model::{Disk, MemoryDisk};
use outside_io::Calls;
use quorum_rules::Config;
use std::alloc::Global;
use std::io;
use std::io::ErrorKind;
use store_device::Store;
use version_disk::StoredNode;

pub type Device = Store<MemoryDisk>;

fn unmade() -> io::Error {
    io::Error::from(ErrorKind::OutOfMemory)
}

/// A store of three nodes, one of which may be missing, and of so many blocks of this size.
pub fn made_store(alloc: Global, size: u32, blocks: u32) -> io::Result<Device> {
    let Ok(config) = Config::new(3, 1, 0, 2, 1, size, blocks) else {
        return Err(io::Error::from(ErrorKind::InvalidData));
    };
    let Ok(mut store) = Store::new(alloc, &config, nobody(alloc, &config)?) else {
        return Err(unmade());
    };
    for number in 0..config.n() as u8 {
        seat(alloc, &config, &mut store, number)?;
    }
    Ok(store)
}

// No node on any seat.
fn nobody<D: Disk + Drop>(alloc: Global, config: &Config) -> io::Result<Vec<Option<StoredNode<D>>>>
    ensures { IfOk result (λ nodes. IsStore D.pending D.seen
        (store_of config.now nodes.items)) }
{
    let nodes = no_nodes(alloc, config.n())?;
    Ok(nodes)
}

// No node, so many times.
fn no_nodes<D: Disk + Drop>(alloc: Global, count: u32) -> io::Result<Vec<Option<StoredNode<D>>>>
    ensures { IfOk result (λ nodes. nodes.items ≡ replicate count None) }
{
    let mut nodes = Vec::new(alloc);
    for _seat in 0..count {
        nodes.push(None)?;
    }
    Ok(nodes)
}

// Gives a node its seat, on an empty disk.
fn seat(alloc: Global, config: &Config, store: &mut Device, number: u8) -> io::Result<()>
    requires number { number < config.now.n }
    requires config { store.old.config ≡ config.now }
    ensures { store.new.config ≡ store.old.config }
{
    let disk = MemoryDisk::new(alloc, Calls::new(alloc));
    let Ok(node) = StoredNode::open(alloc, config, number, disk) else {
        return Err(unmade());
    };
    store.seat_node(usize::from(number), node);
    Ok(())
}
