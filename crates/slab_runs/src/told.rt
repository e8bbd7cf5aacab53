ghost use Rattle.std.specs.Prelude.{◌<◌, length};

use crate::fault::RunFault;
use crate::slab::Slab;
use slab_file::SlabFile;
use slab_index::Kept;
use slab_reading::read_slot;
use sqlite_disk::digest_of;
use std::alloc::Global;

/// Adds to a line what a node keeps whose slab was opened: how many slots are free, the greatest number of a head, for
/// which blocks the node answers, and the versions of each block.
pub fn tell(
    alloc: Global,
    slab: &mut Slab,
    step: usize,
    line: &mut String,
) -> Result<(), RunFault> {
    let free = slab.opened.free.iter().filter(|is_free| **is_free).count();
    let last = slab.opened.last_number;
    write!(line, " {step} {free} {last} ")?;
    for answer in &slab.answers {
        write!(line, "{}", u8::from(*answer))?;
    }
    for block in 0..slab.header.config.blocks() {
        if (block as usize) < slab.opened.index.len() {
            tell_block(alloc, slab, block, line)?;
        }
    }
    Ok(())
}

// Adds the versions of a block to a line.
fn tell_block(alloc: Global, slab: &mut Slab, block: u32, line: &mut String) -> Result<(), RunFault>
    requires { block < length slab.old.opened.index }
{
    write!(line, " [")?;
    let list = Vec::from_slice(alloc, slab.opened.index.kept(block))?;
    for kept in &list {
        tell_version(alloc, slab, kept, line)?;
    }
    write!(line, " ]")?;
    Ok(())
}

// Adds a version to a line: its stamp, its slot, and a digest of its fragment, or that its data don't fit.
fn tell_version(
    alloc: Global,
    slab: &mut Slab,
    kept: &Kept,
    line: &mut String,
) -> Result<(), RunFault> {
    let shape = slab.shape();
    let time = kept.time;
    let client = kept.client;
    let slot = u64::from(kept.slot);
    let is_small = shape.nodes <= 16 && shape.data_len() > 0;
    if slot >= shape.count || !is_small || !slab.file.may_be_used() {
        return Err(RunFault::NoPlace);
    }
    let number = slab.header.number;
    match read_slot(alloc, &mut slab.file, shape, slab.header.key, number, kept)? {
        Some(version) => {
            let digest = digest_of(0, version.fragment.as_slice());
            write!(line, " {time}.{client}@{slot}={digest}")?;
        }
        None => write!(line, " {time}.{client}@{slot}=lost")?,
    }
    Ok(())
}
