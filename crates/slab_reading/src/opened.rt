ghost use Rattle.std.specs.Prelude.{◌≡◌, ◌<◌, length, IfOk, IfErr, OnOk};
ghost use Rattle.slab_index.specs.Slots.{with_slot};
ghost use Rattle.slab_reading.specs.Opened.{IsEmpty, AddsFree, AddsMarked};

use crate::fault::ReadFault;
use slab_index::{Kept, SlabIndex};
use slab_layout::{Head, Shape};
use std::alloc::Global;

/// What the marks and heads of a slab tell.
#[derive(Drop)]
pub struct Opened {
    /// For each block the slots of its versions.
    pub index: SlabIndex,
    /// For each slot whether it is free: its mark isn't 1.
    pub free: Vec<bool>,
    /// The greatest number of the head of a marked slot. It is 0 where no slot is marked.
    pub last_number: u64,
}

impl Opened {
    // What is known before a slot was read.
    #[tactic(auto, using(crate::proofs::Steps::none_yet, crate::proofs::Steps::length_none))]
    pub(crate) fn empty(alloc: Global, shape: Shape) -> Result<Opened, ReadFault>
        ensures empty { IfOk result (λ opened. IsEmpty shape opened) }
        ensures cause { IfErr result (λ fault. fault ≡ ReadFault.NoMemory) }
    {
        let Ok(index) = SlabIndex::new(alloc, shape.blocks as usize) else {
            return Err(ReadFault::NoMemory);
        };
        let Ok(free) = vec![in alloc; false; shape.count as usize] else {
            return Err(ReadFault::NoMemory);
        };
        Ok(Opened {
            index,
            free,
            last_number: 0,
        })
    }

    // Adds a slot that isn't marked.
    pub(crate) fn add_free(&mut self, slot: u64)
        requires { slot < length self.old.free.items }
        ensures { AddsFree slot self.old self.new }
    {
        self.free[slot as usize] = true;
    }

    // Adds a slot that is marked and has this head.
    pub(crate) fn add_marked(&mut self, slot: u32, head: &Head) -> Result<(), ReadFault>
        ensures added { OnOk result (AddsMarked slot head.now self.old self.new) }
        ensures free { self.new.free ≡ self.old.free }
        ensures cause { IfErr result (λ fault. fault ≡ ReadFault.NoMemory) }
    {
        add_to_block(&mut self.index, slot, head)?;
        self.last_number = self.last_number.max(head.number);
        Ok(())
    }
}

// Adds a slot to its block, if there is such a block.
fn add_to_block(index: &mut SlabIndex, slot: u32, head: &Head) -> Result<(), ReadFault>
    ensures put { OnOk result (index.new ≡ with_slot slot head.now index.old) }
    ensures cause { IfErr result (λ fault. fault ≡ ReadFault.NoMemory) }
{
    if (head.block as usize) < index.len() && index.put(head.block, Kept::of(slot, head)).is_err() {
        return Err(ReadFault::NoMemory);
    }
    Ok(())
}
