ghost use Rattle.std.specs.Prelude.{◌≡◌, ◌≤◌, ◌<◌, ◌-◌, ℕ, [], length, replicate};
ghost use Rattle.std.specs.Prelude.{slice_index_or, IfOk, OnOk, OnErr, IsTrue};
ghost use Rattle.slab_index.specs.Kept.{kept_in, with_kept, put_kept, without_slot, is_elsewhere, IsPlaceOf};

use crate::kept::Kept;
use lists::NoMemory;
use std::alloc::Global;
use std::marker::Model;

/// The slots of a block, in the order of their numbers. Contracts see the list of them.
#[derive(Drop)]
pub struct SlotList {
    list: Vec<Kept>,
}

impl Model for SlotList {
    ghost use Rattle.std.specs.Prelude.{List};
    ghost use Rattle.slab_index.specs.declared.kept.Kept.{Kept as SeenKept};

    ghost Value = { List SeenKept };

    ghost view = { λ s. s.list.items };
}

impl SlotList {
    fn new(alloc: Global) -> SlotList
        ensures { result ≡ [] }
    {
        SlotList {
            list: Vec::new(alloc),
        }
    }

    fn as_slice(&self) -> &[Kept]
        ensures { result.now ≡ self.now }
    {
        self.list.as_slice()
    }

    // Adds a slot before the first one of a greater number. The list has place for no more than it has.
    #[tactic(auto, using(crate::proofs::lemmas::Telling::put_at))]
    fn put(&mut self, kept: Kept) -> Result<(), NoMemory>
        ensures ok { OnOk result (self.new ≡ put_kept kept self.old) }
        ensures err { OnErr result (self.new ≡ self.old) }
    {
        let place = place_of(self.list.as_slice(), kept.number);
        self.list.reserve_exact(1)?;
        self.list.insert(place, kept)?;
        Ok(())
    }

    // A copy with one more slot, before the first one of a greater number.
    #[tactic(auto, using(crate::proofs::lemmas::Telling::put_at))]
    fn with(&self, alloc: Global, kept: Kept) -> Result<SlotList, NoMemory>
        ensures { IfOk result (λ list. list ≡ put_kept kept self.now) }
    {
        let old = self.list.as_slice();
        let place = place_of(old, kept.number);
        let mut list = Vec::with_capacity(alloc, old.len() + 1)?;
        list.extend_from_slice(&old[..place])?;
        list.push(kept)?;
        list.extend_from_slice(&old[place..])?;
        Ok(SlotList { list })
    }

    // Takes a slot out.
    fn remove(&mut self, slot: u32)
        ensures { self.new ≡ without_slot slot self.old }
    {
        keep_others(&mut self.list, slot);
        self.list.shrink_to_fit();
    }
}

// Drops those in a slot.
fn keep_others(list: &mut Vec<Kept>, slot: u32)
    ensures { list.new.items ≡ without_slot slot list.old.items }
{
    list.retain(
        |kept: &Kept| -> bool
            ensures { result ≡ is_elsewhere slot kept.now }
        { kept.slot != slot },
    );
}

// The place of the first slot of a greater number, or the end.
fn place_of(list: &[Kept], number: u64) -> usize
    ensures { IsPlaceOf list.now number result }
{
    for (i, kept) in list.iter().enumerate() {
        if number < kept.number {
            return i;
        }
    }
    list.len()
}

/// For each block the slots of its versions, in the order of their numbers. Contracts see the list of them.
#[derive(Drop)]
pub struct SlabIndex {
    blocks: Vec<SlotList>,
}

impl Model for SlabIndex {
    ghost use Rattle.std.specs.Prelude.{List};
    ghost use Rattle.slab_index.specs.declared.kept.Kept.{Kept as SeenKept};

    ghost Value = { List (List SeenKept) };

    ghost view = { λ s. s.blocks.items };
}

impl SlabIndex {
    /// An index of so many blocks, none of which has a slot.
    pub fn new(alloc: Global, blocks: usize) -> Result<SlabIndex, NoMemory>
        ensures { IfOk result (λ index. index ≡ replicate blocks []) }
    {
        let mut list = Vec::with_capacity(alloc, blocks)?;
        for _ in 0..blocks {
            list.push(SlotList::new(alloc))?;
        }
        Ok(SlabIndex { blocks: list })
    }

    /// How many blocks there are.
    pub fn len(&self) -> usize
        ensures { result ≡ length self.now }
    {
        self.blocks.len()
    }

    /// The slots of a block.
    pub fn kept(&self, block: u32) -> &[Kept]
        requires { block < length self.now }
        ensures { result.now ≡ kept_in self.now block }
    {
        self.blocks[block as usize].as_slice()
    }

    /// Adds a slot to those of its block, by its number.
    pub fn put(&mut self, block: u32, kept: Kept) -> Result<(), NoMemory>
        requires { block < length self.old }
        ensures ok { OnOk result
            (self.new ≡ with_kept self.old block (put_kept kept (kept_in self.old block))) }
        ensures err { OnErr result (self.new ≡ self.old) }
    {
        let slots = &mut self.blocks[block as usize];
        slots.put(kept)?;
        Ok(())
    }

    /// The slots of a block, with one more by its number. Nothing changes.
    pub fn list_with(&self, alloc: Global, block: u32, kept: Kept) -> Result<SlotList, NoMemory>
        requires { block < length self.now }
        ensures { IfOk result (λ list. list ≡ put_kept kept (kept_in self.now block)) }
    {
        self.blocks[block as usize].with(alloc, kept)
    }

    /// Makes these the slots of a block. It takes no memory.
    pub fn set(&mut self, block: u32, list: SlotList)
        requires { block < length self.old }
        ensures { self.new ≡ with_kept self.old block list }
    {
        self.blocks[block as usize] = list;
    }

    /// Takes a slot out of those of its block. It takes no memory.
    pub fn remove(&mut self, block: u32, slot: u32)
        requires { block < length self.old }
        ensures { self.new
            ≡ with_kept self.old block (without_slot slot (kept_in self.old block)) }
    {
        let slots = &mut self.blocks[block as usize];
        slots.remove(slot);
    }
}
