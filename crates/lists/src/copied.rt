ghost use Rattle.std.specs.Prelude.{◌≡◌, ◌++◌, ◌∷◌, [], IfOk, OnOk};

use crate::list::ItemList;
use crate::memory::NoMemory;

/// A value of which another one can be made, where memory is found.
pub trait Copied {
    /// A value equal to this one, which takes its memory from where this one does.
    fn copy(&self) -> Result<Self, NoMemory>
        ensures { IfOk result (λ copy. copy ≡ self.now) };
}

impl<T: Copied + Drop> Copied for ItemList<T> {
    fn copy(&self) -> Result<Self, NoMemory> {
        let mut copy = ItemList::new(self.allocator());
        for item in self.as_slice() {
            push_copy(&mut copy, item)?;
        }
        Ok(copy)
    }
}

// A step of its own, in which few values are live: so the loop is cheap to prove.
fn push_copy<T: Copied + Drop>(list: &mut ItemList<T>, item: &T) -> Result<(), NoMemory>
    ensures { OnOk result (list.new ≡ list.old ++ item.now ∷ []) }
{
    list.push(item.copy()?)
}

impl Copied for u8 {
    fn copy(&self) -> Result<u8, NoMemory> {
        Ok(*self)
    }
}

impl Copied for u32 {
    fn copy(&self) -> Result<u32, NoMemory> {
        Ok(*self)
    }
}

impl Copied for u64 {
    fn copy(&self) -> Result<u64, NoMemory> {
        Ok(*self)
    }
}
