ghost use Rattle.std.specs.Prelude.{◌≡◌, ◌<◌, ◌+◌, ◌↔◌, IsTrue, Some, [], ◌∷◌, ◌++◌, length, take, OnOk, OnErr, IfNone, slice_get, slice_set, option_copied, option_to_list};

use crate::memory::NoMemory;
use std::alloc::Global;
use std::marker::Model;
use std::mem::replace;

/// Items in order, numbered from 0. Contracts see the list of them.
///
/// A list hides its room, so none of its contracts promises a push that can't fail. Where room has to be made before
/// other things change, keep a `Vec`, whose contracts tell its room.
#[derive(Drop)]
pub struct ItemList<T> {
    items: Vec<T>,
}

impl<T> Model for ItemList<T> {
    ghost use Rattle.std.specs.Prelude.{List};

    ghost Value = { List T };

    ghost view = { λ l. l.items.items };
}

impl<T> ItemList<T> {
    /// An empty list, which takes its memory from the allocator.
    pub fn new(alloc: Global) -> Self
        ensures { result ≡ [] }
    {
        ItemList {
            items: Vec::new(alloc),
        }
    }

    /// The list of a vector's items.
    pub fn from_vec(items: Vec<T>) -> Self
        ensures { result ≡ items.items }
    {
        ItemList { items }
    }

    /// The items as a vector.
    pub fn into_vec(self) -> Vec<T>
        ensures { result.items ≡ self }
    {
        let ItemList { items } = self;
        items
    }

    /// Where the list takes its memory from.
    pub fn allocator(&self) -> Global {
        *self.items.allocator()
    }

    /// Adds an item at the end. Where no memory is found, the list stays as it is and the item is dropped.
    pub fn push(&mut self, item: T) -> Result<(), NoMemory>
    where
        T: Drop,
        ensures ok { OnOk result (self.new ≡ self.old ++ item ∷ []) }
        ensures err { OnErr result (self.new ≡ self.old) }
    {
        self.items.push(item)?;
        Ok(())
    }

    /// Takes the last item, if there is one.
    pub fn pop(&mut self) -> Option<T>
        ensures items { self.old ≡ self.new ++ option_to_list result }
        ensures none { IfNone result (self.old ≡ []) }
    {
        self.items.pop()
    }

    /// Moves all items of another list to the end of this one. Where no memory is found, both stay as they are.
    pub fn append(&mut self, other: &mut ItemList<T>) -> Result<(), NoMemory>
        ensures ok { OnOk result (self.new ≡ self.old ++ other.old) }
        ensures moved { OnOk result (other.new ≡ []) }
        ensures err { OnErr result (self.new ≡ self.old) }
        ensures kept { OnErr result (other.new ≡ other.old) }
    {
        self.items.append(&mut other.items)?;
        Ok(())
    }

    /// Keeps the first `len` items, and drops the others.
    pub fn truncate(&mut self, len: usize)
    where
        T: Drop,
        ensures { self.new ≡ take len self.old }
    {
        self.items.truncate(len);
    }

    /// Puts an item in the place of another one, which is given back.
    pub fn replace(&mut self, i: usize, item: T) -> T
        requires { i < length self.old }
        ensures items { self.new ≡ slice_set self.old i item }
        ensures replaced { slice_get self.old i ≡ Some result }
    {
        replace(&mut self.items[i], item)
    }

    /// How many items there are.
    pub fn len(&self) -> usize
        ensures { result ≡ length self.now }
    {
        self.items.len()
    }

    /// Whether there is no item.
    pub fn is_empty(&self) -> bool
        ensures { IsTrue result ↔ (self.now ≡ []) }
    {
        self.items.is_empty()
    }

    /// The item at a place, and None exactly where the place isn't below the length.
    pub fn get(&self, i: usize) -> Option<&T>
        ensures { option_copied result ≡ slice_get self.now i }
    {
        self.items.get(i)
    }

    /// All items, lent.
    pub fn as_slice(&self) -> &[T]
        ensures { result.now ≡ self.now }
    {
        self.items.as_slice()
    }
}
