//! Things that are dealt out.
ghost use Rattle.std.specs.Prelude.{◌≡◌, [], length, All, IfOk, OnOk};
ghost use Rattle.phase_threads.specs.Portions.{AreDealt};

use lists::{ItemList, NoMemory};
use std::alloc::Global;

/// What one has of things that were dealt out.
pub type Portions<X> = Vec<ItemList<X>>;

/// So many empty portions.
pub fn empty_portions<X: Drop>(alloc: Global, count: u32) -> Result<Portions<X>, NoMemory>
    ensures count { IfOk result (λ portions. length portions.items ≡ count) }
    ensures empty { IfOk result (λ portions. All (λ h. h ≡ []) portions.items) }
{
    let mut portions = Vec::new(alloc);
    for _ in 0..count {
        portions.push(ItemList::new(alloc))?;
    }
    Ok(portions)
}

/// Deals one thing more to each portion: the first thing to the first portion, and so on. Where no memory is found, some portions may have
/// theirs already.
pub fn deal<X: Drop>(portions: &mut Portions<X>, mut things: ItemList<X>) -> Result<(), NoMemory>
    requires { length things ≡ length portions.old.items }
    ensures { OnOk result (AreDealt portions.old.items things portions.new.items) }
{
    while let Some(thing) = things.pop() {
        let portion = &mut portions[things.len()];
        portion.push(thing)?;
    }
    Ok(())
}
