//! A keeper that is a closure: what a session's store is looked after with starts threads, and a closure may, where a method of a trait may not.
ghost use Rattle.pasis_store.specs.Upkeep.{HasConfigOf, IsTended, MayTend, DoesTend};

use crate::folder::{FileStore, Journal};
use crate::upkeep::Upkeep;
use lists::NoMemory;
use store_device::Store;
use store_front::Keeper;

/// What is known of a store that is served, and how it is looked after.
#[derive(Drop)]
pub struct ByClosure<'a, F> {
    pub upkeep: &'a mut Upkeep,
    pub tend: F,
}

impl<'a, F: Fn(&mut Upkeep, &mut FileStore, usize, bool) -> Result<(), NoMemory>> Keeper<Journal>
    for ByClosure<'a, F> {
    ghost keeps = { IsTended };

    ghost ready = { λ k. MayTend (F.pre k.tend) × DoesTend (F.post k.tend) IsTended
        × DoesTend (F.post k.tend) HasConfigOf };

    fn tend(
        &mut self,
        store: &mut Store<Journal>,
        served: usize,
        is_ready: bool,
    ) -> Result<(), NoMemory> {
        (self.tend)(self.upkeep, store, served, is_ready)
    }
}
