//! Who looks after a store between the rounds of a session.
ghost use Rattle.std.specs.Prelude.{◌≡◌};
ghost use Rattle.store_device.specs.Stores.{SeenStore};

use disk_model::Disk;
use lists::NoMemory;
use store_device::Store;

/// Looks after a store between the rounds of a session, while no request of it is under way.
pub trait Keeper<D: Disk> {
    // what becomes of the store while it is looked after
    ghost keeps: { SeenStore D → SeenStore D → Type 0 };

    // it may be asked to look after a store
    ghost ready: { Self → Type 0 };

    /// May do with the store what it likes, before the session waits for a request. It is told how many bytes the requests of the last
    /// round had, 0 before the first one, and whether there is nothing to wait for. Where it finds no memory, the session ends.
    fn tend(&mut self, store: &mut Store<D>, served: usize, is_ready: bool) -> Result<(), NoMemory>
        requires ready { ready self.old }
        ensures ready { ready self.new }
        ensures keeps { keeps store.old store.new }
        // of a cluster of the same numbers
        ensures config { store.new.config ≡ store.old.config };
}
