ghost use Rattle.std.specs.Prelude.{◌≡◌};
ghost use Rattle.history_making.specs.Books.{IsBook};

use crate::entry::{Counts, Entry, Spent};
use lists::ItemList;
use std::marker::Model;

/// The history of a run. Contracts see its entries in order, the spent writes by start, and the counts.
#[derive(Drop)]
pub struct History {
    entries: ItemList<Entry>,
    spent: ItemList<Spent>,
    counts: Counts,
}

impl Model for History {
    ghost use Rattle.history_making.specs.Books.{Book, IsBook};

    ghost Value = { Book };

    ghost view = { λ h. record { entries = h.entries; spent = h.spent; counts = h.counts } };

    ghost invariant = { λ h. IsBook h.entries };
}

impl History {
    /// A history of these entries, spent writes and counts.
    pub fn new(entries: ItemList<Entry>, spent: ItemList<Spent>, counts: Counts) -> History
        requires { IsBook entries }
        ensures { result ≡ record { entries = entries; spent = spent; counts = counts } }
    {
        History {
            entries,
            spent,
            counts,
        }
    }

    /// The entries, by block, stamp, writes before reads, end place, client and start place.
    pub fn entries(&self) -> &[Entry]
        ensures is { result.now ≡ self.now.entries }
        ensures book { IsBook self.now.entries }
    {
        self.entries.as_slice()
    }

    /// The writes that found no time left, by start.
    pub fn spent(&self) -> &[Spent]
        ensures { result.now ≡ self.now.spent }
    {
        self.spent.as_slice()
    }

    /// The counts of the run's operations.
    pub fn counts(&self) -> &Counts
        ensures { result.now ≡ self.now.counts }
    {
        &self.counts
    }
}
