ghost use Rattle.std.specs.Prelude.{◌≡◌};
ghost use Rattle.protocol.specs.History.{place_cmp, is_read as is_read_of};
ghost use Rattle.history_making.specs.Kinds.{full_kind};
ghost use Rattle.history_making.specs.Orders.{key_cmp};

use crate::entry::{Entry, Kind};
use std::cmp::Ordering;

impl Entry {
    /// By block, time, writer, mark, writes before reads, end place (none above all), client and start place.
    pub fn compare(&self, other: &Entry) -> Ordering
        ensures { result ≡ key_cmp self.now other.now }
    {
        self.block
            .cmp(&other.block)
            .then(self.time.cmp(&other.time))
            .then(self.writer.cmp(&other.writer))
            .then(self.mark.cmp(&other.mark))
            .then(is_read(self.kind).cmp(&is_read(other.kind)))
            .then(compare_places(self.end, other.end))
            .then(self.client.cmp(&other.client))
            .then(compare_places(self.start, other.start))
    }
}

/// The order of places, where no place is above every place.
pub fn compare_places(one: Option<u64>, other: Option<u64>) -> Ordering
    ensures { result ≡ place_cmp one other }
{
    match (one, other) {
        (Some(one), Some(other)) => one.cmp(&other),
        (Some(_), None) => Ordering::Less,
        (None, Some(_)) => Ordering::Greater,
        (None, None) => Ordering::Equal,
    }
}

fn is_read(kind: Kind) -> u8
    ensures { result ≡ is_read_of (full_kind kind) }
{
    match kind {
        Kind::Read => 1,
        Kind::Write | Kind::Foreign => 0,
    }
}
