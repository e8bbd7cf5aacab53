//! A disk that notes what was written since its last sync, so that a crash may leave any of it.
ghost use Rattle.std.specs.Prelude.{◌≡◌};

use crate::draws::Draws;
use disk_model::{Disk, DiskFault, MemoryDisk, WrittenRange};
use std::alloc::{AllocError, Global};

/// A disk, and the ranges that were written since its last sync.
#[derive(Drop)]
pub struct NotedDisk<D: Disk> {
    disk: D,
    written: Vec<WrittenRange>,
}

impl<D: Disk> NotedDisk<D> {
    pub fn new(alloc: Global, disk: D) -> NotedDisk<D>
        ensures { result.disk ≡ disk }
    {
        NotedDisk {
            disk,
            written: Vec::new(alloc),
        }
    }
}

impl<D: Disk> Disk for NotedDisk<D> {
    ghost seen = { λ d. D.seen d.disk };

    ghost pending = { λ d. D.pending d.disk };

    ghost moment = { λ d. D.moment d.disk };

    ghost left_since = { λ d. D.left_since d.disk };

    ghost most = { λ d. D.most d.disk };

    ghost faults = { λ d. D.faults d.disk };

    ghost last = { D.last };

    ghost counts_now = { λ d. D.counts_now d.disk };

    ghost only_now = { λ d. D.only_now d.disk };

    fn room(&self) -> u64 {
        self.disk.room()
    }

    fn len(&mut self) -> Result<u64, DiskFault> {
        self.disk.len()
    }

    fn read_at(&mut self, at: u64, room: &mut [u8]) -> Result<(), DiskFault> {
        self.disk.read_at(at, room)
    }

    // A write that fails counts as written.
    fn write_at(&mut self, at: u64, piece: &[u8]) -> Result<(), DiskFault> {
        let _ = self.written.push(WrittenRange {
            at: at as usize,
            count: piece.len(),
        });
        self.disk.write_at(at, piece)
    }

    fn sync(&mut self) -> Result<(), DiskFault> {
        self.disk.sync()?;
        self.written.clear();
        Ok(())
    }
}

/// The longest piece of a written range that a crash leaves as one.
const LONGEST: u32 = 80;

/// What a crash leaves of the bytes of a piece.
#[derive(Clone, Copy)]
enum Left {
    Old,
    New,
    Any,
}

fn left_of(draws: &mut Draws) -> Left {
    match draws.below(3) {
        0 => Left::Old,
        1 => Left::New,
        _ => Left::Any,
    }
}

fn byte_at(bytes: &[u8], place: usize) -> u8 {
    bytes.get(place).copied().unwrap_or(0)
}

impl NotedDisk<MemoryDisk> {
    /// What a crash leaves. Where something was written since the last sync the length is drawn, and then, piece by piece of each range,
    /// whether it has its old bytes, its new ones, or others.
    pub fn left(self, alloc: Global, draws: &mut Draws) -> Result<Vec<u8>, AllocError> {
        let NotedDisk { disk, written } = self;
        let new = Vec::from_slice(alloc, disk.bytes())?;
        if written.is_empty() {
            return Ok(new);
        }
        let old = disk.crash(true);
        let mut left = with_length(alloc, &new, length_of(old.bytes(), &written, draws))?;
        for range in &written {
            tear(&mut left, old.bytes(), &new, range, draws);
        }
        Ok(left)
    }
}

// A length that a crash may leave: from that at the last sync to the greatest since.
fn length_of(old: &[u8], written: &[WrittenRange], draws: &mut Draws) -> usize {
    let mut longest = old.len();
    for range in written {
        longest = longest.max(range.at.saturating_add(range.count));
    }
    let more = longest.saturating_sub(old.len()).saturating_add(1);
    old.len().saturating_add(draws.place(more))
}

// So many bytes: those that are there, and zeros behind them.
fn with_length(alloc: Global, bytes: &[u8], len: usize) -> Result<Vec<u8>, AllocError> {
    let mut all = Vec::from_slice(alloc, bytes)?;
    all.truncate(len);
    for _ in all.len()..len {
        all.push(0)?;
    }
    Ok(all)
}

fn tear(left: &mut [u8], old: &[u8], new: &[u8], range: &WrittenRange, draws: &mut Draws) {
    let end = range.at.saturating_add(range.count).min(left.len());
    let mut piece_end = range.at;
    let mut what = Left::New;
    for place in range.at..end {
        if place == piece_end {
            let len = 1 + draws.below(LONGEST) as usize;
            piece_end = place.saturating_add(len);
            what = left_of(draws);
        }
        let byte = match what {
            Left::Old => byte_at(old, place),
            Left::New => byte_at(new, place),
            Left::Any => draws.byte(),
        };
        if let Some(room) = left.get_mut(place) {
            *room = byte;
        }
    }
}
