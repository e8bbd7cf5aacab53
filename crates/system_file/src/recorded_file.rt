ghost use Rattle.std.specs.Prelude.{◌≡◌, [], ◌∷◌, length};
ghost use Rattle.sqlite_disk.specs.Events.{settled, replay};
ghost use Rattle.system_file.specs.Outcomes.{Leaves, LeftSince};
ghost use Rattle.system_file.specs.Laws.{seen_stays, counts, nothing_more};

use crate::contents::FirstContents;
use crate::steps::{make_longer, read_whole, write_whole};
use slab_file::{FileFault, SlabFile};
use sqlite_disk::{Calls, digest_of, is_no_room};
use std::io;
use std::marker::PhantomData;

/// The file of a node, over calls that are recorded. All that clauses say of it is read off the record, from what the
/// file held at first. That a real file answers as the record's replay does is an assumption on the system, which
/// `is_clean` tells of.
#[derive(Drop)]
pub struct RecordedFile<C: Calls, S: FirstContents> {
    pub(crate) calls: C,
    /// The number of the node.
    pub(crate) number: u32,
    contents: PhantomData<S>,
    usable: bool,
    ghost is_told: { usable
        ≡ (replay (S.FirstContents.of_node number) (C.Calls.history calls)).is_usable },
}

impl<C: Calls, S: FirstContents> RecordedFile<C, S> {
    /// The file of the node of this number, which was just opened.
    pub fn opened(calls: C, number: u32) -> RecordedFile<C, S>
        requires { C.Calls.history calls ≡ settled 0 ∷ [] }
        ensures calls { result.calls ≡ calls }
        ensures number { result.number ≡ number }
    {
        RecordedFile {
            calls,
            number,
            contents: PhantomData,
            usable: true,
        }
    }
}

// What a caller is told of an error of the system.
fn fault_of(error: &io::Error) -> FileFault {
    if is_no_room(error) {
        FileFault::NoSpace
    } else {
        FileFault::Failed
    }
}

impl<C: Calls, S: FirstContents> SlabFile for RecordedFile<C, S> {
    ghost seen = { λ f. (replay (S.FirstContents.of_node f.number) (C.Calls.history f.calls)).seen };

    ghost may_leave = { λ f. Leaves (S.FirstContents.of_node f.number) (C.Calls.history f.calls) };

    ghost moment = { λ f. length (C.Calls.history f.calls) };

    ghost left_since = { λ f. LeftSince (S.FirstContents.of_node f.number) (C.Calls.history f.calls) };

    ghost is_usable = { λ f. (replay (S.FirstContents.of_node f.number) (C.Calls.history f.calls)).is_usable };

    ghost is_clean = { λ f. (replay (S.FirstContents.of_node f.number) (C.Calls.history f.calls)).is_honest };

    ghost faults = { λ f. (replay (S.FirstContents.of_node f.number) (C.Calls.history f.calls)).faults };

    ghost seen_may_stay = { λ f. seen_stays (S.FirstContents.of_node f.number) (C.Calls.history f.calls) };

    ghost counts_now = { λ f. counts (S.FirstContents.of_node f.number) (C.Calls.history f.calls) };

    ghost only_now = { λ f. nothing_more (S.FirstContents.of_node f.number) (C.Calls.history f.calls) };

    fn may_be_used(&self) -> bool {
        self.usable
    }

    fn len(&mut self) -> Result<u64, FileFault> {
        match self.calls.len() {
            Ok(len) => Ok(len as u64),
            Err(error) => Err(fault_of(&error)),
        }
    }

    fn read_at(&mut self, at: u64, room: &mut [u8]) -> Result<(), FileFault> {
        match read_whole(&mut self.calls, at as usize, room) {
            Ok(()) => Ok(()),
            Err(error) => Err(fault_of(&error)),
        }
    }

    fn read_checked(
        &mut self,
        key: u64,
        check: u64,
        at: u64,
        room: &mut [u8],
    ) -> Result<bool, FileFault> {
        match self.calls.read_under(key, check, at as usize, room) {
            Ok(count) if count == room.len() => Ok(digest_of(key, room) == check),
            Ok(_) => Err(FileFault::Failed),
            Err(error) => Err(fault_of(&error)),
        }
    }

    fn write_at(&mut self, at: u64, piece: &[u8]) -> Result<(), FileFault> {
        match write_whole(&mut self.calls, at as usize, piece) {
            Ok(()) => Ok(()),
            Err(error) => Err(fault_of(&error)),
        }
    }

    fn lengthen(&mut self, len: u64) -> Result<(), FileFault> {
        match make_longer(&mut self.calls, len as usize) {
            Ok(()) => Ok(()),
            Err(error) => Err(fault_of(&error)),
        }
    }

    fn sync(&mut self) -> Result<(), FileFault> {
        match self.calls.sync() {
            Ok(()) => Ok(()),
            Err(error) => {
                self.usable = false;
                Err(fault_of(&error))
            }
        }
    }
}
