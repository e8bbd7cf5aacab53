//! The calls on a file so far, which only proofs read.
ghost use Rattle.std.specs.Prelude.{◌≡◌, List, [], ◌∷◌};
ghost use Rattle.std.specs.Borrow.{ftrue};
ghost use Rattle.sqlite_disk.specs.Events.{Event};

use std::marker::Model;

/// The calls on a file with their answers, the newest first. It takes no memory, and its calls do nothing when they run.
#[derive(Drop)]
pub struct CallRecord {
    pub ghost events: { List Event },
}

impl Model for CallRecord {
    ghost also_owns = { λ _. ftrue };
}

// It owns nothing.
unsafe impl Send for CallRecord {}

/// A call on a file with its answer. Bytes that were read or given are told beside it.
#[derive(Clone, Copy)]
pub(crate) enum Call {
    /// The file was opened and synced.
    Opened,
    /// The length was asked for, and this was the answer.
    Measured(Option<usize>),
    /// At a place so many bytes were asked for. They came, or the call failed.
    Read(usize, usize, bool),
    /// The same, where the bytes are then held against a check: the key, the check, the place, the count.
    ReadUnder(u64, u64, usize, usize, bool),
    /// At a place bytes were given, and so many of them were taken.
    Wrote(usize, usize),
    /// At a place bytes were given, and the call failed, for want of space or not.
    WriteFailed(usize, bool),
    /// The length was set, or the call failed, for want of space or not.
    Resized(usize, bool, bool),
    /// The file was synced, or the call failed, for want of space or not.
    Synced(bool, bool),
}

impl CallRecord {
    ghost use Rattle.sqlite_disk.specs.Events.{settled};
    ghost use Rattle.system_file.specs.Noted.{event_of};

    /// The record of a file that was just opened.
    pub(crate) fn begun() -> CallRecord
        ensures { result.events ≡ settled 0 ∷ [] }
    {
        CallRecord::none().then(&Call::Opened, &[])
    }

    // No calls.
    fn none() -> CallRecord
        ensures { result.events ≡ [] }
    {
        CallRecord {}
    }

    /// The record with one more call.
    pub(crate) fn then(&self, _call: &Call, _bytes: &[u8]) -> CallRecord
        ensures { result.events ≡ event_of _call.now _bytes.now ∷ self.now.events }
    {
        CallRecord {}
    }
}
