ghost use Rattle.std.specs.Prelude.{ℕ, List, Option, ⊤, IfOk, OnOk, OnErr};
ghost use Rattle.file_disk.specs.Answers.{FileAnswer, Locks, Measures, Empties, Settles, Reads, CallFails};

use std::fs::{File, TryLockError};
use std::io;
use std::os::unix::fs::FileExt;

/// An open file as a disk uses it. The ghost members say how the system has answered calls on it; of what a file holds they say
/// as much as an impl does, and that of `File` says nothing.
pub trait DiskFile {
    // the system has answered a call so
    ghost told: { Self → FileAnswer → Type 0 };

    // these bytes were written from this place on
    ghost wrote: { Self → ℕ → List ℕ → Self → Type 0 };

    // what was written before is safe
    ghost synced: { Self → Self → Type 0 };

    // a write or a sync failed
    ghost failed: { Self → Self → Type 0 };

    /// Locks the file for this handle until it is dropped. It is false where another handle has it locked.
    fn try_to_lock(&self) -> io::Result<bool>
        ensures ok { IfOk result (λ locked. told self.now (Locks locked)) }
        ensures err { OnErr result (told self.now CallFails) };

    /// How many bytes it has, if it is a plain file.
    fn measure(&self) -> io::Result<Option<u64>>
        ensures ok { IfOk result (λ count. told self.now (Measures count)) }
        ensures err { OnErr result (told self.now CallFails) };

    /// Takes all bytes from it.
    fn empty(&self) -> io::Result<()>
        ensures ok { OnOk result (told self.now Empties) }
        ensures err { OnErr result (told self.now CallFails) };

    /// Makes safe what was written before.
    fn settle(&self) -> io::Result<()>
        ensures ok { OnOk result (told self.now Settles) }
        ensures err { OnErr result (told self.now CallFails) };

    /// Reads as many bytes as the room has, from the first on.
    fn read_whole(&self, room: &mut [u8]) -> io::Result<()>
        ensures ok { OnOk result (told self.now (Reads room.new)) }
        ensures err { OnErr result (told self.now CallFails) };

    /// Writes all of the piece from a place on.
    fn write_piece(&mut self, at: u64, piece: &[u8]) -> io::Result<()>
        ensures ok { OnOk result (wrote self.old at piece.now self.new) }
        ensures err { OnErr result (failed self.old self.new) };

    /// Makes safe what was written.
    fn sync_written(&mut self) -> io::Result<()>
        ensures ok { OnOk result (synced self.old self.new) }
        ensures err { OnErr result (failed self.old self.new) };
}

impl DiskFile for File {
    ghost told = { λ _ _. ⊤ };

    ghost wrote = { λ _ _ _ _. ⊤ };

    ghost synced = { λ _ _. ⊤ };

    ghost failed = { λ _ _. ⊤ };

    fn try_to_lock(&self) -> io::Result<bool> {
        match self.try_lock() {
            Ok(()) => Ok(true),
            Err(TryLockError::WouldBlock) => Ok(false),
            Err(TryLockError::Error(error)) => Err(error),
        }
    }

    fn measure(&self) -> io::Result<Option<u64>> {
        let found = self.metadata()?;
        Ok(if found.is_file() {
            Some(found.len())
        } else {
            None
        })
    }

    fn empty(&self) -> io::Result<()> {
        self.set_len(0)
    }

    fn settle(&self) -> io::Result<()> {
        self.sync_all()
    }

    fn read_whole(&self, room: &mut [u8]) -> io::Result<()> {
        self.read_exact_at(room, 0)
    }

    fn write_piece(&mut self, at: u64, piece: &[u8]) -> io::Result<()> {
        self.write_all_at(piece, at)
    }

    fn sync_written(&mut self) -> io::Result<()> {
        self.sync_data()
    }
}
