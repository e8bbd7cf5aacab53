ghost use Rattle.std.specs.Prelude.{◌≡◌, ◌<◌, ◌≤◌, ◌^◌, [], ◌∷◌, length, IfOk};
ghost use Rattle.sqlite_disk.specs.Events.{settled};
ghost use Rattle.system_file.specs.Noted.{event_of};

use crate::call_record::{Call, CallRecord};
use sqlite_disk::{Calls, is_no_room};
use std::fs::File;
use std::io::{self, ErrorKind};
use std::os::unix::fs::FileExt;

// The last place that the system can reach in a file.
const LAST_PLACE: usize = (1 << 63) - 1;

/// An open file of the system. Each method makes one call, and notes it with its answer.
#[derive(Drop)]
pub struct HostFile {
    file: File,
    log: CallRecord,
}

impl HostFile {
    /// A file that was just opened and synced.
    pub(crate) fn opened(file: File) -> HostFile
        ensures { result.log.events ≡ settled 0 ∷ [] }
    {
        HostFile {
            file,
            log: CallRecord::begun(),
        }
    }

    // Notes a call.
    fn note(&mut self, call: &Call, bytes: &[u8])
        ensures { self.new.log.events ≡ event_of call.now bytes.now ∷ self.old.log.events }
    {
        self.log = self.log.then(call, bytes);
    }
}

impl Calls for HostFile {
    ghost history = { λ f. f.log.events };

    fn len(&mut self) -> io::Result<usize> {
        match length_of(&self.file) {
            Ok(len) => {
                self.note(&Call::Measured(Some(len)), &[]);
                Ok(len)
            }
            Err(error) => {
                self.note(&Call::Measured(None), &[]);
                Err(error)
            }
        }
    }

    fn read_some(&mut self, at: usize, buf: &mut [u8]) -> io::Result<usize> {
        let asked = buf.len();
        match read_from(&self.file, at, buf) {
            Ok(count) => {
                self.note(&Call::Read(at, asked, true), &buf[..count]);
                Ok(count)
            }
            Err(error) => {
                self.note(&Call::Read(at, asked, false), &[]);
                Err(error)
            }
        }
    }

    fn read_under(&mut self, key: u64, want: u64, at: usize, buf: &mut [u8]) -> io::Result<usize> {
        let asked = buf.len();
        match self.file.read_exact_at(buf, at as u64) {
            Ok(()) => {
                self.note(&Call::ReadUnder(key, want, at, asked, true), &buf[..asked]);
                Ok(asked)
            }
            Err(error) => {
                self.note(&Call::ReadUnder(key, want, at, asked, false), &[]);
                Err(error)
            }
        }
    }

    fn write_some(&mut self, at: usize, bytes: &[u8]) -> io::Result<usize> {
        match write_from(&self.file, at, bytes) {
            Ok(count) => {
                self.note(&Call::Wrote(at, count), bytes);
                Ok(count)
            }
            Err(error) => {
                self.note(&Call::WriteFailed(at, is_no_room(&error)), bytes);
                Err(error)
            }
        }
    }

    fn resize(&mut self, len: usize) -> io::Result<()> {
        match self.file.set_len(len as u64) {
            Ok(()) => {
                self.note(&Call::Resized(len, true, false), &[]);
                Ok(())
            }
            Err(error) => {
                self.note(&Call::Resized(len, false, is_no_room(&error)), &[]);
                Err(error)
            }
        }
    }

    // The times of the file need not be safe, so data alone is synced: that includes the length and the places of the
    // data on the disk. What is read later may come from the kernel's memory: std has no call that drops that.
    fn sync(&mut self) -> io::Result<()> {
        match self.file.sync_data() {
            Ok(()) => {
                self.note(&Call::Synced(true, false), &[]);
                Ok(())
            }
            Err(error) => {
                self.note(&Call::Synced(false, is_no_room(&error)), &[]);
                Err(error)
            }
        }
    }
}

fn length_of(file: &File) -> io::Result<usize> {
    Ok(file.metadata()?.len() as usize)
}

// Reads some bytes from a place on: one at least, and where there is none it fails.
fn read_from(file: &File, at: usize, room: &mut [u8]) -> io::Result<usize>
    ensures { IfOk result (λ n. (0 < n) × (n ≤ length room.old) × (at < 2 ^ 63)) }
{
    if at > LAST_PLACE {
        return Err(ErrorKind::InvalidInput.into());
    }
    match file.read_at(room, at as u64)? {
        0 => Err(ErrorKind::UnexpectedEof.into()),
        count => Ok(count),
    }
}

// Writes some bytes from a place on: one at least.
fn write_from(file: &File, at: usize, piece: &[u8]) -> io::Result<usize>
    ensures { IfOk result (λ n. (0 < n) × (n ≤ length piece.now) × (at < 2 ^ 63)) }
{
    if at > LAST_PLACE {
        return Err(ErrorKind::InvalidInput.into());
    }
    match file.write_at(piece, at as u64)? {
        0 => Err(ErrorKind::WriteZero.into()),
        count => Ok(count),
    }
}
