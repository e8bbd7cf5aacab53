ghost use Rattle.std.specs.Prelude.{ℕ, List, Option, ⊤, IfOk, OnErr};

use file_disk::DiskFile;
use std::fs::{File, Files, OpenOptions};
use std::io::{self, ErrorKind};
use std::os::fd::AsRawFd;

/// The system as it makes files. The ghost members say how it has answered, and of the system itself they say nothing.
pub trait NewFiles<F: DiskFile> {
    // a new file was made at the path, or something stood there
    ghost made: { Self → List ℕ → Option F → Type 0 };

    // a call failed
    ghost failed: { Self → Type 0 };

    /// Makes a file at a path and opens it for reading and writing, if nothing stands there. Its number is none of those of
    /// the standard streams.
    fn make_new(&self, path: &str) -> io::Result<Option<F>>
        ensures ok { IfOk result (λ found. made self.now path.now found) }
        ensures err { OnErr result (failed self.now) };
}

impl<R: Files<File = File>> NewFiles<File> for R {
    ghost made = { λ _ _ _. ⊤ };

    ghost failed = { λ _. ⊤ };

    fn make_new(&self, path: &str) -> io::Result<Option<File>> {
        match OpenOptions::new()
            .read(true)
            .write(true)
            .create_new(true)
            .open(self, path)
        {
            Ok(file) => Ok(Some(above_streams(file)?)),
            Err(error) if error.kind() == ErrorKind::AlreadyExists => Ok(None),
            Err(error) => Err(error),
        }
    }
}

// The same file, with a number above those of the standard streams.
fn above_streams(file: File) -> io::Result<File> {
    if file.as_raw_fd() <= 2 {
        file.try_clone()
    } else {
        Ok(file)
    }
}
