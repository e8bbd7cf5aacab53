ghost use Rattle.std.specs.Prelude.{ℕ, List, ⊤, IfOk, OnOk, OnErr};
ghost use Rattle.file_disk.specs.Answers.{SystemAnswer, Stands, Finds, Opens, Leads, SyncsFolder, Renames, PathFails};

use crate::file::DiskFile;
use crate::standing::Standing;
use std::fs;
use std::fs::{File, Files, OpenOptions};
use std::io::{self, ErrorKind};
use std::os::fd::AsRawFd;
use std::os::unix::fs::MetadataExt;
use std::path::Path;

/// The system as a disk asks it for files of one type. The ghost member says how it has answered; that of the system itself
/// says nothing.
pub trait FileSystem<F: DiskFile> {
    // the system has answered a call so
    ghost told: { Self → SystemAnswer F → Type 0 };

    /// What stands at a path. A symbolic link is followed.
    fn what_stands(&self, path: &str) -> io::Result<Standing>
        ensures ok { IfOk result (λ standing. told self.now (Stands path.now standing)) }
        ensures err { OnErr result (told self.now PathFails) };

    /// Opens the file at a path for reading and writing, if one is there, and makes none. Its number is none of those of the
    /// standard streams.
    fn open_existing(&self, path: &str) -> io::Result<Option<F>>
        ensures ok { IfOk result (λ found. told self.now (Finds path.now found)) }
        ensures err { OnErr result (told self.now PathFails) };

    /// Opens the file at a path so, and makes it where none is there.
    fn open_or_make(&self, path: &str) -> io::Result<F>
        ensures ok { IfOk result (λ file. told self.now (Opens path.now file)) }
        ensures err { OnErr result (told self.now PathFails) };

    /// Whether a path leads to the file.
    fn leads_to(&self, path: &str, file: &F) -> io::Result<bool>
        ensures ok { IfOk result (λ leads. told self.now (Leads path.now file.now leads)) }
        ensures err { OnErr result (told self.now PathFails) };

    /// Syncs the folder that a path stands in: what was made, renamed or removed there is then safe.
    fn sync_folder(&self, path: &str) -> io::Result<()>
        ensures ok { OnOk result (told self.now (SyncsFolder path.now)) }
        ensures err { OnErr result (told self.now PathFails) };

    /// Gives a file, which was synced since it was written, the name that another has, at once.
    fn rename_file(&self, file: &F, from: &str, to: &str) -> io::Result<()>
        requires { (before : F) × F.synced before file.now }
        ensures ok { OnOk result (told self.now (Renames file.now from.now to.now)) }
        ensures err { OnErr result (told self.now PathFails) };
}

impl<R: Files<File = File>> FileSystem<File> for R {
    ghost told = { λ _ _. ⊤ };

    fn what_stands(&self, path: &str) -> io::Result<Standing> {
        match fs::metadata(self, path) {
            Ok(found) if found.is_file() => Ok(Standing::PlainFile),
            Ok(_) => Ok(Standing::Other),
            Err(error) if error.kind() == ErrorKind::NotFound => Ok(Standing::Nothing),
            Err(error) => Err(error),
        }
    }

    fn open_existing(&self, path: &str) -> io::Result<Option<File>> {
        match open_above_streams(self, path, false) {
            Ok(file) => Ok(Some(file)),
            Err(error) if error.kind() == ErrorKind::NotFound => Ok(None),
            Err(error) => Err(error),
        }
    }

    fn open_or_make(&self, path: &str) -> io::Result<File> {
        open_above_streams(self, path, true)
    }

    fn leads_to(&self, path: &str, file: &File) -> io::Result<bool> {
        let found = file.metadata()?;
        let there = fs::metadata(self, path)?;
        Ok(found.dev() == there.dev() && found.ino() == there.ino())
    }

    fn sync_folder(&self, path: &str) -> io::Result<()> {
        let folder = match Path::new(path).parent() {
            Some(parent) if !parent.as_str().is_empty() => parent.as_str(),
            _ => ".",
        };
        fs::open(self, folder)?.sync_all()
    }

    fn rename_file(&self, _file: &File, from: &str, to: &str) -> io::Result<()> {
        fs::rename(self, from, to)
    }
}

// Opens a file for reading and writing, with a number above those of the standard streams. Where none is there it is made, if one
// may be.
fn open_above_streams<R: Files<File = File>>(
    files: &R,
    path: &str,
    make: bool,
) -> io::Result<File> {
    let file = OpenOptions::new()
        .read(true)
        .write(true)
        .create(make)
        .open(files, path)?;
    if file.as_raw_fd() <= 2 {
        file.try_clone()
    } else {
        Ok(file)
    }
}
