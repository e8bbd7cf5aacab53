ghost use Rattle.std.specs.Prelude.{◌≡◌};

use std::alloc::AllocError;
use std::io;
use thiserror::Error;

/// Why a file was not opened as a disk.
#[derive(Clone, Copy, Debug, PartialEq, Eq, Error)]
pub enum FileRefusal {
    /// Nothing stands at the path, and no file was to be made.
    #[error("no file stands there")]
    Missing,
    /// A folder, a device or something else that is no plain file stands at the path.
    #[error("what stands there is no plain file")]
    NotPlain,
    /// Another process, or another handle of this one, has the file locked.
    #[error("another process has the file open")]
    Locked,
    /// While the file was opened another one was put in its place.
    #[error("the file was replaced while it was opened")]
    Replaced,
    /// The file is longer than the disk may be.
    #[error("the file is too long")]
    TooLong,
    /// No memory was found for the file's bytes.
    #[error("no memory for the file's bytes")]
    NoMemory,
    /// A call of the system failed.
    #[error("the system failed")]
    Fault,
}

impl From<io::Error> for FileRefusal {
    ghost use Rattle.file_disk.specs.declared.refusal.FileRefusal.TheVariants.{Fault};

    ghost from_gives = { λ _ e. e ≡ Fault };

    fn from(_: io::Error) -> FileRefusal {
        FileRefusal::Fault
    }
}

impl From<AllocError> for FileRefusal {
    ghost use Rattle.file_disk.specs.declared.refusal.FileRefusal.TheVariants.{NoMemory};

    ghost from_gives = { λ _ e. e ≡ NoMemory };

    fn from(_: AllocError) -> FileRefusal {
        FileRefusal::NoMemory
    }
}
