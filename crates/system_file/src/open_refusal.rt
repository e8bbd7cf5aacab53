ghost use Rattle.std.specs.Prelude.{◌≡◌};

use std::io;
use thiserror::Error;

/// Why the file of a node was not opened.
#[derive(Clone, Copy, Debug, Error)]
pub enum OpenRefusal {
    /// Nothing stands at the path.
    #[error("no file stands there")]
    Missing,
    /// A file was to be made, and something stands at the path.
    #[error("something stands there already")]
    Exists,
    /// A folder, a device or something else that is no plain file stands at the path.
    #[error("what stands there is no plain file")]
    NotPlain,
    /// Another process, or another handle of this one, has the file locked.
    #[error("another process has the file open")]
    Locked,
    /// While the file was opened, another one was put in its place.
    #[error("the file was replaced while it was opened")]
    Replaced,
    /// A call of the system failed, as where the folder is missing or may not be written.
    #[error("the system failed: {0}")]
    Fault(io::Error),
}

impl From<io::Error> for OpenRefusal {
    ghost use Rattle.system_file.specs.declared.open_refusal.OpenRefusal.TheVariants.{Fault};

    ghost from_gives = { λ error refusal. refusal ≡ Fault error };

    fn from(error: io::Error) -> OpenRefusal {
        OpenRefusal::Fault(error)
    }
}
