//! A disk that is a file of the system.
#![tactic(auto)]

ghost use Rattle.std.specs.Prelude.{◌≡◌};

pub mod disk;
pub mod file;
mod open;
pub mod opening;
pub mod refusal;
pub mod standing;
pub mod system;

pub use disk::FileDisk;
pub use file::DiskFile;
pub use opening::Opening;
pub use refusal::FileRefusal;
pub use standing::Standing;
use std::fs::File;
pub use system::FileSystem;

/// The same disk. It may go to another thread.
pub fn for_another_thread(disk: FileDisk<File>) -> FileDisk<File>
    ensures { result ≡ disk }
{
    may_go(disk)
}

fn may_go<T: Send>(value: T) -> T
    ensures { result ≡ value }
{
    value
}
