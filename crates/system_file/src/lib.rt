//! The file of a storage node on a disk of the system.
#![tactic(auto)]

pub mod call_record;
pub mod contents;
pub mod host_file;
pub mod new_files;
pub mod on_system;
pub mod open_refusal;
pub mod opening;
pub mod recorded_file;
mod steps;

pub use contents::{FirstContents, UnknownContents};
pub use host_file::HostFile;
pub use new_files::NewFiles;
pub use on_system::{SystemFile, create, for_another_thread, open};
pub use open_refusal::OpenRefusal;
pub use recorded_file::RecordedFile;
