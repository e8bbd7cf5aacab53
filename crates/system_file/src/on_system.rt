ghost use Rattle.std.specs.Prelude.{◌≡◌, IfOk, IsTrue};
ghost use Rattle.system_file.specs.Files.{file_is_usable, IsJustOpened};

use crate::contents::FirstContents;
use crate::host_file::HostFile;
use crate::new_files::NewFiles;
use crate::open_refusal::OpenRefusal;
use crate::opening::{make_new, open_existing};
use crate::recorded_file::RecordedFile;
use file_disk::FileSystem;
use std::fs::File;

/// The file of a node on a disk of the system.
pub type SystemFile<S> = RecordedFile<HostFile, S>;

/// Opens the plain file at a path, which is to be there, as the file of the node of this number. It is locked until it
/// is dropped. It and its folder are synced, so that what is read is what a crash leaves. What is read may come from the
/// kernel's memory and not from the disk: std has no call that drops what the kernel keeps. For one value of `S` a number
/// is to be opened once.
pub fn open<S: FirstContents, R: FileSystem<File>>(
    rt: &R,
    path: &str,
    number: u32,
    _contents: &S,
) -> Result<SystemFile<S>, OpenRefusal>
    ensures usable { IfOk result (λ file. IsTrue (file_is_usable file)) }
    ensures fresh { IfOk result (IsJustOpened number) }
{
    let file = open_existing(rt, path)?;
    Ok(RecordedFile::opened(HostFile::opened(file), number))
}

/// Makes a file at a path where nothing stands, and opens it so.
pub fn create<S: FirstContents, R: FileSystem<File> + NewFiles<File>>(
    rt: &R,
    path: &str,
    number: u32,
    _contents: &S,
) -> Result<SystemFile<S>, OpenRefusal>
    ensures usable { IfOk result (λ file. IsTrue (file_is_usable file)) }
    ensures fresh { IfOk result (IsJustOpened number) }
{
    let file = make_new(rt, path)?;
    Ok(RecordedFile::opened(HostFile::opened(file), number))
}

/// The same file. It may go to another thread.
pub fn for_another_thread<S: FirstContents + Send>(file: SystemFile<S>) -> SystemFile<S>
    ensures { result ≡ file }
{
    may_go(file)
}

fn may_go<T: Send>(value: T) -> T
    ensures { result ≡ value }
{
    value
}
