ghost use Rattle.std.specs.Prelude.{◌≡◌, IfErr};
ghost use Rattle.pasis_store.specs.Ends.{IsUnderstood, filling_end, renewal_status};

use crate::create::{is_empty, make, unmake};
use crate::folder::{FileStore, open_journal, sync_folder};
use crate::nodes::Nodes;
use crate::opening::open_well;
use crate::scrub::scrub;
use cluster_file::Membership;
use lists::NoMemory;
use std::fs;
use std::io::{self, ErrorKind};
use std::path::Path;
use std::thread::Threads;
use store_care::{Filled, FilledDisk, fill_disk};
use store_words::{Refusal, Status};

/// Gives a node, whose directory is empty or gone, a new one, and scrubs the store. The new directory is made beside its place, filled with what
/// the other nodes hold, and only then put there: until then the node is down.
pub fn renew<T: Threads + Sync>(
    rt: &HostRuntime,
    threads: &T,
    node: u32,
    folders: &[String],
) -> Result<Status, Refusal>
    ensures { IfErr result IsUnderstood }
{
    let (Some(folder), Ok(number)) = (folders.get(node as usize), u8::try_from(node)) else {
        return Err(Refusal::NoStore {
            folders: folders.len(),
        });
    };
    if let Err(error) = is_vacant(rt, folder.as_str()) {
        return Ok(failed(rt, folder.as_str(), error));
    }
    let folder = without_slashes(folder.as_str());
    match renewed(rt, threads, number, folder, folders)? {
        Status::Done => Ok(renewal_status(scrub(rt, threads, folders)?)),
        status => Ok(status),
    }
}

// The status of a renewal, behind which a scrub ended with this one.
fn renewal_status(scrubbed: Status) -> Status
    ensures { result ≡ renewal_status scrubbed }
{
    match scrubbed {
        Status::Done => Status::Mended,
        status => status,
    }
}

// Tells what the system said of a path.
fn failed(rt: &HostRuntime, path: &str, error: io::Error) -> Status {
    let _ = eprintln!(rt; "pasis_store: {path}: {error}");
    Status::Failed
}

// A directory that a new one may take the place of: it is empty, or isn't there.
fn is_vacant(rt: &HostRuntime, folder: &str) -> io::Result<()> {
    match is_empty(rt, folder) {
        Ok(true) => Ok(()),
        Ok(false) => Err(io::Error::from(ErrorKind::DirectoryNotEmpty)),
        Err(error) if error.kind() == ErrorKind::NotFound => Ok(()),
        Err(error) => Err(error),
    }
}

// A path without the slashes at its end, so that what stands beside it isn't within it.
fn without_slashes(path: &str) -> &str {
    let mut path = path;
    for _ in 0..path.len() {
        match path.strip_suffix('/') {
            Some(shorter) if !shorter.is_empty() => path = shorter,
            _ => return path,
        }
    }
    path
}

// Makes a new directory for a node, fills it, and puts it in its place.
fn renewed<T: Threads + Sync>(
    rt: &HostRuntime,
    threads: &T,
    number: u8,
    folder: &str,
    folders: &[String],
) -> Result<Status, Refusal>
    ensures { IfErr result IsUnderstood }
{
    let Nodes { mut store, id, .. } = open_well(rt, folders)?;
    let config = *store.config();
    let Ok(beside) = format!(in rt.alloc(); "{folder}.new") else {
        return Err(Refusal::NoMemory);
    };
    // What an earlier call left there, if it was cut off, is taken away.
    unmake(rt, beside.as_str(), true);
    let membership = Membership {
        config,
        node: number,
        id,
    };
    if let Err(error) = make(rt, beside.as_str(), &membership) {
        return Ok(failed(rt, beside.as_str(), error));
    }
    let filled = filled(rt, threads, number, beside.as_str(), &mut store);
    if !matches!(filled, Ok(Status::Done)) {
        unmake(rt, beside.as_str(), true);
        return filled;
    }
    Ok(put_in_place(rt, beside.as_str(), folder))
}

// Puts a directory in the place of another one, which is empty or isn't there.
fn put_in_place(rt: &HostRuntime, beside: &str, folder: &str) -> Status {
    match fs::rename(rt, beside, folder) {
        Ok(()) => {
            sync_parent(rt, folder);
            Status::Done
        }
        Err(error) => {
            unmake(rt, beside, true);
            failed(rt, folder, error)
        }
    }
}

// Syncs the directory that a path stands in.
fn sync_parent(rt: &HostRuntime, path: &str) {
    let parent = match Path::new(path).parent() {
        Some(parent) if !parent.as_str().is_empty() => parent.as_str(),
        _ => ".",
    };
    if let Err(error) = sync_folder(rt, parent) {
        let _ = eprintln!(rt; "pasis_store: {parent}: {error}");
    }
}

// Fills the new directory of a node.
fn filled<T: Threads + Sync>(
    rt: &HostRuntime,
    threads: &T,
    number: u8,
    folder: &str,
    store: &mut FileStore,
) -> Result<Status, Refusal>
    ensures { IfErr result IsUnderstood }
{
    let disk = match open_journal(rt, folder) {
        Ok(disk) => disk,
        Err(why) => {
            let _ = eprintln!(rt; "pasis_store: {folder}: {why}");
            return Ok(Status::Failed);
        }
    };
    let FilledDisk { filled, .. } = fill_disk(threads, rt.alloc(), store, number, disk)?;
    end_of(&filled)
}

// How a renewal goes on whose new node was given this.
fn end_of(filled: &Filled) -> Result<Status, Refusal>
    ensures { result ≡ filling_end filled.now.missed }
{
    match filled.missed {
        0 => Ok(Status::Done),
        blocks => Err(Refusal::Unread { blocks }),
    }
}
