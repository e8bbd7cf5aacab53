use crate::folder::{path_in, write_folder};
use cluster_file::Membership;
use quorum_rules::Config;
use std::fs;
use std::io::{self, ErrorKind, Read};
use store_words::Status;

/// Makes a store: each directory is made, or is empty, and gets its two files. Where one can't be made, what was made is taken away.
pub fn create(rt: &HostRuntime, config: &Config, folders: &[String]) -> Status {
    match new_id(rt) {
        Ok(id) => create_all(rt, config, folders, id),
        Err(error) => {
            let _ = eprintln!(rt; "pasis_store: no random bytes: {error}");
            Status::Failed
        }
    }
}

// Sixteen random bytes.
fn new_id(rt: &HostRuntime) -> io::Result<[u8; 16]> {
    let mut id = [0u8; 16];
    fs::open(rt, "/dev/urandom")?.read_exact(&mut id)?;
    Ok(id)
}

fn create_all(rt: &HostRuntime, config: &Config, folders: &[String], id: [u8; 16]) -> Status {
    let mut made = Vec::new(rt.alloc());
    let mut node = 0;
    for folder in folders {
        let membership = Membership {
            config: *config,
            node,
            id,
        };
        let done = match make(rt, folder.as_str(), &membership) {
            Ok(is_new) => made.push(is_new).map_err(|failed| io::Error::from(failed)),
            Err(error) => Err(error),
        };
        if let Err(error) = done {
            let _ = eprintln!(rt; "pasis_store: {folder}: {error}");
            unmake_all(rt, folders, &made);
            return Status::Failed;
        }
        node = node.saturating_add(1);
    }
    Status::Done
}

fn unmake_all(rt: &HostRuntime, folders: &[String], made: &[bool]) {
    for (folder, is_new) in folders.iter().zip(made) {
        unmake(rt, folder.as_str(), *is_new);
    }
}

/// Makes the directory of a node, which is new or empty, and tells whether it is new. Where that fails, what was made is taken away.
pub fn make(rt: &HostRuntime, folder: &str, membership: &Membership) -> io::Result<bool> {
    let is_new = match fs::create_dir(rt, folder) {
        Ok(()) => true,
        Err(error) if error.kind() == ErrorKind::AlreadyExists => false,
        Err(error) => return Err(error),
    };
    if !is_new && !is_empty(rt, folder)? {
        return Err(io::Error::from(ErrorKind::DirectoryNotEmpty));
    }
    match write_folder(rt, folder, membership) {
        Ok(()) => Ok(is_new),
        Err(error) => {
            unmake(rt, folder, is_new);
            Err(error)
        }
    }
}

/// Whether a directory has nothing in it.
pub fn is_empty(rt: &HostRuntime, folder: &str) -> io::Result<bool> {
    Ok(fs::read_dir(rt, folder)?.next().is_none())
}

/// Takes the files of a node away, and the directory where that is new too.
pub fn unmake(rt: &HostRuntime, folder: &str, is_new: bool) {
    for name in ["journal", "cluster"] {
        if let Ok(path) = path_in(rt.alloc(), folder, name) {
            let _ = fs::remove_file(rt, path.as_str());
        }
    }
    if is_new {
        let _ = fs::remove_dir(rt, folder);
    }
}
