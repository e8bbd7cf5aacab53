//! A node's directory: its file `cluster`, and its file `journal`.
ghost use Rattle.std.specs.Prelude.{◌≡◌, ◌<◌, OnOk, OnErr};
ghost use Rattle.pasis_store.specs.Upkeep.{IsSeated};

use cluster_file::{Membership, MembershipRefusal};
use file_disk::{FileDisk, FileRefusal, Opening};
use lists::NoMemory;
use std::alloc::Global;
use std::fs::{self, File};
use std::io::{self, ErrorKind, Write};
use store_device::Store;
use store_words::Down;
use text_lines::Text;
use version_disk::{OpenRefusal, StoredNode};

/// A disk that is a file.
pub type Journal = FileDisk<File>;

/// A node whose journal is a file.
pub type FileNode = StoredNode<Journal>;

/// The store of directories.
pub type FileStore = Store<Journal>;

/// How long a journal may be, in bytes.
pub const MOST: usize = 1 << 40;

/// The path of a file in a directory.
pub fn path_in(alloc: Global, folder: &str, name: &str) -> Result<String, NoMemory> {
    match format!(in alloc; "{folder}/{name}") {
        Ok(path) => Ok(path),
        Err(_) => Err(NoMemory),
    }
}

/// Whose a directory is.
pub fn membership_of(rt: &HostRuntime, folder: &str) -> Result<Membership, Down> {
    let Ok(path) = path_in(rt.alloc(), folder, "cluster") else {
        return Err(Down::NoMemory);
    };
    let Ok(text) = fs::read(rt, path.as_str()) else {
        return Err(Down::NoCluster);
    };
    match Membership::read(rt.alloc(), text.as_slice()) {
        Ok(membership) => Ok(membership),
        Err(MembershipRefusal::NoMemory) => Err(Down::NoMemory),
        Err(MembershipRefusal::BadLine(line)) => Err(Down::BadLine(line)),
    }
}

/// Opens the journal of a node, and has the node sit on its seat.
pub fn seat_folder(
    rt: &HostRuntime,
    store: &mut FileStore,
    seat: u8,
    folder: &str,
) -> Result<(), Down>
    requires { seat < store.old.config.n }
    ensures { store.new.config ≡ store.old.config }
{
    let disk = open_journal(rt, folder)?;
    seat_journal(rt.alloc(), store, seat, disk)
}

/// Has the node that a journal holds sit on its seat.
pub fn seat_journal(
    alloc: Global,
    store: &mut FileStore,
    seat: u8,
    disk: Journal,
) -> Result<(), Down>
    requires { seat < store.old.config.n }
    ensures config { store.new.config ≡ store.old.config }
    ensures seated { OnOk result (IsSeated seat disk.bytes store.old store.new) }
    ensures err { OnErr result (store.new ≡ store.old) }
{
    match store.seat_disk(alloc, seat, disk) {
        Ok(()) => Ok(()),
        Err(OpenRefusal::NoMemory(_)) => Err(Down::NoMemory),
        Err(OpenRefusal::DiskFault(_)) => Err(Down::Fault),
        Err(OpenRefusal::Damaged { slot, .. }) => Err(Down::Damaged(slot)),
    }
}

/// Opens the journal in a directory.
pub fn open_journal(rt: &HostRuntime, folder: &str) -> Result<Journal, Down> {
    let Ok(path) = path_in(rt.alloc(), folder, "journal") else {
        return Err(Down::NoMemory);
    };
    match FileDisk::open(rt, rt.alloc(), path.as_str(), Opening::Existing, MOST) {
        Ok(disk) => Ok(disk),
        Err(FileRefusal::NoMemory) => Err(Down::NoMemory),
        Err(refusal) => Err(Down::Journal(refusal)),
    }
}

/// Writes the two files of a node that has kept nothing yet to a directory that is there, and syncs them and it.
pub fn write_folder(rt: &HostRuntime, folder: &str, membership: &Membership) -> io::Result<()> {
    let mut text = Text::new(rt.alloc());
    if membership.write(&mut text).is_err() {
        return Err(io::Error::from(ErrorKind::OutOfMemory));
    }
    write_file(rt, folder, "cluster", text.as_slice())?;
    write_file(rt, folder, "journal", &[])?;
    sync_folder(rt, folder)
}

// Writes a new file to a directory, and syncs it.
fn write_file(rt: &HostRuntime, folder: &str, name: &str, bytes: &[u8]) -> io::Result<()> {
    let Ok(path) = path_in(rt.alloc(), folder, name) else {
        return Err(io::Error::from(ErrorKind::OutOfMemory));
    };
    let mut file = File::create_new(rt, path.as_str())?;
    file.write_all(bytes)?;
    file.sync_all()
}

/// Syncs a directory: what was made or renamed there is then safe.
pub fn sync_folder(rt: &HostRuntime, folder: &str) -> io::Result<()> {
    fs::open(rt, folder)?.sync_all()
}
