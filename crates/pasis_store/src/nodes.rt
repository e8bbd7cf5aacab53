//! The nodes of a store, opened from their directories.
ghost use Rattle.std.specs.Prelude.{◌≡◌};

use crate::folder::{FileStore, membership_of, seat_folder};
use cluster_file::Membership;
use lists::NoMemory;
use quorum_rules::Config;
use store_device::Store;
use store_words::Down;

/// What a directory tells, or why it tells nothing.
pub type Told = Result<Membership, Down>;

/// A store, what its directories have in common, and for each node why it is down, if it is.
#[derive(Drop)]
pub struct Nodes {
    pub store: FileStore,
    pub id: [u8; 16],
    pub down: Vec<Option<Down>>,
}

/// Opens the nodes in these directories. None where no directory tells of a store of as many nodes.
pub fn open_nodes(rt: &HostRuntime, folders: &[String]) -> Result<Option<Nodes>, NoMemory> {
    let told = told_by_all(rt, folders)?;
    let Some(own) = most_told(&told, folders.len()) else {
        return Ok(None);
    };
    let mut store = Store::empty(rt.alloc(), &own.config)?;
    let mut down = Vec::new(rt.alloc());
    for (number, folder) in folders.iter().enumerate() {
        let told = told.get(number).copied().unwrap_or(Err(Down::Gone));
        down.push(seat(rt, &mut store, &own, number, folder.as_str(), told).err())?;
    }
    Ok(Some(Nodes {
        store,
        id: own.id,
        down,
    }))
}

fn told_by_all(rt: &HostRuntime, folders: &[String]) -> Result<Vec<Told>, NoMemory> {
    let mut told = Vec::new(rt.alloc());
    for folder in folders {
        told.push(told_by(rt, folder.as_str()))?;
    }
    Ok(told)
}

// What a directory tells. The word `-` stands for one that is gone.
fn told_by(rt: &HostRuntime, folder: &str) -> Told {
    if folder == "-" {
        return Err(Down::Gone);
    }
    membership_of(rt, folder)
}

// The membership, in a store of so many nodes, whose store most of the directories are of; the first of them where there are several.
fn most_told(told: &[Told], nodes: usize) -> Option<Membership> {
    let mut best = None;
    let mut most = 0;
    for one in told {
        if let Ok(store) = one {
            let count = count_of(told, store);
            if store.config.n() as usize == nodes && count > most {
                most = count;
                best = Some(*store);
            }
        }
    }
    best
}

// How many of the directories are of this store.
fn count_of(told: &[Told], store: &Membership) -> usize {
    let mut count: usize = 0;
    for one in told {
        if is_of(one, store) {
            count = count.saturating_add(1);
        }
    }
    count
}

// Whether a directory is of this store.
fn is_of(told: &Told, store: &Membership) -> bool {
    match told {
        Ok(own) => own.id == store.id && numbers(&own.config) == numbers(&store.config),
        Err(_) => false,
    }
}

fn numbers(config: &Config) -> [u32; 8] {
    [
        u32::from(config.edition()),
        config.n(),
        config.t(),
        config.b(),
        config.qc(),
        config.m(),
        config.size(),
        config.blocks(),
    ]
}

// Has the node of this number sit on its seat, from a directory that tells this.
fn seat(
    rt: &HostRuntime,
    store: &mut FileStore,
    own: &Membership,
    number: usize,
    folder: &str,
    told: Told,
) -> Result<(), Down>
    ensures { store.new.config ≡ store.old.config }
{
    let found = told?;
    if !is_of(&told, own) {
        return Err(Down::OtherStore);
    }
    if usize::from(found.node) != number || u32::from(found.node) >= store.config().n() {
        return Err(Down::OtherNode(found.node));
    }
    seat_folder(rt, store, found.node, folder)
}
