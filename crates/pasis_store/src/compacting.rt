//! Journals that are written anew.
ghost use Rattle.std.specs.Prelude.{◌≡◌, ◌<◌, true, IfSome, OnOk, OnErr};
ghost use Rattle.store_device.specs.Stores.{seat_at, is_up};
ghost use Rattle.pasis_store.specs.Upkeep.{Holds, IsReseated, IsTended};

use crate::folder::{FileStore, Journal, MOST, path_in};
use crate::telling::tell;
use file_disk::{FileDisk, Opening};
use lists::NoMemory;
use std::alloc::Global;
use store_words::{Down, Notice};

/// A journal that is longer than twice what it could be, and this many bytes, is written anew.
const LEAST: u64 = 1 << 16;

// Where a node's journal stands, and where a new one is written.
#[derive(Drop)]
struct Places {
    path: String,
    beside: String,
}

/// Writes the journals anew that are due: the nodes go on on them as they are.
pub fn compact_due(rt: &HostRuntime, folders: &[String], store: &mut FileStore)
    ensures tended { IsTended store.old store.new }
    ensures config { store.new.config ≡ store.old.config }
{
    for seat in 0..store.config().n() as u8 {
        compact_one(rt, folders, seat, store);
    }
}

// The same of one node.
#[tactic(auto, using(crate::proofs::Journals::same_seats))]
fn compact_one(rt: &HostRuntime, folders: &[String], seat: u8, store: &mut FileStore)
    requires { seat < store.old.config.n }
    ensures { IsReseated store.old store.new }
{
    let Some(folder) = folders.get(usize::from(seat)) else {
        return;
    };
    if is_due(store, usize::from(seat)) {
        compact(rt, folder.as_str(), seat, store);
    }
}

// Whether the journal of a node that is up is to be written anew.
fn is_due(store: &FileStore, seat: usize) -> bool
    ensures { result ≡ true → is_up (seat_at store.now seat) ≡ true }
{
    if !store.is_up(seat) {
        return false;
    }
    match store.node(seat) {
        Some(node) => node.is_due(LEAST),
        None => false,
    }
}

// Writes a node's journal anew beside it, puts it in its place, and has the node go on on it. Where it can't be written, the node goes on with
// the old one. Where it can't be put in its place, it isn't known which of the two stands there, so neither is to be written: the node is down
// until the store is opened again.
#[tactic(auto, using(crate::proofs::Journals::same_seats, crate::proofs::Reseating::taken_out))]
fn compact(rt: &HostRuntime, folder: &str, seat: u8, store: &mut FileStore)
    requires { seat < store.old.config.n }
    ensures { IsReseated store.old store.new }
{
    let Ok(places) = places_in(rt.alloc(), folder) else {
        return;
    };
    let Some(disk) = written_anew(rt, &places, store, usize::from(seat)) else {
        return;
    };
    if let Err(why) = go_on(rt, &places, seat, store, disk) {
        let _ = store.take_node(usize::from(seat));
        tell(
            rt,
            &Notice::Down {
                node: usize::from(seat),
                why,
            },
        );
    }
}

fn places_in(alloc: Global, folder: &str) -> Result<Places, NoMemory> {
    Ok(Places {
        path: path_in(alloc, folder, "journal")?,
        beside: path_in(alloc, folder, "journal.new")?,
    })
}

// The shortest journal of the node that sits at a seat, beside its own.
fn written_anew(
    rt: &HostRuntime,
    places: &Places,
    store: &FileStore,
    seat: usize,
) -> Option<Journal>
    ensures { IfSome result
        (λ disk. Holds store.now.config seat disk (seat_at store.now seat)) }
{
    let node = store.node(seat)?;
    let beside = places.beside.as_str();
    let Ok(disk) = FileDisk::open(rt, rt.alloc(), beside, Opening::Emptied, MOST) else {
        return None;
    };
    match node.compact(disk) {
        Ok(disk) => Some(disk),
        Err(_) => None,
    }
}

// Puts a node's new journal in its place, and has the node go on on it.
fn go_on(
    rt: &HostRuntime,
    places: &Places,
    seat: u8,
    store: &mut FileStore,
    disk: Journal,
) -> Result<(), Down>
    requires there { seat < store.old.config.n }
    requires holds { Holds store.old.config seat disk (seat_at store.old seat) }
    ensures on { OnOk result (IsReseated store.old store.new) }
    ensures stays { OnErr result (store.new ≡ store.old) }
{
    let mut disk = disk;
    let Ok(()) = disk.put_in_place(rt, places.beside.as_str(), places.path.as_str()) else {
        return Err(Down::Fault);
    };
    let Some(mut node) = store.take_node(usize::from(seat)) else {
        unreachable!();
    };
    let _was = node.go_on(disk);
    store.seat_node(usize::from(seat), node);
    Ok(())
}
