ghost use Rattle.std.specs.Prelude.{◌≡◌, ◌⊎◌, ◌≤◌, ◌<◌, ◌+◌, ◌-◌, ◌^◌, true, false, Some, length, take, drop, IsOk, IsErr, OnOk, OnErr, vec_capacity};
ghost use Rattle.std.proofs.Common.{inl};
ghost use Rattle.outside_io.specs.Causes.{HasCause};
ghost use Rattle.disk_model.specs.Crash.{settled, with_range, overwritten, MayLeave, IsWithin, Elapses, Remembers};
ghost use Rattle.disk_model.specs.Past.{LeftSince, only_this};
ghost use Rattle.file_disk.specs.OnFile.{OnFile, opened, refused, broken_down, with_written, torn, all_synced};

use crate::file::DiskFile;
use disk_model::overwrite::overwrite;
use disk_model::{Disk, DiskFault, DiskPast};
use lists::NoMemory;
use std::marker::Model;

/// A file of the system as a disk, with its bytes in memory too: reads are served from there.
#[derive(Drop)]
pub struct FileDisk<F: DiskFile + Drop> {
    file: F,
    mirror: Vec<u8>,
    most: usize,
    /// A write or a sync of the file has failed: what the file has is not known.
    broken: bool,
    faults: u64,
    past: DiskPast,
}

impl<F: DiskFile + Drop> Model for FileDisk<F> {
    ghost use Rattle.std.specs.Prelude.{◌≤◌, ◌<◌, ◌^◌, length};
    ghost use Rattle.disk_model.specs.Crash.{MayLeave};
    ghost use Rattle.file_disk.specs.OnFile.{OnFile};

    ghost Value = { OnFile F };

    ghost view = { λ d. record {
      file = d.file;
      bytes = d.mirror.items;
      pending = d.past.kept.now;
      past = d.past.kept.before;
      most = d.most;
      broken = d.broken;
      faults = d.faults;
    } };

    ghost invariant = { λ d. MayLeave d.past.kept.now d.mirror.items
        × (length d.mirror.items ≤ d.most) × (d.most < 2 ^ 63) };
}

impl<F: DiskFile + Drop> FileDisk<F> {
    /// What a read gives.
    pub fn bytes(&self) -> &[u8]
        ensures { result.now ≡ self.now.bytes }
    {
        self.mirror.as_slice()
    }

    /// The open file.
    pub(crate) fn file(&self) -> &F
        ensures { result.now ≡ self.now.file }
    {
        &self.file
    }

    // A disk over a file that has these bytes, all of them safe.
    #[tactic(auto, using(disk_model::proofs::lemmas::Crash::settled_stays))]
    pub(crate) fn over(file: F, mirror: Vec<u8>, most: usize) -> FileDisk<F>
        requires short { length mirror.items ≤ most }
        requires most { most < 2 ^ 63 }
        ensures { result ≡ opened file most mirror.items }
    {
        let past = DiskPast::begun(&mirror);
        FileDisk {
            file,
            mirror,
            most,
            broken: false,
            faults: 0,
            past,
        }
    }

    // Counts a fault.
    fn fail<T>(&mut self) -> Result<T, DiskFault>
        ensures err { IsErr result }
        ensures cause { HasCause (Some (2 ^ 64 - 1)) self.old.faults self.new.faults result }
        ensures same { self.new ≡ refused self.old }
    {
        self.faults = self.faults.saturating_add(1);
        Err(DiskFault)
    }

    // Counts a fault after which the file is not to be trusted.
    pub(crate) fn break_down<T>(&mut self) -> Result<T, DiskFault>
        ensures err { IsErr result }
        ensures cause { HasCause (Some (2 ^ 64 - 1)) self.old.faults self.new.faults result }
        ensures same { self.new ≡ broken_down self.old.file self.old }
    {
        self.broken = true;
        self.fail()
    }
}

impl<F: DiskFile + Drop> Disk for FileDisk<F> {
    ghost seen = { λ d. d.bytes };

    ghost pending = { λ d. d.pending };

    ghost moment = { λ d. length d.past };

    ghost left_since = { λ d. LeftSince d.past d.pending };

    ghost most = { λ d. d.most };

    ghost faults = { λ d. d.faults };

    ghost last = { Some (2 ^ 64 - 1) };

    ghost counts_now = { λ d t bytes le may. inl may };

    ghost only_now = { λ d bytes left. only_this d.past d.pending bytes left };

    fn room(&self) -> u64 {
        self.most as u64
    }

    fn len(&mut self) -> Result<u64, DiskFault> {
        Ok(self.mirror.len() as u64)
    }

    fn read_at(&mut self, at: u64, room: &mut [u8]) -> Result<(), DiskFault> {
        let at = at as usize;
        room.copy_from_slice(&self.mirror[at..at + room.len()]);
        Ok(())
    }

    #[tactic(auto, using(disk_model::proofs::lemmas::Crash::within_with_range, disk_model::proofs::lemmas::Crash::written_stays, disk_model::proofs::lemmas::Crash::length_overwritten, disk_model::proofs::lemmas::Past::kept_by_write))]
    fn write_at(&mut self, at: u64, piece: &[u8]) -> Result<(), DiskFault>
        requires begins { at ≤ length self.old.bytes }
        requires ends { at + length piece.now ≤ self.old.most }
        ensures written { OnOk result (self.new.bytes ≡ overwritten self.old.bytes at piece.now) }
        ensures room { self.new.most ≡ self.old.most }
        ensures crash { IsWithin self.new.pending
            (with_range at (length piece.now) self.old.pending) }
        ensures stays { MayLeave self.new.pending self.new.bytes }
        ensures time { Elapses (λ (d : OnFile F). length d.past)
            (λ (d : OnFile F). LeftSince d.past d.pending) (λ (d : OnFile F). d.pending) self.old self.new }
        ensures remembers { Remembers (λ (d : OnFile F). length d.past)
            (λ (d : OnFile F). LeftSince d.past d.pending) self.old self.new }
        ensures cause { HasCause (Some (2 ^ 64 - 1)) self.old.faults self.new.faults result }
        // after a fault of the file each write is refused, and an `Err` is a refusal or a fault of the file
        ensures ok { OnOk result ((self.old.broken ≡ false)
            × (self.new ≡ with_written self.new.file at piece.now self.old)
            × F.wrote self.old.file at piece.now self.new.file) }
        ensures err { OnErr result ((self.new ≡ refused self.old)
            ⊎ (self.old.broken ≡ false) × (self.new ≡ torn self.new.file at (length piece.now) self.old)
            × F.failed self.old.file self.new.file) }
    {
        let start = at as usize;
        if self.broken {
            return self.fail();
        }
        if make_room(&mut self.mirror, start + piece.len()).is_err() {
            return self.fail();
        }
        self.past = self.past.wrote(start, piece.len());
        if self.file.write_piece(at, piece).is_err() {
            return self.break_down();
        }
        let _ = overwrite(&mut self.mirror, start, piece);
        Ok(())
    }

    #[tactic(auto, using(disk_model::proofs::lemmas::Crash::only_settled, disk_model::proofs::lemmas::Crash::settled_stays, disk_model::proofs::lemmas::Crash::settled_within))]
    fn sync(&mut self) -> Result<(), DiskFault>
        ensures durable { OnOk result (self.new.pending ≡ settled self.old.bytes) }
        ensures bytes { self.new.bytes ≡ self.old.bytes }
        ensures room { self.new.most ≡ self.old.most }
        ensures crash { IsWithin self.new.pending self.old.pending }
        ensures stays { MayLeave self.new.pending self.new.bytes }
        ensures time { Elapses (λ (d : OnFile F). length d.past)
            (λ (d : OnFile F). LeftSince d.past d.pending) (λ (d : OnFile F). d.pending) self.old self.new }
        ensures remembers { Remembers (λ (d : OnFile F). length d.past)
            (λ (d : OnFile F). LeftSince d.past d.pending) self.old self.new }
        ensures cause { HasCause (Some (2 ^ 64 - 1)) self.old.faults self.new.faults result }
        // after a fault of the file each sync is refused, and no other one
        ensures ok { OnOk result ((self.old.broken ≡ false) × (self.new ≡ all_synced self.new.file self.old)
            × F.synced self.old.file self.new.file) }
        ensures err { OnErr result ((self.new ≡ broken_down self.new.file self.old)
            × (((self.old.broken ≡ true) × (self.new.file ≡ self.old.file))
            ⊎ F.failed self.old.file self.new.file)) }
    {
        if self.broken {
            return self.fail();
        }
        if self.file.sync_written().is_err() {
            return self.break_down();
        }
        self.past = self.past.remember().settled(&self.mirror);
        Ok(())
    }
}

// Takes memory for so many bytes in all, and changes none.
fn make_room(bytes: &mut Vec<u8>, count: usize) -> Result<(), NoMemory>
    ensures same { bytes.new.items ≡ bytes.old.items }
    ensures room { OnOk result (count ≤ vec_capacity bytes.new) }
{
    if count > bytes.len() {
        bytes.reserve(count - bytes.len())?;
    }
    Ok(())
}
