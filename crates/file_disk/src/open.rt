//! How a file is opened as a disk, and put in the place of another.
ghost use Rattle.std.specs.Prelude.{◌≡◌, ◌≤◌, ◌<◌, ◌⊎◌, ◌^◌, ◌-◌, true, false, [], Some, length, IfOk, IfErr, OnOk, OnErr};
ghost use Rattle.outside_io.specs.Causes.{HasCause};
ghost use Rattle.disk_model.specs.Crash.{settled, IsWithin, Elapses, Remembers};
ghost use Rattle.disk_model.specs.Past.{LeftSince};
ghost use Rattle.file_disk.specs.Answers.{Renames, SyncsFolder, PathFails};
ghost use Rattle.file_disk.specs.OnFile.{OnFile, opened};
ghost use Rattle.file_disk.specs.Refused.{IsFound, IsNotFound, IsHeld, IsNotHeld, HasCount, HasNoCount, IsRead, IsNotRead, IsOpened, IsRefused};

use crate::disk::FileDisk;
use crate::file::DiskFile;
use crate::opening::Opening;
use crate::refusal::FileRefusal;
use crate::standing::Standing;
use crate::system::FileSystem;
use disk_model::{Disk, DiskFault};
use std::alloc::Global;

impl<F: DiskFile + Drop> FileDisk<F> {
    /// Opens the file at a path as a disk of at most so many bytes. It is locked until the disk is dropped; it and its folder are
    /// synced before it is read, so that what a read gives is what a crash leaves. Its bytes are read once, into memory.
    pub fn open<R: FileSystem<F>>(
        rt: &R,
        alloc: Global,
        path: &str,
        how: Opening,
        most: usize,
    ) -> Result<FileDisk<F>, FileRefusal>
        requires { most < 2 ^ 63 }
        ensures fresh { IfOk result (λ d. d ≡ opened d.file most d.bytes) }
        ensures short { IfOk result (λ d. length d.bytes ≤ most) }
        ensures emptied { how ≡ Opening.Emptied → IfOk result (λ d. d.bytes ≡ []) }
        // an `Ok` comes only where no step refused the file, and an `Err` only where one did
        ensures ok { IfOk result
            (λ d. IsOpened (R.told rt.now) F.told path.now how most d.file d.bytes) }
        ensures err { IfErr result (IsRefused (R.told rt.now) F.told path.now how most) }
    {
        let file = open_plain(rt, path, how)?;
        lock(rt, path, &file)?;
        let count = count_bytes(&file, how, most)?;
        let mirror = read_settled(rt, alloc, path, &file, count)?;
        Ok(FileDisk::over(file, mirror, most))
    }

    /// Syncs the file and gives it the place of another in the same folder, at once: it is renamed from the one path to the
    /// other, and the folder is synced. Whatever happens, the other path leads to the one file or the other, each whole; after
    /// an `Err` it isn't known to which, and no disk over either is to be written again: open the path anew.
    pub fn put_in_place<R: FileSystem<F>>(
        &mut self,
        rt: &R,
        from: &str,
        to: &str,
    ) -> Result<(), DiskFault>
        ensures ok { OnOk result (R.told rt.now (Renames self.new.file from.now to.now)
            × R.told rt.now (SyncsFolder to.now)) }
        ensures whole { OnOk result (self.old.broken ≡ false) }
        ensures durable { OnOk result (self.new.pending ≡ settled self.old.bytes) }
        ensures err { OnErr result ((self.old.broken ≡ true)
            ⊎ F.failed self.old.file self.new.file ⊎ R.told rt.now PathFails) }
        ensures broken { OnErr result (self.new.broken ≡ true) }
        ensures bytes { self.new.bytes ≡ self.old.bytes }
        ensures room { self.new.most ≡ self.old.most }
        ensures crash { IsWithin self.new.pending self.old.pending }
        ensures time { Elapses (λ (d : OnFile F). length d.past)
            (λ (d : OnFile F). LeftSince d.past d.pending) (λ (d : OnFile F). d.pending) self.old self.new }
        ensures remembers { Remembers (λ (d : OnFile F). length d.past)
            (λ (d : OnFile F). LeftSince d.past d.pending) self.old self.new }
        ensures cause { HasCause (Some (2 ^ 64 - 1)) self.old.faults self.new.faults result }
    {
        self.sync()?;
        if rt.rename_file(self.file(), from, to).is_err() {
            return self.break_down();
        }
        if rt.sync_folder(to).is_err() {
            return self.break_down();
        }
        Ok(())
    }
}

// Opens the plain file at a path, or makes it where one may be made.
fn open_plain<F: DiskFile + Drop, R: FileSystem<F>>(
    rt: &R,
    path: &str,
    how: Opening,
) -> Result<F, FileRefusal>
    ensures ok { IfOk result (IsFound (R.told rt.now) path.now how) }
    ensures err { IfErr result (IsNotFound (R.told rt.now) path.now how) }
{
    match (rt.what_stands(path)?, how) {
        (Standing::Other, _) => Err(FileRefusal::NotPlain),
        (Standing::Nothing, Opening::Existing) => Err(FileRefusal::Missing),
        (Standing::PlainFile, Opening::Existing) => match rt.open_existing(path)? {
            Some(file) => Ok(file),
            None => Err(FileRefusal::Missing),
        },
        (_, Opening::ExistingOrNew | Opening::Emptied) => Ok(rt.open_or_make(path)?),
    }
}

// Locks a file that was opened at a path, if the path still leads to it.
fn lock<F: DiskFile, R: FileSystem<F>>(rt: &R, path: &str, file: &F) -> Result<(), FileRefusal>
    ensures ok { OnOk result (IsHeld (R.told rt.now) F.told path.now file.now) }
    ensures err { IfErr result (IsNotHeld (R.told rt.now) F.told path.now file.now) }
{
    if !file.try_to_lock()? {
        return Err(FileRefusal::Locked);
    }
    if !rt.leads_to(path, file)? {
        return Err(FileRefusal::Replaced);
    }
    Ok(())
}

// How many bytes are to be read from a file.
fn count_bytes<F: DiskFile>(file: &F, how: Opening, most: usize) -> Result<usize, FileRefusal>
    ensures ok { IfOk result (HasCount F.told how most file.now) }
    ensures short { IfOk result (λ count. count ≤ most) }
    ensures err { IfErr result (HasNoCount F.told how most file.now) }
{
    let Some(count) = file.measure()? else {
        return Err(FileRefusal::NotPlain);
    };
    if how == Opening::Emptied {
        file.empty()?;
        return Ok(0);
    }
    if count > most as u64 {
        return Err(FileRefusal::TooLong);
    }
    Ok(count as usize)
}

// Makes safe a file and its folder, and reads so many bytes of the file.
fn read_settled<F: DiskFile, R: FileSystem<F>>(
    rt: &R,
    alloc: Global,
    path: &str,
    file: &F,
    count: usize,
) -> Result<Vec<u8>, FileRefusal>
    ensures ok { IfOk result
        (λ bytes. IsRead (R.told rt.now) F.told path.now file.now bytes.items) }
    ensures count { IfOk result (λ bytes. length bytes.items ≡ count) }
    ensures err { IfErr result (IsNotRead (R.told rt.now) F.told path.now file.now) }
{
    let mut bytes = vec![in alloc; 0u8; count]?;
    file.settle()?;
    rt.sync_folder(path)?;
    file.read_whole(&mut bytes)?;
    Ok(bytes)
}
