//! The end of a file system: the greatest length that a file may have there.
ghost use Rattle.std.specs.Prelude.{⊤};

use crate::faults::append;
use disk_model::{Disk, DiskFault};
use file_disk::{DiskFile, FileDisk, FileSystem, Opening, Standing};
use std::fs::File;
use std::os::unix::fs::FileExt;
use std::rt::Files;
use std::test::Fail;
use std::{fs, io};

/// The bytes of a file from a far place on.
#[derive(Drop)]
struct FarFile {
    file: File,
    from: u64,
}

impl DiskFile for FarFile {
    ghost told = { λ _ _. ⊤ };

    ghost wrote = { λ _ _ _ _. ⊤ };

    ghost synced = { λ _ _. ⊤ };

    ghost failed = { λ _ _. ⊤ };

    fn try_to_lock(&self) -> io::Result<bool> {
        self.file.try_to_lock()
    }

    fn measure(&self) -> io::Result<Option<u64>> {
        match self.file.measure()? {
            Some(count) => Ok(Some(count.saturating_sub(self.from))),
            None => Ok(None),
        }
    }

    fn empty(&self) -> io::Result<()> {
        self.file.set_len(self.from)
    }

    fn settle(&self) -> io::Result<()> {
        self.file.settle()
    }

    fn read_whole(&self, room: &mut [u8]) -> io::Result<()> {
        self.file.read_exact_at(room, self.from)
    }

    fn write_piece(&mut self, at: u64, piece: &[u8]) -> io::Result<()> {
        self.file.write_piece(self.from.saturating_add(at), piece)
    }

    fn sync_written(&mut self) -> io::Result<()> {
        self.file.sync_written()
    }
}

/// The system's files, each from this place on.
#[derive(Drop)]
struct Far<'a, R> {
    rt: &'a R,
    from: u64,
}

impl<R: Files<File = File>> FileSystem<FarFile> for Far<'_, R> {
    ghost told = { λ _ _. ⊤ };

    fn what_stands(&self, path: &str) -> io::Result<Standing> {
        FileSystem::<File>::what_stands(self.rt, path)
    }

    fn open_existing(&self, path: &str) -> io::Result<Option<FarFile>> {
        match self.rt.open_existing(path)? {
            Some(file) => Ok(Some(FarFile {
                file,
                from: self.from,
            })),
            None => Ok(None),
        }
    }

    fn open_or_make(&self, path: &str) -> io::Result<FarFile> {
        let file = self.rt.open_or_make(path)?;
        Ok(FarFile {
            file,
            from: self.from,
        })
    }

    fn leads_to(&self, path: &str, file: &FarFile) -> io::Result<bool> {
        self.rt.leads_to(path, &file.file)
    }

    fn sync_folder(&self, path: &str) -> io::Result<()> {
        FileSystem::<File>::sync_folder(self.rt, path)
    }

    fn rename_file(&self, file: &FarFile, from: &str, to: &str) -> io::Result<()> {
        self.rt.rename_file(&file.file, from, to)
    }
}

// The greatest length that the system lets the file have, which the file then has.
fn greatest_length(file: &File) -> u64 {
    let mut fits: u64 = 0;
    for bit in 0..63u32 {
        let more = fits | 1 << (62 - bit);
        if file.set_len(more).is_ok() {
            fits = more;
        }
    }
    fits
}

// Two bytes of four are written, or none, since the file may have no more. What was written before is there, and nothing is
// written any more.
#[test]
fn a_piece_goes_past_what_a_file_may_have(rt: HostRuntime) -> Result<(), Fail> {
    const PATH: &str = "file_disk_far";
    let _ = fs::remove_file(&rt, PATH);
    let from = greatest_length(&rt.open_or_make(PATH)?).saturating_sub(6);
    let system = Far { rt: &rt, from };
    let mut disk = FileDisk::<FarFile>::open(
        &system,
        rt.alloc(),
        PATH,
        Opening::Emptied,
        100,
    ).expect(&rt, "open");
    assert!(rt; append(&mut disk, b"abcd"));
    assert_eq!(rt; disk.sync(), Ok(()));
    assert!(rt; !append(&mut disk, b"efgh"));
    assert!(rt; disk.bytes() == b"abcd".as_slice());
    assert_eq!(rt; disk.sync(), Err(DiskFault));
    drop(disk);
    let again = FileDisk::<FarFile>::open(&system, rt.alloc(), PATH, Opening::Existing, 100).expect(
        &rt,
        "open again",
    );
    let left = again.bytes();
    assert!(rt; left == b"abcd".as_slice() || left == b"abcdef".as_slice());
    fs::remove_file(&rt, PATH)?;
    Ok(())
}
