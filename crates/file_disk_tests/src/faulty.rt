//! A system of which one call fails, and then only that one.
ghost use Rattle.std.specs.Prelude.{⊤};

use file_disk::{DiskFile, FileSystem, Standing};
use std::cell::Cell;
use std::fs::File;
use std::io::{self, ErrorKind};
use std::rt::Files;

/// Counts calls, and fails the one of this number.
#[derive(Drop)]
pub struct Count {
    pub calls: Cell<u64>,
    pub fails: u64,
}

impl Count {
    fn next(&self) -> io::Result<()> {
        let call = self.calls.get();
        self.calls.set(call.saturating_add(1));
        if call == self.fails {
            return Err(io::Error::from(ErrorKind::Other));
        }
        Ok(())
    }
}

/// The system's files, of which one call fails.
#[derive(Drop)]
pub struct Faulty<'a, R> {
    pub rt: &'a R,
    pub count: &'a Count,
}

/// A file of the system, of which one call fails: a write then writes half of its piece.
#[derive(Drop)]
pub struct FaultyFile<'a> {
    file: File,
    count: &'a Count,
}

impl DiskFile for FaultyFile<'_> {
    ghost told = { λ _ _. ⊤ };

    ghost wrote = { λ _ _ _ _. ⊤ };

    ghost synced = { λ _ _. ⊤ };

    ghost failed = { λ _ _. ⊤ };

    fn try_to_lock(&self) -> io::Result<bool> {
        self.count.next()?;
        self.file.try_to_lock()
    }

    fn measure(&self) -> io::Result<Option<u64>> {
        self.count.next()?;
        self.file.measure()
    }

    fn empty(&self) -> io::Result<()> {
        self.count.next()?;
        self.file.empty()
    }

    fn settle(&self) -> io::Result<()> {
        self.count.next()?;
        self.file.settle()
    }

    fn read_whole(&self, room: &mut [u8]) -> io::Result<()> {
        self.count.next()?;
        self.file.read_whole(room)
    }

    fn write_piece(&mut self, at: u64, piece: &[u8]) -> io::Result<()> {
        match self.count.next() {
            Ok(()) => self.file.write_piece(at, piece),
            Err(error) => {
                self.file.write_piece(at, &piece[..piece.len() / 2])?;
                Err(error)
            }
        }
    }

    fn sync_written(&mut self) -> io::Result<()> {
        self.count.next()?;
        self.file.sync_written()
    }
}

impl<'a, R: Files<File = File>> FileSystem<FaultyFile<'a>> for Faulty<'a, R> {
    ghost told = { λ _ _. ⊤ };

    fn what_stands(&self, path: &str) -> io::Result<Standing> {
        self.count.next()?;
        FileSystem::<File>::what_stands(self.rt, path)
    }

    fn open_existing(&self, path: &str) -> io::Result<Option<FaultyFile<'a>>> {
        self.count.next()?;
        match self.rt.open_existing(path)? {
            Some(file) => Ok(Some(FaultyFile {
                file,
                count: self.count,
            })),
            None => Ok(None),
        }
    }

    fn open_or_make(&self, path: &str) -> io::Result<FaultyFile<'a>> {
        self.count.next()?;
        let file = self.rt.open_or_make(path)?;
        Ok(FaultyFile {
            file,
            count: self.count,
        })
    }

    fn leads_to(&self, path: &str, file: &FaultyFile<'a>) -> io::Result<bool> {
        self.count.next()?;
        self.rt.leads_to(path, &file.file)
    }

    fn sync_folder(&self, path: &str) -> io::Result<()> {
        self.count.next()?;
        FileSystem::<File>::sync_folder(self.rt, path)
    }

    fn rename_file(&self, file: &FaultyFile<'a>, from: &str, to: &str) -> io::Result<()> {
        self.count.next()?;
        self.rt.rename_file(&file.file, from, to)
    }
}
