//! A system in which each file goes away once it was looked at.
ghost use Rattle.std.specs.Prelude.{⊤};

use file_disk::{FileDisk, FileRefusal, FileSystem, Opening, Standing};
use std::fs::File;
use std::rt::Files;
use std::test::Fail;
use std::{fs, io};

/// The system, but that a look finds a plain file at any path.
#[derive(Drop)]
struct Hasty<'a, R> {
    rt: &'a R,
}

impl<R: Files<File = File>> FileSystem<File> for Hasty<'_, R> {
    ghost told = { λ _ _. ⊤ };

    fn what_stands(&self, _path: &str) -> io::Result<Standing> {
        Ok(Standing::PlainFile)
    }

    fn open_existing(&self, path: &str) -> io::Result<Option<File>> {
        self.rt.open_existing(path)
    }

    fn open_or_make(&self, path: &str) -> io::Result<File> {
        self.rt.open_or_make(path)
    }

    fn leads_to(&self, path: &str, file: &File) -> io::Result<bool> {
        self.rt.leads_to(path, file)
    }

    fn sync_folder(&self, path: &str) -> io::Result<()> {
        FileSystem::<File>::sync_folder(self.rt, path)
    }

    fn rename_file(&self, file: &File, from: &str, to: &str) -> io::Result<()> {
        self.rt.rename_file(file, from, to)
    }
}

// None is made where one is to be there already.
#[test]
fn a_file_that_went_away_is_missing(rt: HostRuntime) -> Result<(), Fail> {
    const PATH: &str = "file_disk_went_away";
    let system = Hasty { rt: &rt };
    let _ = fs::remove_file(&rt, PATH);
    let got = FileDisk::<File>::open(&system, rt.alloc(), PATH, Opening::Existing, 9).err();
    assert_eq!(rt; got, Some(FileRefusal::Missing));
    assert_eq!(rt; fs::exists(&rt, PATH)?, false);
    Ok(())
}
