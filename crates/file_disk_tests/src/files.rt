//! Real files.
use disk_model::{Disk, DiskFault};
use file_disk::{FileDisk, FileRefusal, Opening};
use std::fs::{File, OpenOptions, Permissions};
use std::io::ErrorKind;
use std::os::unix::fs::PermissionsExt;
use std::test::Fail;
use std::{fs, thread};

const MOST: usize = 1 << 20;

#[test]
fn a_file_keeps_what_was_written(rt: HostRuntime) -> Result<(), Fail> {
    const FOLDER: &str = "file_disk_kept";
    const PATH: &str = "file_disk_kept/a";
    let _ = fs::remove_dir_all(&rt, FOLDER);
    fs::create_dir(&rt, FOLDER)?;
    let mut disk = FileDisk::open(&rt, rt.alloc(), PATH, Opening::ExistingOrNew, MOST).expect(
        &rt, "open",
    );
    assert_eq!(rt; disk.len(), Ok(0));
    assert_eq!(rt; disk.room(), 1_048_576);
    assert_eq!(rt; disk.write_at(0, b"abc"), Ok(()));
    assert_eq!(rt; disk.sync(), Ok(()));
    assert_eq!(rt; disk.write_at(2, b"xyz"), Ok(()));
    assert_eq!(rt; disk.len(), Ok(5));
    drop(disk);
    assert!(rt; fs::read(&rt, PATH)?.as_slice() == b"abxyz".as_slice());
    let mut disk = FileDisk::open(&rt, rt.alloc(), PATH, Opening::Existing, MOST).expect(
        &rt,
        "open again",
    );
    assert!(rt; disk.bytes() == b"abxyz".as_slice());
    let mut back = [0; 3];
    assert_eq!(rt; disk.read_at(1, &mut back), Ok(()));
    assert_eq!(rt; back, *b"bxy");
    drop(disk);
    let emptied = FileDisk::open(&rt, rt.alloc(), PATH, Opening::Emptied, 1).expect(&rt, "empty");
    assert!(rt; emptied.bytes().is_empty());
    drop(emptied);
    assert!(rt; fs::read(&rt, PATH)?.is_empty());
    fs::remove_dir_all(&rt, FOLDER)?;
    Ok(())
}

// A file is open once; the order of the refusals is that of the calls.
#[test]
fn what_is_no_free_plain_file_is_refused(rt: HostRuntime) -> Result<(), Fail> {
    const FOLDER: &str = "file_disk_refused";
    const PATH: &str = "file_disk_refused/a";
    const HELD: &str = "file_disk_refused/held";
    let _ = fs::remove_dir_all(&rt, FOLDER);
    fs::create_dir(&rt, FOLDER)?;
    fs::write(&rt, PATH, b"12345".as_slice())?;
    fs::write(&rt, HELD, b"12345".as_slice())?;
    let held = FileDisk::open(&rt, rt.alloc(), HELD, Opening::Existing, 5).expect(&rt, "open");
    for (path, how, most, want) in [
        (
            FOLDER,
            Opening::ExistingOrNew,
            9,
            Some(FileRefusal::NotPlain),
        ),
        (
            "/dev/full",
            Opening::Emptied,
            9,
            Some(FileRefusal::NotPlain),
        ),
        (
            "file_disk_refused/b",
            Opening::Existing,
            9,
            Some(FileRefusal::Missing),
        ),
        (
            "file_disk_refused/b/a",
            Opening::Existing,
            9,
            Some(FileRefusal::Missing),
        ),
        (
            "file_disk_refused/b/a",
            Opening::ExistingOrNew,
            9,
            Some(FileRefusal::Fault),
        ),
        (
            "file_disk_refused/a/b",
            Opening::ExistingOrNew,
            9,
            Some(FileRefusal::Fault),
        ),
        (HELD, Opening::Existing, 4, Some(FileRefusal::Locked)),
        (HELD, Opening::Emptied, 9, Some(FileRefusal::Locked)),
        (PATH, Opening::Existing, 4, Some(FileRefusal::TooLong)),
        (PATH, Opening::ExistingOrNew, 5, None),
    ] {
        let got = FileDisk::<File>::open(&rt, rt.alloc(), path, how, most).err();
        assert_eq!(rt; got, want, "{path}");
    }
    assert!(rt; held.bytes() == b"12345".as_slice());
    drop(held);
    assert!(rt; fs::read(&rt, HELD)?.as_slice() == b"12345".as_slice());
    fs::remove_dir_all(&rt, FOLDER)?;
    Ok(())
}

// What is refused is what the system doesn't let one write, as a file that may only be read (but for root) or a program that runs.
#[test]
fn a_file_that_may_not_be_written_is_refused(rt: HostRuntime) -> Result<(), Fail> {
    const PATH: &str = "file_disk_read_only";
    let _ = fs::remove_file(&rt, PATH);
    fs::write(&rt, PATH, b"12345".as_slice())?;
    fs::set_permissions(&rt, PATH, Permissions::from_mode(0o444))?;
    for path in [PATH, "/proc/self/exe"] {
        let want = match OpenOptions::new().write(true).open(&rt, path) {
            Ok(_) => None,
            Err(error) if error.kind() == ErrorKind::NotFound => Some(FileRefusal::Missing),
            Err(_) => Some(FileRefusal::Fault),
        };
        let got = FileDisk::<File>::open(&rt, rt.alloc(), path, Opening::Existing, 9).err();
        assert_eq!(rt; got, want, "{path}");
    }
    assert!(rt; fs::read(&rt, PATH)?.as_slice() == b"12345".as_slice());
    fs::remove_file(&rt, PATH)?;
    Ok(())
}

// A file that is written beside another takes its place, and is locked all the while; where its folder is gone it takes none,
// and is not written again.
#[test]
fn a_file_takes_the_place_of_another(rt: HostRuntime) -> Result<(), Fail> {
    const FOLDER: &str = "file_disk_replaced";
    const OLD: &str = "file_disk_replaced/a";
    const NEW: &str = "file_disk_replaced/a.new";
    let _ = fs::remove_dir_all(&rt, FOLDER);
    fs::create_dir(&rt, FOLDER)?;
    fs::write(&rt, OLD, b"old".as_slice())?;
    fs::write(&rt, NEW, b"left by a crash".as_slice())?;
    let old = FileDisk::<File>::open(&rt, rt.alloc(), OLD, Opening::Existing, MOST).expect(
        &rt, "old",
    );
    let mut new = FileDisk::open(&rt, rt.alloc(), NEW, Opening::Emptied, MOST).expect(&rt, "new");
    assert!(rt; new.bytes().is_empty());
    assert_eq!(rt; new.room(), 1_048_576);
    assert_eq!(rt; new.write_at(0, b"newer"), Ok(()));
    assert_eq!(rt; new.put_in_place(&rt, NEW, OLD), Ok(()));
    drop(old);
    let again = FileDisk::<File>::open(&rt, rt.alloc(), OLD, Opening::Existing, MOST).err();
    assert_eq!(rt; again, Some(FileRefusal::Locked));
    let left = FileDisk::<File>::open(&rt, rt.alloc(), NEW, Opening::Existing, MOST).err();
    assert_eq!(rt; left, Some(FileRefusal::Missing));
    assert!(rt; fs::read(&rt, OLD)?.as_slice() == b"newer".as_slice());
    fs::remove_dir_all(&rt, FOLDER)?;
    assert_eq!(rt; new.sync(), Ok(()));
    assert_eq!(rt; new.put_in_place(&rt, NEW, OLD), Err(DiskFault));
    assert_eq!(rt; new.write_at(0, b"a"), Err(DiskFault));
    assert_eq!(rt; new.sync(), Err(DiskFault));
    assert!(rt; new.bytes() == b"newer".as_slice());
    Ok(())
}

// Two threads, each with a disk of its own.
#[test]
fn threads_own_disks(rt: HostRuntime) -> Result<(), Fail> {
    const FOLDER: &str = "file_disk_threads";
    let _ = fs::remove_dir_all(&rt, FOLDER);
    fs::create_dir(&rt, FOLDER)?;
    let mut disks = Vec::new(rt.alloc());
    for path in ["file_disk_threads/a", "file_disk_threads/b"] {
        let disk = FileDisk::open(&rt, rt.alloc(), path, Opening::ExistingOrNew, MOST).expect(
            &rt, "open",
        );
        disks.push((disk, false))?;
    }
    thread::for_each_mut(
        &rt,
        &mut disks,
        2,
        &|_, (disk, done)| {
            *done = write_and_sync(disk);
        },
    );
    for (_, done) in disks.iter() {
        assert!(rt; *done);
    }
    drop(disks);
    assert!(rt; fs::read(&rt, "file_disk_threads/b")?.as_slice() == b"abc".as_slice());
    fs::remove_dir_all(&rt, FOLDER)?;
    Ok(())
}

// Writes at the beginning of an empty disk.
fn write_and_sync(disk: &mut FileDisk<File>) -> bool {
    disk.room() >= 3 && disk.write_at(0, b"abc").is_ok() && disk.sync().is_ok()
}
