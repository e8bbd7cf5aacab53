//! Each call of the system failed in turn.
use crate::faulty::{Count, Faulty, FaultyFile};
use disk_model::Disk;
use file_disk::{DiskFile, FileDisk, FileRefusal, Opening};
use std::cell::Cell;
use std::fs;
use std::fs::{File, Files};
use std::process::Abort;
use std::test::Fail;

// Opening takes eight calls: what stands there, open, lock, whether the path leads to it, length, settle, folder, read.
#[test]
fn a_fault_while_a_file_is_opened_leaves_its_bytes(rt: HostRuntime) -> Result<(), Fail> {
    const PATH: &str = "file_disk_fault_at_open";
    for how in [Opening::Existing, Opening::ExistingOrNew] {
        for fails in 0..9 {
            fs::write(&rt, PATH, b"old".as_slice())?;
            let count = count_to(fails);
            let system = Faulty {
                rt: &rt,
                count: &count,
            };
            let got = FileDisk::<FaultyFile<'_>>::open(&system, rt.alloc(), PATH, how, 3).err();
            let want = if fails < 8 {
                Some(FileRefusal::Fault)
            } else {
                None
            };
            assert_eq!(rt; got, want, "{fails}");
            assert!(rt;
                fs::read(&rt, PATH)?.as_slice() == b"old".as_slice(),
                "{fails}"
            );
        }
    }
    fs::remove_file(&rt, PATH)?;
    Ok(())
}

// After opening come a write, a sync, a write, a sync, and for the change of place a sync, a rename and a sync of the folder.
// A write that fails writes half of its piece, as one to a full disk may. In each row: the call that fails, how many of the five
// succeed, what the disk reads then, and what stands at the old and the new path.
#[test]
fn after_a_fault_there_are_only_faults(rt: HostRuntime) -> Result<(), Fail> {
    const OLD: &str = "file_disk_faults/a";
    const NEW: &str = "file_disk_faults/a.new";
    let whole = b"abcdwxyz".as_slice();
    let old = b"old".as_slice();
    for (fails, done, read, at_old, at_new) in [
        (8, 0, b"".as_slice(), old, Some(b"ab".as_slice())),
        (9, 1, b"abcd".as_slice(), old, Some(b"abcd".as_slice())),
        (10, 2, b"abcd".as_slice(), old, Some(b"abcdwx".as_slice())),
        (11, 3, whole, old, Some(whole)),
        (12, 4, whole, old, Some(whole)),
        (13, 4, whole, old, Some(whole)),
        (14, 4, whole, whole, None),
        (u64::MAX, 5, whole, whole, None),
    ] {
        let _ = fs::remove_dir_all(&rt, "file_disk_faults");
        fs::create_dir(&rt, "file_disk_faults")?;
        fs::write(&rt, OLD, old)?;
        write_and_replace(&rt, fails, done, read);
        assert!(rt; fs::read(&rt, OLD)?.as_slice() == at_old, "{fails}");
        match at_new {
            Some(bytes) => assert!(rt; fs::read(&rt, NEW)?.as_slice() == bytes, "{fails}"),
            None => assert!(rt; fs::read(&rt, NEW).is_err(), "{fails}"),
        }
    }
    fs::remove_dir_all(&rt, "file_disk_faults")?;
    Ok(())
}

// Writes a new file and puts it in the place of the old one, where one call fails.
fn write_and_replace<R: Files<File = File> + AllocGlobal + Abort>(
    rt: &R,
    fails: u64,
    done: usize,
    read: &[u8],
) {
    const OLD: &str = "file_disk_faults/a";
    const NEW: &str = "file_disk_faults/a.new";
    let count = count_to(fails);
    let system = Faulty { rt, count: &count };
    let mut disk = FileDisk::<FaultyFile<'_>>::open(
        &system,
        rt.alloc(),
        NEW,
        Opening::ExistingOrNew,
        100,
    ).expect(rt, "open");
    let results = [
        append(&mut disk, b"abcd"),
        disk.sync().is_ok(),
        append(&mut disk, b"wxyz"),
        disk.sync().is_ok(),
        disk.put_in_place(&system, NEW, OLD).is_ok(),
    ];
    for (k, result) in results.iter().enumerate() {
        assert_eq!(rt; *result, k < done, "{fails} {k}");
    }
    assert!(rt; disk.bytes() == read, "{fails}");
    assert_eq!(rt; disk.sync().is_ok(), done == 5, "{fails}");
    assert_eq!(rt; append(&mut disk, b""), done == 5, "{fails}");
}

// Writes behind the last byte, where there is room.
pub(crate) fn append<F: DiskFile + Drop>(disk: &mut FileDisk<F>, piece: &[u8]) -> bool {
    let end = disk.bytes().len() as u64;
    let room = disk.room();
    if room < end || room - end < piece.len() as u64 {
        return false;
    }
    disk.write_at(end, piece).is_ok()
}

fn count_to(fails: u64) -> Count {
    Count {
        calls: Cell::new(0),
        fails,
    }
}
