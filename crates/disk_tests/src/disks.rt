use disk_model::{CalmDisk, Disk, DiskFault, MemoryDisk};
use lists::Copied;
use outside_io::Calls;
use std::alloc::Global;
use std::process::Abort;

// A disk on which the calls of these numbers fail.
fn failing(rt: &impl Abort, alloc: Global, numbers: &[u64]) -> MemoryDisk {
    let mut fails = Calls::new(alloc);
    for number in numbers {
        fails.push(*number).expect(rt, "memory");
    }
    MemoryDisk::new(alloc, fails)
}

// A disk that doesn't fail, on which three bytes have been written and not synced.
fn unsynced(rt: &impl Abort, alloc: Global) -> MemoryDisk {
    let mut disk = failing(rt, alloc, &[]);
    assert!(rt; disk.bytes().is_empty());
    assert!(rt; disk.write_at(0, b"abc").is_ok());
    disk
}

// A crash keeps what was not synced, or loses it.
#[test]
fn a_crash_loses_what_was_not_synced(rt: HostRuntime) {
    for (lose, left) in [(false, b"abc".as_slice()), (true, b"".as_slice())] {
        let disk = unsynced(&rt, rt.alloc()).crash(lose);
        assert!(rt; disk.bytes() == left);
    }
}

// Calls are counted over all four kinds. The second fails and changes nothing that a read gives.
#[test]
fn a_call_fails_where_it_is_told_to(rt: HostRuntime) {
    let mut disk = failing(&rt, rt.alloc(), &[1]);
    assert!(rt; disk.bytes().is_empty());
    assert!(rt; disk.sync() == Ok(()));
    assert!(rt; disk.sync() == Err(DiskFault));
    assert!(rt; disk.len() == Ok(0));
}

// A calm disk with room for three bytes, which are written.
fn filled(rt: &impl Abort, alloc: Global) -> CalmDisk {
    let mut disk = CalmDisk::new(alloc, 3).expect(rt, "memory");
    assert!(rt; disk.write_at(0, b"abc").is_ok());
    disk
}

#[test]
fn a_calm_disk_has_the_room_that_it_was_given(rt: HostRuntime) {
    let disk = filled(&rt, rt.alloc());
    let mut copy = disk.copy().expect(&rt, "memory");
    assert!(rt; copy.grow(5).is_ok());
    assert!(rt; copy.room() == 5 && disk.room() == 3);
    assert!(rt; copy.bytes() == b"abc".as_slice());
    assert!(rt; copy.sync().is_ok() && copy.len() == Ok(3));
}
