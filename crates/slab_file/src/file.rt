ghost use Rattle.std.specs.Prelude.{◌≡◌, ◌⊎◌, ◌≤◌, ◌<◌, ◌+◌, ◌^◌, ◌==◌, List, ℕ, Bool, length, take, drop, is_ok, IsTrue, IfOk, OnOk};
ghost use Rattle.sqlite_disk.specs.Disk.{Holds, Torn, Follows, Only, CountsFault, CountsFaultIf};
ghost use Rattle.sqlite_disk.specs.Digest.{digest, Collide};
ghost use Rattle.slab_file.specs.Faults.{CountsTest};
ghost use Rattle.slab_file.specs.Moments.{Elapses};

use crate::fault::FileFault;

/// A file of one node: bytes that are read and written in place, and that are safe from a crash once they are synced.
pub trait SlabFile {
    // what a read gives
    ghost seen: { Self → List ℕ };

    // what a crash at this moment may leave
    ghost may_leave: { Self → List ℕ → Type 0 };

    // the moment, as a number that doesn't fall
    ghost moment: { Self → ℕ };

    // what a crash at some moment from that one on could leave, in a call or between two
    ghost left_since: { Self → ℕ → List ℕ → Type 0 };

    // no sync has failed
    ghost is_usable: { Self → Bool };

    // no wrong answer of the system was taken as true: no code can tell, so only theorems on values rest on it
    ghost is_clean: { Self → Bool };

    // how many calls have failed
    ghost faults: { Self → ℕ };

    /// Whether no sync has failed. Where one has, what was written before may be lost without another fault.
    fn may_be_used(&self) -> bool
        ensures { result ≡ is_usable self.now };

    /// How many bytes there are.
    fn len(&mut self) -> Result<u64, FileFault>
        requires { IsTrue (is_usable self.old) }
        ensures len { IfOk result (λ n. IsTrue (is_clean self.new) → n ≡ length (seen self.old)) }
        ensures faults { CountsFault result (faults self.old) (faults self.new) }
        ensures clean { IsTrue (is_clean self.new) → IsTrue (is_clean self.old) }
        ensures bytes { seen self.new ≡ seen self.old }
        ensures usable { IsTrue (is_usable self.new) }
        ensures crash { (c : List ℕ) → may_leave self.new c → may_leave self.old c }
        ensures time { Elapses moment left_since may_leave self.old self.new };

    /// Fills the room with the bytes from a place on. They are taken as the system gives them.
    fn read_at(&mut self, at: u64, room: &mut [u8]) -> Result<(), FileFault>
        requires { IsTrue (is_usable self.old) }
        ensures read { OnOk result
            (IsTrue (is_clean self.new) → 0 < length room.old → Holds (seen self.old) at room.new) }
        ensures faults { CountsFaultIf (IsTrue (is_clean self.old)
            → at + length room.old ≤ length (seen self.old)) result
            (faults self.old) (faults self.new) }
        ensures clean { IsTrue (is_clean self.new) → IsTrue (is_clean self.old) }
        ensures bytes { seen self.new ≡ seen self.old }
        ensures usable { IsTrue (is_usable self.new) }
        ensures crash { (c : List ℕ) → may_leave self.new c → may_leave self.old c }
        ensures time { Elapses moment left_since may_leave self.old self.new };

    /// Fills the room with the bytes from a place on, and tells whether they fit a check, which is their digest under
    /// a key. It need not be known that the file has such bytes there. Where it has, others that the system gives
    /// don't fit, and leave the file clean, unless both have one digest.
    fn read_checked(
        &mut self,
        key: u64,
        check: u64,
        at: u64,
        room: &mut [u8],
    ) -> Result<bool, FileFault>
        requires usable { IsTrue (is_usable self.old) }
        requires some { 0 < length room.old }
        ensures fits { IfOk result (λ fits. fits ≡ (digest key room.new == check)) }
        ensures read { IfOk result (λ fits. IsTrue fits → IsTrue (is_clean self.new)
            → Holds (seen self.old) at room.new) }
        ensures detects { IsTrue (is_clean self.old)
            → at + length room.old ≤ length (seen self.old)
            → check ≡ digest key (take (length room.old) (drop at (seen self.old)))
            → IsTrue (is_clean self.new)
            ⊎ Collide key room.new (take (length room.old) (drop at (seen self.old))) }
        // where the file is clean and has bytes of this check, others that come are a fault
        ensures faults { CountsTest (IsTrue (is_clean self.old)
            → at + length room.old ≤ length (seen self.old))
            (check ≡ digest key (take (length room.old) (drop at (seen self.old)))) result
            (faults self.old) (faults self.new) }
        ensures clean { IsTrue (is_clean self.new) → IsTrue (is_clean self.old) }
        ensures bytes { seen self.new ≡ seen self.old }
        ensures usable { IsTrue (is_usable self.new) }
        ensures crash { (c : List ℕ) → may_leave self.new c → may_leave self.old c }
        ensures time { Elapses moment left_since may_leave self.old self.new };

    /// Writes a piece over bytes that are there. A write that fails may have changed any byte of its range, and the
    /// file goes on.
    fn write_at(&mut self, at: u64, piece: &[u8]) -> Result<(), FileFault>
        requires usable { IsTrue (is_usable self.old) }
        requires within { IsTrue (is_clean self.old) → at + length piece.now
            ≤ length (seen self.old) }
        ensures written { OnOk result (0 < length piece.now → Holds (seen self.new) at piece.now) }
        ensures faults { CountsFault result (faults self.old) (faults self.new) }
        ensures clean { is_clean self.new ≡ is_clean self.old }
        ensures others { Torn at (length piece.now) (seen self.old) (seen self.new) }
        ensures usable { IsTrue (is_usable self.new) }
        ensures crash { Follows (Torn at (length piece.now))
            (may_leave self.old) (may_leave self.new) }
        ensures time { Elapses moment left_since may_leave self.old self.new };

    /// Makes the file so long, if it is shorter. No clause says what the new bytes are.
    fn lengthen(&mut self, len: u64) -> Result<(), FileFault>
        requires usable { IsTrue (is_usable self.old) }
        requires small { len < 2 ^ 63 }
        ensures len { OnOk result (IsTrue (is_clean self.new) → len ≤ length (seen self.new)) }
        ensures faults { CountsFault result (faults self.old) (faults self.new) }
        ensures clean { IsTrue (is_clean self.new) → IsTrue (is_clean self.old) }
        ensures others { IsTrue (is_clean self.new) → Torn len 0 (seen self.old) (seen self.new) }
        ensures usable { IsTrue (is_usable self.new) }
        ensures crash { IsTrue (is_clean self.new)
            → Follows (Torn len 0) (may_leave self.old) (may_leave self.new) }
        ensures time { Elapses moment left_since may_leave self.old self.new };

    /// Makes what was written safe. After a sync that failed the file may not be used any more.
    fn sync(&mut self) -> Result<(), FileFault>
        requires { IsTrue (is_usable self.old) }
        ensures durable { OnOk result (Only (seen self.old) (may_leave self.new)) }
        ensures faults { CountsFault result (faults self.old) (faults self.new) }
        ensures clean { is_clean self.new ≡ is_clean self.old }
        ensures bytes { seen self.new ≡ seen self.old }
        ensures usable { is_usable self.new ≡ is_ok result }
        ensures crash { (c : List ℕ) → may_leave self.new c → may_leave self.old c }
        ensures time { Elapses moment left_since may_leave self.old self.new };

    // a process that dies leaves what it had written
    ghost seen_may_stay: { (file : Self) → may_leave file (seen file) };

    // this moment is one of those since an earlier one
    ghost counts_now: { (file : Self) (t : ℕ) (bytes : List ℕ) → t ≤ moment file
        → may_leave file bytes → left_since file t bytes };

    // since this moment there is no other
    ghost only_now: { (file : Self) (bytes : List ℕ) → left_since file (moment file) bytes
        → may_leave file bytes };
}
