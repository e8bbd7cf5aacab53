ghost use Rattle.std.specs.Prelude.{◌≡◌, ◌≤◌, ◌<◌, ◌+◌, ◌*◌, ◌⊎◌, ◌^◌, ◌≢◌, true, false, length, OnOk, slice_index};
ghost use Rattle.outside_io.specs.Causes.{HasCause};
ghost use Rattle.disk_model.specs.Crash.{settled, LeavesOnly};
ghost use Rattle.slot_disk.specs.Bodies.{bodies, IsClosedAt};

use disk_model::{Disk, DiskFault};

// Whether the gate behind so many slots is there and closed.
fn is_closed(bytes: &[u8], gate: usize) -> bool
    ensures closed { result ≡ true → (gate < length bytes.now) × (slice_index bytes.now gate ≢ 1) }
    ensures open_or_missing { result ≡ false
        → (length bytes.now ≤ gate) ⊎ (slice_index bytes.now gate ≡ 1) }
{
    gate < bytes.len() && bytes[gate] != 1
}

// Closes the gate behind the open slots, where it isn't closed already.
pub fn close_gate<D: Disk>(
    disk: &mut D,
    body: u64,
    count: u64,
    bytes: &[u8],
) -> Result<(), DiskFault>
    requires settled { D.pending disk.old ≡ settled (D.seen disk.old) }
    requires bytes { bytes.now ≡ D.seen disk.old }
    requires count { count ≡ length (bodies body bytes.now) }
    requires fits { length bytes.now ≤ D.most disk.old }
    requires some { 1 ≤ D.most disk.old }
    requires narrow { body < 2 ^ 32 }
    ensures settled { OnOk result (D.pending disk.new ≡ settled (D.seen disk.new)) }
    ensures closed { OnOk result (IsClosedAt body (D.seen disk.new) count) }
    ensures same { OnOk result (bodies body (D.seen disk.new) ≡ bodies body (D.seen disk.old)) }
    ensures room { D.most disk.new ≡ D.most disk.old }
    // a crash at any moment of the call leaves the same slots
    ensures any_moment { LeavesOnly D.moment D.left_since disk.old disk.new
        (λ c. bodies body c ≡ bodies body (D.seen disk.old)) }
    ensures later { D.faults disk.old ≤ D.faults disk.new }
    ensures cause { HasCause D.last (D.faults disk.old) (D.faults disk.new) result }
{
    let gate = gate_behind(body, count, bytes);
    if is_closed(bytes, gate as usize) {
        return Ok(());
    }
    disk.write_at(gate, &[0])?;
    disk.sync()
}

// Where the gate behind the slots stands.
fn gate_behind(body: u64, count: u64, bytes: &[u8]) -> u64
    requires count { count ≡ length (bodies body bytes.now) }
    requires narrow { body < 2 ^ 32 }
    ensures gate { result ≡ count * (body + 1) }
    ensures within { result ≤ length bytes.now }
    ensures small { length bytes.now < 2 ^ 63 }
{
    count * (body + 1)
}
