ghost use Rattle.std.specs.Prelude.{◌≡◌, ◌≤◌, ◌<◌, length, Some, None, IfOk, IfErr, OnOk};
ghost use Rattle.outside_io.specs.Causes.{Rose};
ghost use Rattle.disk_model.specs.Crash.{settled, MayLeave, LeavesOnly};
ghost use Rattle.version_disk.specs.Held.{slots_of, first_bad};
ghost use Rattle.version_disk.specs.Kept.{IsKept};
ghost use Rattle.version_disk.specs.Faults.{IfSlot, IfFault};
ghost use Rattle.version_disk.specs.Reopened.{IsStillThere};

use crate::fault::OpenFault;
use crate::replay::replay;
use disk_model::Disk;
use node_core::Node;
use quorum_rules::Config;
use slot_disk::body::body_size;
use slot_disk::close::close_gate;
use std::alloc::Global;

// Syncs a disk, and reads all its bytes.
fn read_all<D: Disk>(alloc: Global, disk: &mut D) -> Result<Vec<u8>, OpenFault>
    ensures bytes { IfOk result (λ bytes. bytes.items ≡ D.seen disk.new) }
    ensures durable { OnOk result (D.pending disk.new ≡ settled (D.seen disk.new)) }
    ensures fits { IfOk result (λ bytes. length bytes.items ≤ D.most disk.new) }
    ensures same { D.seen disk.new ≡ D.seen disk.old }
    ensures room { D.most disk.new ≡ D.most disk.old }
    // a crash at any moment of the call leaves what one could leave before
    ensures any_moment { LeavesOnly D.moment D.left_since disk.old disk.new
        (MayLeave (D.pending disk.old)) }
    ensures later { D.faults disk.old ≤ D.faults disk.new }
    ensures cause { IfErr result (IfFault (Rose D.last (D.faults disk.old) (D.faults disk.new))) }
    ensures no_slot { IfErr result (IfSlot (λ _. ⊥)) }
{
    disk.sync()?;
    let len = disk.len()?;
    let mut bytes = vec![in alloc; 0; len as usize]?;
    disk.read_at(0, &mut bytes)?;
    Ok(bytes)
}

/// Syncs and reads a disk, plays its slots, and closes the gate behind them.
pub(crate) fn start<D: Disk>(
    alloc: Global,
    config: &Config,
    number: u8,
    disk: &mut D,
) -> Result<(Node, u64), OpenFault>
    requires number { number < config.now.n }
    requires room { 1 ≤ D.most disk.old }
    ensures kept { IfOk result (λ r. IsKept D.pending D.seen config.now number r.0 r.1 disk.new) }
    ensures same { OnOk result (slots_of config.now (D.seen disk.new)
        ≡ slots_of config.now (D.seen disk.old)) }
    ensures good { OnOk result (first_bad config.now number (D.seen disk.old) ≡ None) }
    ensures damaged { IfErr result
        (IfSlot (λ slot. first_bad config.now number (D.seen disk.old) ≡ Some slot)) }
    ensures room { D.most disk.new ≡ D.most disk.old }
    ensures any_moment { LeavesOnly D.moment D.left_since disk.old disk.new
        (IsStillThere config.now (D.pending disk.old) (D.seen disk.old)) }
    ensures later { D.faults disk.old ≤ D.faults disk.new }
    ensures cause { IfErr result (IfFault (Rose D.last (D.faults disk.old) (D.faults disk.new))) }
{
    let bytes = read_all(alloc, disk)?;
    let (node, count) = replay(alloc, config, number, &bytes)?;
    close_gate(disk, body_size(config), count, &bytes)?;
    Ok((node, count))
}
