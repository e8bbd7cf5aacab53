ghost use Rattle.std.specs.Prelude.{◌≡◌, ◌≤◌, ◌<◌, ◌^◌, false, length, slice_set, IfOk, IfSome, IfNone};
ghost use Rattle.protocol.specs.Count.{count};
ghost use Rattle.slab_engine.specs.Seen.{listed};
ghost use Rattle.slab_engine.specs.Batches.{ArePicked};

use lists::NoMemory;
use std::alloc::Global;

/// Whether a list tells so of a block or a slot.
pub fn is_listed(list: &[bool], i: u32) -> bool
    ensures { result ≡ listed list.now i }
{
    let i = i as usize;
    i < list.len() && list[i]
}

/// Lets a list tell otherwise of a block or a slot, if it has that.
pub fn unlist(list: &mut [bool], i: u32)
    ensures { list.new ≡ slice_set list.old i false }
{
    let i = i as usize;
    if i < list.len() {
        list[i] = false;
    }
}

/// Picks so many free slots, ascending, from a slot on. None where there are fewer of them from there on.
pub fn pick_slots(
    alloc: Global,
    free: &[bool],
    from: usize,
    wanted: usize,
) -> Result<Option<Vec<u32>>, NoMemory>
    requires { length free.now ≤ 2 ^ 32 }
    ensures some { IfOk result (λ found. IfSome found (λ slots.
        ArePicked free.now slots.items wanted)) }
    ensures none { IfOk result (λ found. IfNone found
        (from ≡ 0 → count (length free.now) (listed free.now) < wanted)) }
{
    let mut slots = Vec::with_capacity(alloc, wanted)?;
    for slot in from..free.len() {
        if slots.len() == wanted {
            return Ok(Some(slots));
        }
        if free[slot] {
            slots.push(slot as u32)?;
        }
    }
    if slots.len() == wanted {
        return Ok(Some(slots));
    }
    Ok(None)
}

/// Picks so many free slots, ascending: from a slot on, or else from the first. None where there are fewer.
pub fn choose_slots(
    alloc: Global,
    free: &[bool],
    from: usize,
    wanted: usize,
) -> Result<Option<Vec<u32>>, NoMemory>
    requires { length free.now ≤ 2 ^ 32 }
    ensures some { IfOk result (λ found. IfSome found (λ slots.
        ArePicked free.now slots.items wanted)) }
    ensures none { IfOk result (λ found. IfNone found
        (count (length free.now) (listed free.now) < wanted)) }
{
    match pick_slots(alloc, free, from, wanted)? {
        Some(slots) => Ok(Some(slots)),
        None => pick_slots(alloc, free, 0, wanted),
    }
}
