ghost use Rattle.std.specs.Prelude.{◌≡◌, ◌+◌, ◌-◌, ◌≤◌, ◌<◌, ◌^◌, [], ◌∷◌, length, map, All, None, IfOk};
ghost use Rattle.receipt_lock.specs.Tickets.{placed_from};
ghost use Rattle.receipt_lock.specs.Chits.{left_more};

use crate::pairs::{list_of, pair_of};
use lists::NoMemory;
use receipt_lock::laws::each_entry_has_one_receipt;
use receipt_lock::{Chit, Chits, Kept, Vault};
use std::alloc::Global;
use std::process::Abort;
use std::sync::Wait;
use std::test::Fail;
use std::thread::{Threads, join};

#[derive(Drop)]
struct Log {
    entries: Vec<u64>,
}

impl Kept for Log {
    type Entry = u64;

    ghost list = { λ log. log.entries.items };

    fn entries(&self) -> u64 {
        self.entries.len() as u64
    }
}

// A vault with an empty log, and its two chits.
fn vault_of_two(alloc: Global) -> Result<(Vault<Log>, Chit<Log>, Chit<Log>), NoMemory>
    ensures vault { IfOk result (λ r. (r.0.chits ≡ 2) × (r.0.id.begun ≡ [])) }
    ensures first { IfOk result (λ r. (r.1.vault ≡ r.0.id) × (r.1.mine ≡ []) × (r.1.holds ≡ None)
        × (r.1.left ≡ 2 ^ 41)) }
    ensures second { IfOk result (λ r. (r.2.vault ≡ r.0.id) × (r.2.mine ≡ []) × (r.2.holds ≡ None)
        × (r.2.left ≡ 2 ^ 41)) }
{
    let log = Log {
        entries: Vec::new(alloc),
    };
    let (vault, chits) = Vault::new(alloc, log, 2)?;
    let (first, second) = pair_of(chits);
    Ok((vault, first, second))
}

// Adds an entry to a log that has so many.
fn add_at<R: Wait + Abort>(
    rt: &R,
    vault: &Vault<Log>,
    chit: &mut Chit<Log>,
    at: u64,
    entries: &[u64],
)
    requires own { chit.old.vault ≡ vault.now.id }
    requires rests { chit.old.holds ≡ None }
    requires left { 0 < chit.old.left }
    ensures { chit.new ≡ left_more chit.old (placed_from at entries.now) }
{
    let mut log = vault.take(rt, chit);
    assert!(rt; log.entries() == at);
    log.entries.extend_from_slice(entries).expect(rt, "memory");
    vault.give(chit, log);
}

// Two chits of one thread take turns.
fn take_turns<R: Wait + Abort>(rt: &R, alloc: Global) -> Result<(Vault<Log>, Chits<Log>), NoMemory>
    ensures own { IfOk result (λ r. All (λ c. (c.vault ≡ r.0.id) × (c.holds ≡ None)) r.1) }
    ensures all { IfOk result (λ r. length r.1 ≡ r.0.chits) }
    ensures mine { IfOk result (λ r. map (λ c. c.mine) r.1
        ≡ ((0, 7) ∷ []) ∷ ((1, 8) ∷ (2, 9) ∷ []) ∷ []) }
{
    let (vault, mut first, mut second) = vault_of_two(alloc)?;
    add_at(rt, &vault, &mut first, 0, &[7]);
    add_at(rt, &vault, &mut second, 1, &[8, 9]);
    Ok((vault, list_of(alloc, first, second)?))
}

fn has(log: Log, entries: &[u64]) -> bool {
    log.entries.as_slice() == entries
}

#[test]
fn one_thread_takes_turns(rt: HostRuntime) -> Result<(), Fail> {
    let (vault, chits) = take_turns(&rt, rt.alloc())?;
    assert!(rt; has(vault.close(chits), &[7, 8, 9]));
    Ok(())
}

// Adds one entry in each turn.
fn add_many<R: Wait + Abort>(
    rt: &R,
    vault: &Vault<Log>,
    mut chit: Chit<Log>,
    turns: u32,
) -> Chit<Log>
    requires own { chit.vault ≡ vault.now.id }
    requires rests { chit.holds ≡ None }
    requires left { turns ≤ chit.left }
    ensures own { result.vault ≡ chit.vault }
    ensures rests { result.holds ≡ None }
    ensures mine { length result.mine ≡ length chit.mine + turns }
{
    for _ in 0..turns {
        add_one(rt, vault, &mut chit);
    }
    chit
}

fn add_one<R: Wait + Abort>(rt: &R, vault: &Vault<Log>, chit: &mut Chit<Log>)
    requires own { chit.old.vault ≡ vault.now.id }
    requires rests { chit.old.holds ≡ None }
    requires left { 0 < chit.old.left }
    ensures own { chit.new.vault ≡ chit.old.vault }
    ensures rests { chit.new.holds ≡ None }
    ensures left { chit.new.left ≡ chit.old.left - 1 }
    ensures mine { length chit.new.mine ≡ length chit.old.mine + 1 }
{
    let mut log = vault.take(rt, chit);
    log.entries.push(7).expect(rt, "memory");
    vault.give(chit, log);
}

// Two threads take a thousand turns each.
fn take_turns_side_by_side<R: Threads + Wait + Abort + Sync>(
    rt: &R,
    alloc: Global,
) -> Result<Log, NoMemory>
    ensures { IfOk result (λ log. length log.entries.items ≡ 2000) }
{
    let (vault, first, second) = vault_of_two(alloc)?;
    let (first, second) = join(
        rt,
        || -> Chit<Log>
            requires { (first.vault ≡ vault.id) × (first.holds ≡ None) × (1000 ≤ first.left) }
            ensures own { (result.vault ≡ first.vault) × (result.holds ≡ None) }
            ensures mine { length result.mine ≡ length first.mine + 1000 }
        { add_many(rt, &vault, first, 1000) },
        || -> Chit<Log>
            requires { (second.vault ≡ vault.id) × (second.holds ≡ None) × (1000 ≤ second.left) }
            ensures own { (result.vault ≡ second.vault) × (result.holds ≡ None) }
            ensures mine { length result.mine ≡ length second.mine + 1000 }
        { add_many(rt, &vault, second, 1000) },
    );
    let chits = list_of(alloc, first, second)?;
    each_entry_has_one_receipt::<u64>();
    Ok(vault.close(chits))
}

#[test]
fn two_threads_take_turns(rt: HostRuntime) -> Result<(), Fail> {
    let entries = take_turns_side_by_side(&rt, rt.alloc())?.entries();
    assert!(rt; entries == 2000);
    Ok(())
}
