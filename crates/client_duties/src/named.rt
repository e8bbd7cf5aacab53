//! Whom a plan names.
ghost use Rattle.std.specs.Prelude.{◌≡◌, IfOk, OnOk, fold};
ghost use Rattle.std.specs.List.{filter_map};
ghost use Rattle.std.specs.Ordering.{nat_cmp};
ghost use Rattle.std.specs.BTreeSet.{insert_key};
ghost use Rattle.plan_words.specs.Named.{clients, ascending, lying_client, troubled_client, job_client};

use lists::NoMemory;
use plan_words::{Fault, Job, Plan};
use std::alloc::Global;
use std::collections::BTreeSet;

/// The clients that the plan names.
pub fn clients_of(alloc: Global, plan: &Plan) -> Result<BTreeSet<u32>, NoMemory>
    ensures { IfOk result (λ named. named.keys ≡ ascending (clients plan.now.rules plan.now.work)) }
{
    let mut named = BTreeSet::new(alloc);
    add_lying(&mut named, plan.rules.as_slice())?;
    add_troubled(&mut named, plan.rules.as_slice())?;
    add_working(&mut named, plan.work.as_slice())?;
    Ok(named)
}

fn add_lying(named: &mut BTreeSet<u32>, rules: &[Fault]) -> Result<(), NoMemory>
    ensures { OnOk result (named.new.keys
        ≡ fold (insert_key nat_cmp) named.old.keys (filter_map lying_client rules.now)) }
{
    for rule in rules {
        if let Some(client) = rule.lying_client() {
            named.insert(client)?;
        }
    }
    Ok(())
}

fn add_troubled(named: &mut BTreeSet<u32>, rules: &[Fault]) -> Result<(), NoMemory>
    ensures { OnOk result (named.new.keys
        ≡ fold (insert_key nat_cmp) named.old.keys (filter_map troubled_client rules.now)) }
{
    for rule in rules {
        if let Some(client) = rule.troubled_client() {
            named.insert(client)?;
        }
    }
    Ok(())
}

fn add_working(named: &mut BTreeSet<u32>, work: &[Job]) -> Result<(), NoMemory>
    ensures { OnOk result (named.new.keys
        ≡ fold (insert_key nat_cmp) named.old.keys (filter_map job_client work.now)) }
{
    for job in work {
        if let Some(client) = job.client() {
            named.insert(client)?;
        }
    }
    Ok(())
}
