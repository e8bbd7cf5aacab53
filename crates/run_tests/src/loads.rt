//! Plans that numbers make.
//!
//! What is expected comes from `tools/load_lines`, which draws its words by the code that the generator's authors published, and
//! tries itself on the words that they give for state 42 and stream 54.

use crate::load_lines::work_digest;
use cross_sum::Hash;
use lists::NoMemory;
use plan_words::Fault;
use soak_loads::plan_of;
use std::alloc::Global;
use wire_forms::Rule;

const DIGEST: Hash = [
    0xb0u8, 0xdb, 0xf9, 0xd3, 0x15, 0xc0, 0x96, 0x37, 0xb3, 0x3a, 0x1d, 0x4e, 0xe1, 0x44, 0x31,
    0xe1, 0x02, 0x61, 0xd5, 0x1f, 0xf9, 0xd9, 0x32, 0x9a, 0x06, 0x76, 0x8e, 0xd0, 0x95, 0xba, 0x13,
    0xa0,
];

fn greatest_digest(alloc: Global) -> Result<Hash, NoMemory> {
    let plan = plan_of(alloc, 0xffff_ffff_ffff_ffff, 16, 20)?;
    work_digest(alloc, plan.work.as_slice())
}

#[test]
fn the_greatest_number_and_most_clients(rt: HostRuntime) {
    assert!(rt; greatest_digest(rt.alloc()) == Ok(DIGEST));
}

// Whether node 4 lies by damaged fragments, client 1's first two asks of node 1 are dropped, and that is all.
fn are_two_faults(rules: &[Fault]) -> bool {
    matches!(
        rules,
        [
            Fault::LiarNode {
                node: 4,
                rule: Rule::Bad,
            },
            Fault::Lose {
                client: 1,
                node: 1,
                count: 2,
            },
        ]
    )
}

fn is_least_plan(alloc: Global) -> Result<bool, NoMemory> {
    let plan = plan_of(alloc, 1, 1, 0)?;
    Ok(are_two_faults(plan.rules.as_slice()) && plan.work.is_empty())
}

#[test]
fn one_client_without_operations(rt: HostRuntime) {
    assert!(rt; is_least_plan(rt.alloc()) == Ok(true));
}
