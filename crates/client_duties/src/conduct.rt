//! How a plan has nodes behave.
ghost use Rattle.std.specs.Prelude.{◌≡◌};
ghost use Rattle.plan_followed.specs.Asked.{nature, crash_after as crash_asked};

use journals::Nature;
use plan_words::{Fault, Plan};

/// Whether the plan has the node lie, and by which rule.
pub fn nature_of(plan: &Plan, node: u8) -> Nature
    ensures { result ≡ nature plan.now.rules node }
{
    for rule in plan.rules.as_slice() {
        if let Fault::LiarNode { node: liar, rule } = rule {
            if *liar == node {
                return Nature::Lying(*rule);
            }
        }
    }
    Nature::Honest
}

/// After how many answered and delivered asks the plan has the node crash, if it does.
pub fn crash_after(plan: &Plan, node: u8) -> Option<u64>
    ensures { result ≡ crash_asked plan.now.rules node }
{
    for rule in plan.rules.as_slice() {
        if let Fault::CrashNode {
            node: crashing,
            count,
        } = rule
        {
            if *crashing == node {
                return Some(*count);
            }
        }
    }
    None
}
