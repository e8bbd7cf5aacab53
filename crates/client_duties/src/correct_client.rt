//! The work of a correct client.
ghost use Rattle.std.specs.Prelude.{◌≡◌, ◌<◌, [], length, false, Some};
ghost use Rattle.plan_words.specs.Plans.{Fits};
ghost use Rattle.client_desks.specs.Desks.{DeskView};
ghost use Rattle.plan_followed.specs.Clients.{way_of};
ghost use Rattle.client_duties.specs.Tasks.{IsClientTask};
ghost use Rattle.client_duties.specs.ClientDuty.{phase_at, IsReady, HasCounted, ways_left};

use crate::{ClientTask, Ways};
use block_device::BlockSteps;
use journals::Way;
use lists::ItemList;
use plan_words::Plan;
use quorum_rules::Config;
use std::collections::VecDeque;
use std::snapshot::Snapshot;

/// A correct client at work, by its plan: the steps of the phases that are left, what is left of the asks to each node that go wrong,
/// and of all asks until it crashes.
pub struct CorrectClient {
    pub plan: Snapshot<Plan>,
    pub config: Config,
    pub client: u32,
    pub phases: VecDeque<BlockSteps>,
    pub ways: ItemList<Ways>,
    pub crash_after: Option<u64>,
}

// By hand, since a derived drop is proved anew wherever one is let go.
impl Drop for CorrectClient {
    fn drop(self) {
        let CorrectClient {
            plan: _plan,
            config: _config,
            client: _client,
            phases: _phases,
            ways: _ways,
            crash_after: _crash_after,
        } = self;
    }
}

impl CorrectClient {
    /// The client of a task of the plan before it did anything.
    pub fn new(plan: &Plan, task: ClientTask) -> CorrectClient
        requires fits { Fits plan.now }
        requires task { IsClientTask plan.now task }
        ensures plan { result.plan.value ≡ plan.now }
        ensures client { result.client ≡ task.client }
        ensures first { phase_at result ≡ 0 }
        ensures ready { (d : DeskView) → d.config ≡ plan.now.config → d.id ≡ task.client →
            d.lying ≡ false → d.entries ≡ [] → IsReady result d }
    {
        let ClientTask {
            client,
            phases,
            ways,
            crash_after,
        } = task;
        CorrectClient {
            plan: Snapshot::of(plan),
            config: plan.config,
            client,
            phases: VecDeque::from_vec(phases.into_vec()),
            ways,
            crash_after,
        }
    }

    /// Counts an ask to the node, and tells which way it goes.
    pub fn count_ask(&mut self, node: u8) -> Way
        requires node { node < length self.old.ways }
        requires left { self.old.crash_after ≡ Some 0 → ⊥ }
        ensures counted { HasCounted self.old node result self.new }
    {
        if let Some(left) = self.crash_after {
            self.crash_after = Some(left - 1);
        }
        let i = usize::from(node);
        let ways = self.ways.as_slice()[i];
        let _counted = self.ways.replace(i, after_one(ways));
        first_way(&ways)
    }
}

/// The way of the next ask.
fn first_way(ways: &Ways) -> Way
    ensures { result ≡ way_of ways.now.drops ways.now.holds 0 }
{
    if ways.drops > 0 {
        Way::Lose
    } else if ways.holds > 0 {
        Way::Hold
    } else {
        Way::Call
    }
}

/// What is left after the next ask.
fn after_one(ways: Ways) -> Ways
    ensures { result ≡ ways_left ways.drops ways.holds 1 }
{
    if ways.drops > 0 {
        Ways {
            drops: ways.drops - 1,
            holds: ways.holds,
        }
    } else {
        Ways {
            drops: 0,
            holds: ways.holds.saturating_sub(1),
        }
    }
}
