//! What each client is to do.
ghost use Rattle.std.specs.Prelude.{◌≡◌, IfOk, map, All};
ghost use Rattle.plan_words.specs.Named.{clients, ascending};
ghost use Rattle.plan_words.specs.Plans.{Fits};
ghost use Rattle.client_duties.specs.Tasks.{client_of, IsTaskOf};

use crate::mail::mail_of;
use crate::named::clients_of;
use crate::phases::phases_of;
use crate::ways::{client_crash_of, ways_of};
use block_device::BlockSteps;
use lists::{ItemList, NoMemory};
use plan_words::Plan;
use std::alloc::Global;
use wire_forms::Mail;

/// What goes wrong with a client's asks to one node: so many are lost first, and so many after them held back.
#[derive(Clone, Copy, Debug, PartialEq, Eq)]
pub struct Ways {
    pub drops: u64,
    pub holds: u64,
}

/// What a correct client is to do.
#[derive(Drop)]
pub struct ClientTask {
    pub client: u32,
    /// Its steps in each phase, in order.
    pub phases: ItemList<BlockSteps>,
    /// What goes wrong with its asks, node by node.
    pub ways: ItemList<Ways>,
    /// After how many asks it crashes, if it is to crash.
    pub crash_after: Option<u64>,
}

/// What a client is to do.
#[derive(Drop)]
pub enum Task {
    /// It is correct.
    Client(ClientTask),
    /// It lies, and sends these messages in order.
    Liar { client: u32, mail: Mail },
}

/// What the plan asks of each client that it names, by ascending client.
pub fn tasks_of(alloc: Global, plan: &Plan) -> Result<ItemList<Task>, NoMemory>
    requires { Fits plan.now }
    ensures clients { IfOk result (λ tasks.
        map client_of tasks ≡ ascending (clients plan.now.rules plan.now.work)) }
    ensures each { IfOk result (λ tasks. All (IsTaskOf plan.now) tasks) }
{
    let mut tasks = ItemList::new(alloc);
    for client in clients_of(alloc, plan)? {
        tasks.push(task_of(alloc, plan, client)?)?;
    }
    Ok(tasks)
}

/// What the plan asks of one client.
fn task_of(alloc: Global, plan: &Plan, client: u32) -> Result<Task, NoMemory>
    requires { Fits plan.now }
    ensures client { IfOk result (λ task. client_of task ≡ client) }
    ensures task { IfOk result (λ task. IsTaskOf plan.now task) }
{
    if plan.liars.client(client) {
        return Ok(Task::Liar {
            client,
            mail: mail_of(alloc, &plan.config, client, plan.rules.as_slice())?,
        });
    }
    Ok(Task::Client(ClientTask {
        client,
        phases: phases_of(alloc, &plan.config, client, plan.work.as_slice())?,
        ways: ways_of(alloc, &plan.config, client, plan.rules.as_slice())?,
        crash_after: client_crash_of(client, plan.rules.as_slice()),
    }))
}
