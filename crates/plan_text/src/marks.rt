ghost use Rattle.std.specs.Prelude.{◌≡◌};
ghost use Rattle.plan_words.specs.Plans.{device_fault, step_count};

use block_device::{range_fault, step_count};
use line_forms::DeviceFault;
use plan_words::{Fault, Job, PlanLine};
use quorum_rules::Config;

/// What a line of a plan names and counts, as far as other lines may stand against it.
#[derive(Clone, Copy)]
pub struct Marks {
    /// The node that it declares lying.
    pub lying_node: Option<u8>,
    /// The node that it makes lie or crash.
    pub faulty_node: Option<u8>,
    /// The client that it declares lying.
    pub lying_client: Option<u32>,
    /// The client that it makes crash.
    pub crashing_client: Option<u32>,
    /// The client that it gives something to ask, or whose asks it hinders.
    pub asking_client: Option<u32>,
    /// The client and the node between which it drops asks.
    pub dropped: Option<(u32, u8)>,
    /// The client and the node between which it holds asks.
    pub held: Option<(u32, u8)>,
    pub is_flood: bool,
    pub is_phase: bool,
    /// How many block operations it is.
    pub steps: u64,
    /// Why the device refuses its command, if it does.
    pub fault: Option<DeviceFault>,
}

impl Marks {
    ghost use Rattle.std.specs.Prelude.{◌≡◌};
    ghost use Rattle.plan_words.specs.Plans.{device_fault, step_count};
    ghost use Rattle.plan_text.specs.Marks.{job_marks, line_marks, rule_marks};

    /// What a line names and counts.
    pub fn of(config: &Config, line: &PlanLine) -> Marks
        ensures { result ≡ line_marks config.now line.now }
    {
        match line {
            PlanLine::Rule(fault) => Marks::of_rule(fault),
            PlanLine::Work(job) => Marks::of_job(config, job),
        }
    }

    fn of_rule(fault: &Fault) -> Marks
        ensures { result ≡ rule_marks fault.now }
    {
        Marks {
            lying_node: fault.lying_node(),
            faulty_node: fault.faulty_node(),
            lying_client: fault.lying_client(),
            crashing_client: fault.crashing_client(),
            asking_client: fault.troubled_client(),
            dropped: fault.dropped_pair(),
            held: fault.held_pair(),
            is_flood: fault.is_flood(),
            is_phase: false,
            steps: 0,
            fault: None,
        }
    }

    fn of_job(config: &Config, job: &Job) -> Marks
        ensures { result ≡ job_marks config.now job.now }
    {
        Marks {
            lying_node: None,
            faulty_node: None,
            lying_client: None,
            crashing_client: None,
            asking_client: job.client(),
            dropped: None,
            held: None,
            is_flood: false,
            is_phase: job.is_phase(),
            steps: steps_of(config, job),
            fault: fault_of(config, job),
        }
    }
}

/// Why the device refuses a job's command, if it does.
fn fault_of(config: &Config, job: &Job) -> Option<DeviceFault>
    ensures { result ≡ device_fault config.now job.now }
{
    match job {
        Job::Device { op, .. } => range_fault(config, op),
        _ => None,
    }
}

/// How many block operations a job is. A command that the device refuses is none.
fn steps_of(config: &Config, job: &Job) -> u64
    ensures { result ≡ step_count config.now job.now }
{
    match job {
        Job::Block { .. } => 1,
        Job::Device { op, .. } if range_fault(config, op).is_none() => step_count(config, op),
        _ => 0,
    }
}
