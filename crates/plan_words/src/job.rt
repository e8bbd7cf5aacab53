use lists::ItemList;
use wire_forms::{DeviceOp, Op};

/// What is to be done in a run, one operation or command at a time.
#[derive(Drop)]
pub enum Job {
    /// The client's next operation.
    Block { client: u32, op: Op },
    /// The client's next operations: the block steps of the command.
    Device { client: u32, op: DeviceOp },
    /// The phase ends. What stands before is done before what follows begins.
    Phase,
}

/// The work of a plan, in the order of its lines.
pub type Work = ItemList<Job>;

impl Job {
    ghost use Rattle.std.specs.Prelude.{◌≡◌};
    ghost use Rattle.plan_words.specs.Named.{is_phase, job_client};

    /// The client that is to do the job. None for the end of a phase.
    pub fn client(&self) -> Option<u32>
        ensures { result ≡ job_client self.now }
    {
        match self {
            Job::Block { client, .. } | Job::Device { client, .. } => Some(*client),
            _ => None,
        }
    }

    /// Whether this is the end of a phase.
    pub fn is_phase(&self) -> bool
        ensures { result ≡ is_phase self.now }
    {
        matches!(self, Job::Phase)
    }
}
