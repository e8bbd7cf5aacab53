ghost use Rattle.std.specs.Prelude.{◌≡◌, ◌<◌, ◌^◌, ◌-◌, length, IfOk};
ghost use Rattle.protocol.specs.Instance.{setting};
ghost use Rattle.protocol.specs.Operations.{is_of_kind, request_of, rounds_after};
ghost use Rattle.operation_core.specs.Stages.{stage_of, version_of, FitsStage};

use cross_sum::{Bytes, CrossSum, Shares};
use lists::{Copied, NoMemory};
use quorum_rules::Config;
use stamp_order::{Bound, Stamp};
use wire_forms::{Reply, Request, Version};

/// What a phase of an operation asks for.
#[derive(Drop)]
pub enum Stage {
    /// The greatest times of the nodes' versions.
    Times,
    /// Versions in a bound.
    Versions(Bound),
    /// That a value is stored.
    Storing(Storing),
}

/// A value that is stored under a stamp, with its fragments and their digests, which are made once.
pub struct Storing {
    pub stamp: Stamp,
    pub value: Bytes,
    /// The value's fragments, one for each node in order.
    pub shares: Shares,
    /// The digests of the fragments.
    pub sum: CrossSum,
}

// By hand, since a derived drop is proved anew wherever a value is let go.
impl Drop for Storing {
    fn drop(self) {
        let Storing {
            stamp: _stamp,
            value: _value,
            shares: _shares,
            sum: _sum,
        } = self;
    }
}

impl Storing {
    /// What a node is to keep.
    fn version(&self, node: u8) -> Result<Version, NoMemory>
        requires { node < length self.now.shares }
        ensures { IfOk result (λ v. v ≡ version_of self.now node) }
    {
        Ok(Version {
            stamp: self.stamp,
            sum: self.sum.copy()?,
            fragment: self.shares.as_slice()[usize::from(node)].copy()?,
        })
    }
}

impl Stage {
    /// Whether the phase counts replies of this kind.
    pub(crate) fn counts(&self, reply: &Reply) -> bool
        ensures { result ≡ is_of_kind (stage_of self.now) reply.now }
    {
        match (self, reply) {
            (Stage::Times, Reply::TimeIs(_)) => true,
            (Stage::Versions(_), Reply::Found(_) | Reply::Nothing) => true,
            (Stage::Storing(_), Reply::Ack) => true,
            _ => false,
        }
    }

    /// How many rounds of asking for versions have begun when an operation goes on with this stage.
    pub(crate) fn rounds_after(&self, rounds: u64) -> u64
        requires { rounds < 2 ^ 64 - 1 }
        ensures { result ≡ rounds_after (stage_of self.now) rounds }
    {
        match self {
            Stage::Versions(_) => rounds + 1,
            Stage::Times | Stage::Storing(_) => rounds,
        }
    }

    /// What the phase asks of a node of the cluster.
    pub(crate) fn request(&self, config: &Config, node: u8) -> Result<Request, NoMemory>
        requires node { node < config.now.n }
        requires fits { FitsStage config.now self.now }
        ensures { IfOk result (λ r. r ≡ request_of (setting config.now) (stage_of self.now) node) }
    {
        match self {
            Stage::Times => Ok(Request::Time),
            Stage::Versions(bound) => Ok(Request::Read(*bound)),
            Stage::Storing(storing) => Ok(Request::Write(storing.version(node)?)),
        }
    }
}

impl Copied for Storing {
    fn copy(&self) -> Result<Storing, NoMemory> {
        Ok(Storing {
            stamp: self.stamp,
            value: self.value.copy()?,
            shares: self.shares.copy()?,
            sum: self.sum.copy()?,
        })
    }
}

impl Copied for Stage {
    fn copy(&self) -> Result<Stage, NoMemory> {
        match self {
            Stage::Times => Ok(Stage::Times),
            Stage::Versions(bound) => Ok(Stage::Versions(*bound)),
            Stage::Storing(storing) => Ok(Stage::Storing(storing.copy()?)),
        }
    }
}
