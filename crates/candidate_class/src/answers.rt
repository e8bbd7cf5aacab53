ghost use Rattle.std.specs.Prelude.{◌≡◌, ◌<◌, ◌≤◌, ◌↔◌, ℕ, None, length};
ghost use Rattle.std.specs.List.{slice_index_or};
ghost use Rattle.quorum_rules.specs.Limits.{repairable_of};
ghost use Rattle.protocol.specs.Count.{count};
ghost use Rattle.protocol.specs.Setting.{first_stamp};
ghost use Rattle.protocol.specs.Instance.{setting};
ghost use Rattle.protocol.specs.Operations.{is_there, stamps, support, pivot};
ghost use Rattle.candidate_class.specs.Answers.{by_node, AreOfNodes};

use crate::stamps::{pivot_of, support_of};
use crate::validity::valid_stamp;
use quorum_rules::Config;
use stamp_order::{Bound, Stamp};
use wire_forms::Reply;

/// What a node answered.
#[derive(Drop)]
pub struct Answer {
    pub node: u8,
    pub reply: Reply,
}

/// The greatest stamp that a valid answer carries and enough valid answers reach, in that they carry it or a greater one.
/// Enough are `repairable`; the answers are those of different nodes. `first` is the first stamp of the configuration.
pub fn pivot(config: &Config, first: &Stamp, bound: &Bound, answers: &[Answer]) -> Option<Stamp>
    requires first { first.now ≡ first_stamp (setting config.now) }
    requires nodes { AreOfNodes config.now.n answers.now }
    ensures value { result ≡ pivot (setting config.now) (by_node answers.now) bound.now }
    ensures none { (result ≡ None)
        ↔ (count config.now.n (λ i.
        is_there (stamps (setting config.now) (by_node answers.now) bound.now i))
        < repairable_of config.now) }
{
    let n = config.n() as usize;
    let stamps = stamps_of(config, first, bound, answers);
    pivot_of(&stamps[..n], config.repairable())
}

/// How many valid answers carry exactly this stamp. The answers are those of different nodes, and `first` is the first
/// stamp of the configuration.
pub fn support(
    config: &Config,
    first: &Stamp,
    bound: &Bound,
    answers: &[Answer],
    stamp: &Stamp,
) -> u32
    requires first { first.now ≡ first_stamp (setting config.now) }
    requires nodes { AreOfNodes config.now.n answers.now }
    ensures { result ≡ support (setting config.now) (by_node answers.now) bound.now stamp.now }
{
    let n = config.n() as usize;
    let stamps = stamps_of(config, first, bound, answers);
    support_of(&stamps[..n], stamp)
}

// The stamps of the valid answers, by node.
fn stamps_of(
    config: &Config,
    first: &Stamp,
    bound: &Bound,
    answers: &[Answer],
) -> [Option<Stamp>; 16]
    requires few { config.now.n ≤ 16 }
    requires first { first.now ≡ first_stamp (setting config.now) }
    requires nodes { AreOfNodes config.now.n answers.now }
    ensures places { length result ≡ 16 }
    ensures stamps { (i : ℕ) → slice_index_or result i None
        ≡ stamps (setting config.now) (by_node answers.now) bound.now i }
{
    let mut stamps = [None; 16];
    for answer in answers {
        stamps[usize::from(answer.node)] = valid_stamp(
            config,
            first,
            answer.node,
            bound,
            &answer.reply,
        );
    }
    stamps
}
