ghost use Rattle.std.specs.Prelude.{◌≡◌, ◌↔◌, ◌≤◌, ℕ, IsTrue, IfOk, length};
ghost use Rattle.quorum_rules.specs.Limits.{complete_of, repairable_of};
ghost use Rattle.protocol.specs.Setting.{first_stamp};
ghost use Rattle.protocol.specs.Instance.{setting};
ghost use Rattle.protocol.specs.Operations.{stamps};
ghost use Rattle.protocol.specs.Operations.Stage.{Versions};
ghost use Rattle.candidate_class.specs.Stamps.{stamp_at};
ghost use Rattle.operation_core.specs.Counting.{answer_at};
ghost use Rattle.read_core.specs.Rounds.{FitsRound, HasPivot, support_in};
ghost use Rattle.read_core.specs.Ends.{IsEnd, IsEndOf};

use crate::candidate::{checked, invalid_nodes, known_parts, least_sum, parts_of};
use crate::read_end::ReadEnd;
use candidate_class::{Class, class_of, pivot_of, support_of, valid_stamp};
use cross_sum::Bytes;
use frag_check::Checked;
use lists::NoMemory;
use operation_core::{Stage, Storing};
use quorum_rules::Config;
use run_words::How;
use stamp_order::{Bound, Stamp};
use std::alloc::Global;
use wire_forms::Reply;

/// A round of asking for versions in a bound, and what it has heard.
#[derive(Clone, Copy)]
pub(crate) struct Round<'a> {
    pub(crate) config: &'a Config,
    /// The stamp of the cluster's first version.
    pub(crate) first: &'a Stamp,
    pub(crate) bound: Bound,
    /// For each node its answer, if one was counted.
    pub(crate) answers: &'a [Option<Reply>],
    /// For each node the stamp of its answer, if the answer is valid.
    pub(crate) stamps: &'a [Option<Stamp>],
}

/// What a round comes to by the answers that it has heard. `first` is the first stamp of the configuration.
pub(crate) fn end_of_round(
    alloc: Global,
    config: &Config,
    first: &Stamp,
    bound: &Bound,
    answers: &[Option<Reply>],
) -> Result<ReadEnd, NoMemory>
    requires first { first.now ≡ first_stamp (setting config.now) }
    requires places { length answers.now ≡ config.now.n }
    ensures { IfOk result (IsEnd config.now (Versions bound.now) answers.now) }
{
    let n = config.n() as usize;
    let stamps = stamps_of(config, first, bound, answers);
    let round = Round {
        config,
        first,
        bound: *bound,
        answers,
        stamps: &stamps[..n],
    };
    round.end(alloc)
}

// For each node the stamp of its answer, if the answer is valid.
fn stamps_of(
    config: &Config,
    first: &Stamp,
    bound: &Bound,
    answers: &[Option<Reply>],
) -> [Option<Stamp>; 16]
    requires few { config.now.n ≤ 16 }
    requires first { first.now ≡ first_stamp (setting config.now) }
    requires places { length answers.now ≡ config.now.n }
    ensures places { length result ≡ 16 }
    ensures stamps { (i : ℕ) → stamp_at result i
        ≡ stamps (setting config.now) (answer_at answers.now) bound.now i }
{
    let mut stamps = [None; 16];
    for (i, answer) in answers.iter().enumerate() {
        if let Some(reply) = answer {
            stamps[i] = valid_stamp(config, first, i as u8, bound, reply);
        }
    }
    stamps
}

impl<'a> Round<'a> {
    // What the round comes to by the answers that it has heard.
    fn end(&self, alloc: Global) -> Result<ReadEnd, NoMemory>
        requires { FitsRound self.now }
        ensures { IfOk result (IsEndOf self.now) }
    {
        let Some(pivot) = pivot_of(self.stamps, self.config.repairable()) else {
            let nodes = invalid_nodes(alloc, self.answers, self.stamps)?;
            return Ok(ReadEnd::Outvoted(nodes));
        };
        if pivot.cmp(self.first).is_eq() {
            return Ok(ReadEnd::Gives {
                stamp: pivot,
                value: Bytes::zeros(alloc, self.config.size() as usize)?,
                how: How::Plain,
            });
        }
        match class_of(self.config, support_of(self.stamps, &pivot)) {
            Class::Incomplete => Ok(ReadEnd::GoesOn(Stage::Versions(Bound::AtMost(pivot)))),
            Class::Repairable => self.judged(alloc, pivot, false),
            Class::Complete => self.judged(alloc, pivot, true),
        }
    }

    // What the round comes to where enough valid answers carry its pivot, which isn't the first stamp.
    fn judged(&self, alloc: Global, pivot: Stamp, is_complete: bool) -> Result<ReadEnd, NoMemory>
        requires fits { FitsRound self.now }
        requires pivot { HasPivot self.now pivot }
        requires enough { repairable_of self.now.config.now ≤ support_in self.now pivot }
        requires complete { IsTrue is_complete
            ↔ (complete_of self.now.config.now ≤ support_in self.now pivot) }
        ensures { IfOk result (IsEndOf self.now) }
    {
        let (answers, stamps) = (self.answers, self.stamps);
        let parts = parts_of(alloc, answers, stamps, &pivot, self.config.m() as usize)?;
        let sum = least_sum(alloc, answers, stamps, &pivot)?;
        let known = known_parts(alloc, answers, stamps, &pivot, &sum)?;
        match checked(alloc, self.config, &sum, parts.as_slice(), known.as_slice())? {
            None => Ok(ReadEnd::GoesOn(Stage::Versions(Bound::Below(pivot)))),
            Some(Checked { block, shares }) => {
                if is_complete {
                    Ok(ReadEnd::Gives {
                        stamp: pivot,
                        value: block,
                        how: How::Plain,
                    })
                } else {
                    Ok(ReadEnd::GoesOn(Stage::Storing(Storing {
                        stamp: pivot,
                        value: block,
                        shares,
                        sum,
                    })))
                }
            }
        }
    }
}
