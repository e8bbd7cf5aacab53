//! What is fixed about a cell, as the head of its list.
ghost use Rattle.std.specs.Prelude.{◌≡◌};
ghost use Rattle.locked_nodes.specs.Cells.{next_terms};
ghost use Rattle.locked_nodes.specs.CellShards.{cell_shard_of};

use crate::cell_shard::CellShard;
use event_clock::Pass;
use journals::{Nature, NodeEntry};
use quorum_rules::Config;
use std::marker::Model;
use std::snapshot::Snapshot;

/// What is fixed about a cell while it lies in one vault. It is for proofs alone: no value of it is made.
pub struct Charter {
    pub config: Config,
    /// The node's number.
    pub number: u8,
    /// The cell serves the blocks whose numbers leave this rest, below `shards`, when they are divided by `shards`.
    pub shard: u32,
    /// How many cells the node has.
    pub shards: u32,
    pub nature: Nature,
    /// How many asks the node serves before it crashes, if it is to crash.
    pub crash_after: Option<u64>,
    /// The cell's pass, as it was when the cell came into the vault.
    pub pass: Pass,
    /// How many entries the journal had then.
    pub base: u64,
    /// Whether prunes may follow.
    pub prunes: bool,
}

/// What a cell's list has: first its charter, and then the entries of its journal. It is for proofs alone: no value of it is
/// made.
pub enum Item {
    Head(Charter),
    Entry(NodeEntry),
}

/// A cell's charter, of which the pass is kept in proofs alone.
pub(crate) struct Terms {
    pub(crate) config: Config,
    pub(crate) number: u8,
    pub(crate) shard: u32,
    pub(crate) shards: u32,
    pub(crate) nature: Nature,
    pub(crate) crash_after: Option<u64>,
    pub(crate) pass: Snapshot<Pass>,
    pub(crate) base: u64,
    pub(crate) prunes: bool,
}

// By hand, since a derived drop is proved anew wherever one is let go.
impl Drop for Terms {
    fn drop(self) {
        let Terms {
            config: _config,
            number: _number,
            shard: _shard,
            shards: _shards,
            nature: _nature,
            crash_after: _crash_after,
            pass: _pass,
            base: _base,
            prunes: _prunes,
        } = self;
    }
}

impl Model for Terms {
    ghost use Rattle.locked_nodes.specs.declared.charter.Charter.{Charter};

    ghost Value = { Charter };

    ghost view = { λ t. record { config = t.config; number = t.number; shard = t.shard; shards = t.shards; nature = t.nature; crash_after = t.crash_after; pass = t.pass.value; base = t.base; prunes = t.prunes } };
}

impl Terms {
    /// How the node answers.
    pub(crate) fn nature(&self) -> Nature
        ensures { result ≡ self.now.nature }
    {
        self.nature
    }

    /// The node's number.
    pub(crate) fn number(&self) -> u8
        ensures { result ≡ self.now.number }
    {
        self.number
    }

    /// Which blocks of which node the cell serves.
    pub(crate) fn cell_shard(&self) -> CellShard
        ensures { result ≡ cell_shard_of self.now }
    {
        CellShard {
            node: self.number,
            shard: self.shard,
            shards: self.shards,
        }
    }

    /// The same cell's next charter, from where its pass and its journal stand now.
    pub(crate) fn next(self, pass: &Pass, base: u64, prunes: bool) -> Terms
        ensures { result ≡ next_terms self pass.now base prunes }
    {
        let Terms {
            config,
            number,
            shard,
            shards,
            nature,
            crash_after,
            pass: _pass,
            base: _base,
            prunes: _prunes,
        } = self;
        Terms {
            config,
            number,
            shard,
            shards,
            nature,
            crash_after,
            pass: Snapshot::of(pass),
            base,
            prunes,
        }
    }
}
