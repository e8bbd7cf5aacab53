//! A session that is played over a source and a sink in memory.
use crate::unmade::Unmade;
use cross_sum::Bytes;
use nbd_front::{SessionEnd, serve};
use outside_io::{Calls, MemorySink, MemorySource};
use quorum_rules::Config;
use std::alloc::Global;

/// The numbers of a cluster: nodes, faulty nodes, lying nodes, the quorum, the shares that make a block, the bytes of a block,
/// and the blocks.
pub type Cluster = [u32; 7];

/// Five nodes, with two blocks of two bytes.
pub const SMALL: Cluster = [5, 1, 1, 3, 2, 2, 2];

/// How many bytes a call moves at most, and which calls fail.
#[derive(Clone, Copy)]
pub struct Pace {
    pub most: usize,
    pub failing: Option<u64>,
}

/// Every call moves all that it can.
pub const WIDE: Pace = Pace {
    most: 4096,
    failing: None,
};

/// Every call moves one byte.
pub const NARROW: Pace = Pace {
    most: 1,
    failing: None,
};

/// How a session ended, and the bytes that the sink took.
#[derive(Drop)]
pub struct Played {
    pub ended: Result<(), SessionEnd>,
    pub taken: Vec<u8>,
}

fn config_of(cluster: &Cluster) -> Result<Config, Unmade> {
    let [n, t, b, qc, m, size, blocks] = *cluster;
    Config::new(n, t, b, qc, m, size, blocks).map_err(|_| Unmade)
}

fn calls_of(alloc: Global, failing: Option<u64>) -> Result<Calls, Unmade> {
    let mut calls = Calls::new(alloc);
    if let Some(call) = failing {
        calls.push(call)?;
    }
    Ok(calls)
}

/// Plays a session of these input bytes.
pub fn play(
    alloc: Global,
    cluster: &Cluster,
    input: &[u8],
    reads: Pace,
    writes: Pace,
) -> Result<Played, Unmade> {
    let config = config_of(cluster)?;
    if config.blocks() > 65_536 {
        return Err(Unmade);
    }
    let bytes = Bytes::of(alloc, input)?;
    let mut source = MemorySource::new(bytes, reads.most.max(1), calls_of(alloc, reads.failing)?);
    let mut sink = MemorySink::new(alloc, writes.most.max(1), calls_of(alloc, writes.failing)?);
    let ended = serve(alloc, &config, &mut source, &mut sink);
    Ok(Played {
        ended,
        taken: Vec::from_slice(alloc, sink.taken())?,
    })
}
