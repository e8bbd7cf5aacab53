ghost use Rattle.std.specs.Prelude.{◌≡◌, ◌≤◌, ◌<◌, ◌^◌};
ghost use Rattle.slab_layout.specs.Shapes.{data_len, slab_len, shape_of};

use crate::draws::Draws;
use crate::fault::RunFault;
use crate::pool::{PLACES, slot_of};
use memory_file::MemoryFile;
use outside_io::Calls;
use quorum_rules::{Config, Edition};
use slab_codec::{Header, header_piece, read_header};
use slab_file::{FileFault, SlabFile};
use slab_layout::Shape;
use slab_reading::{Opened, read_answers, read_index};
use std::alloc::Global;

/// How many blocks there are.
pub const BLOCKS: u64 = 3;

/// How many slots there are.
pub const SLOTS: u64 = 70;

// Where the marks, the heads and the data of a slab of 70 slots stand.
const ANSWERS: usize = 4096;

const MARKS: usize = ANSWERS + 3;

const HEADS: usize = MARKS + 70;

const BODIES: usize = HEADS + 72 * 70;

/// A slab in memory that was opened, and what opening told.
#[derive(Drop)]
pub struct Slab {
    pub file: MemoryFile,
    pub header: Header,
    pub opened: Opened,
    /// For each block whether the node answers for it.
    pub answers: Vec<bool>,
}

impl Slab {
    /// Opens a slab of these bytes.
    pub fn open(alloc: Global, bytes: &[u8]) -> Result<Slab, RunFault> {
        if bytes.len() < 40 {
            return Err(RunFault::NoHeader);
        }
        let Some(header) = read_header(alloc, &bytes[..40])? else {
            return Err(RunFault::NoHeader);
        };
        let shape = Shape::of(&header.config);
        if shape.blocks != BLOCKS || shape.count != SLOTS {
            return Err(RunFault::NoHeader);
        }
        let mut file = MemoryFile::new(alloc, bytes, Calls::new(alloc), FileFault::Failed)?;
        let opened = read_index(alloc, &mut file, shape, header.key)?;
        let answers = read_answers(alloc, &mut file, shape)?;
        Ok(Slab {
            file,
            header,
            opened,
            answers,
        })
    }

    /// How large it is.
    pub fn shape(&self) -> Shape
        ensures is { result ≡ shape_of self.now.header.config }
        ensures small { slab_len result < 2 ^ 63 }
    {
        Shape::of(&self.header.config)
    }
}

/// Three nodes, of which one may be faulty, and three blocks of 8 bytes, each stored whole at every node.
pub fn cluster() -> Result<Config, RunFault> {
    match Config::of(Edition::One, 3, 1, 0, 2, 1, 8, 3) {
        Ok(config) => Ok(config),
        Err(_) => Err(RunFault::NoConfig),
    }
}

/// The bytes of a new slab: its header, for each block a byte that tells whether the node answers for it, and zeros.
pub fn new_slab(alloc: Global, header: &Header, draws: &mut Draws) -> Result<Vec<u8>, RunFault> {
    let len = Shape::of(&header.config).slab_len();
    let mut bytes = header_piece(alloc, header)?;
    bytes.resize(ANSWERS, 0)?;
    for _ in 0..BLOCKS {
        bytes.push(draws.below(3) as u8)?;
    }
    bytes.resize(len as usize, 0)?;
    Ok(bytes)
}

/// Changes, now and then, one bit of an answer, a mark, a head or data.
pub fn damage(bytes: &mut [u8], draws: &mut Draws) {
    let slot = slot_of(draws.below(PLACES as u64) as usize) as usize;
    let kind = draws.below(32);
    let byte = draws.below(72) as usize;
    let bit = draws.below(8) as u8;
    let at = match kind {
        0 => ANSWERS + byte % 3,
        1 => MARKS + slot,
        2 => HEADS + 72 * slot + byte,
        3 => BODIES + 104 * slot + byte,
        _ => return,
    };
    if at < bytes.len() {
        bytes[at] ^= 1 << bit;
    }
}
