ghost use Rattle.std.specs.Prelude.{Some};
ghost use Rattle.store_words.specs.Lines.{notice_text};

use crate::down::Down;
use std::fmt;

/// What is said on standard error while a command is done.
#[derive(Clone, Copy, Debug, PartialEq, Eq)]
pub enum Notice {
    /// This node, counted from 0, is down.
    Down { node: usize, why: Down },
    /// So many of the blocks were looked at.
    Looked { done: u32, blocks: u32 },
    /// So many blocks aren't settled.
    Unsettled { blocks: u32 },
}

/// The line that says it.
impl fmt::Display for Notice {
    ghost output = { λ notice. Some (notice_text notice) };

    fn fmt<W: fmt::Write>(&self, f: &mut fmt::Formatter<W>) -> fmt::Result {
        match self {
            Notice::Down { node, why } => write!(f, "pasis_store: node {node} is down: {why}"),
            Notice::Looked { done, blocks } => write!(f, "pasis_store: {done} of {blocks} blocks"),
            Notice::Unsettled { blocks } => write!(
                f,
                "pasis_store: {blocks} blocks aren't settled: a write that was cut off may take place there yet"
            ),
        }
    }
}
