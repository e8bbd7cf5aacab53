use cross_sum::Bytes;
use lists::{Copied, ItemList, NoMemory};
use stamp_order::Stamp;

/// Numbers of nodes, ascending.
pub type Nodes = ItemList<u8>;

/// Whether a read stored again what it gave.
#[derive(Clone, Copy, Debug, PartialEq, Eq)]
pub enum How {
    Plain,
    Repaired,
}

/// How an operation of a client ends.
#[derive(Drop)]
pub enum Outcome {
    /// The write is stored under this stamp.
    Wrote(Stamp),
    /// The write found no time left.
    Spent,
    /// The read gives this value, after so many rounds of asking for versions.
    Gave {
        stamp: Stamp,
        value: Bytes,
        how: How,
        rounds: u64,
    },
    /// The read heard too few valid answers: those of these nodes aren't valid.
    Outvoted(Nodes),
}

impl Copied for Outcome {
    fn copy(&self) -> Result<Outcome, NoMemory> {
        match self {
            Outcome::Wrote(stamp) => Ok(Outcome::Wrote(*stamp)),
            Outcome::Spent => Ok(Outcome::Spent),
            Outcome::Gave {
                stamp,
                value,
                how,
                rounds,
            } => Ok(Outcome::Gave {
                stamp: *stamp,
                value: value.copy()?,
                how: *how,
                rounds: *rounds,
            }),
            Outcome::Outvoted(nodes) => Ok(Outcome::Outvoted(nodes.copy()?)),
        }
    }
}
