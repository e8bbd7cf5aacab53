ghost use Rattle.std.specs.Prelude.{◌≡◌, Some};
ghost use Rattle.store_words.specs.Lines.{words_text, refusal_text, fault_text};
ghost use Rattle.store_words.specs.Statuses.{status_of_refusal};

use crate::status::Status;
use lists::NoMemory;
use quorum_rules::ConfigFault;
use std::fmt;

/// Why words are refused.
#[derive(Clone, Copy, Debug, PartialEq, Eq)]
pub enum BadWords {
    /// The first word is no command's.
    NoCommand,
    /// Words are missing, or there are too many; of `create`, not as many directories as nodes.
    WrongCount,
    /// A word that is to be a number below 2^32 isn't one.
    BadNumber,
    /// The numbers of `create` break this rule of clusters.
    BadCluster(ConfigFault),
    /// The number of `renew` is that of no directory.
    NoNode,
    /// The word `-` stands in the place of the directory of `renew`.
    NoPlace,
}

/// Why a command isn't done, or not all of it.
#[derive(Clone, Copy, Debug, PartialEq, Eq)]
pub enum Refusal {
    /// The words are no command's.
    BadWords(BadWords),
    /// The system gave no words that are text.
    NoText,
    /// No memory was found.
    NoMemory,
    /// None of so many directories tells of a store of as many nodes.
    NoStore { folders: usize },
    /// More nodes are down than may be.
    TooManyDown { down: u64, most: u32 },
    /// So many blocks couldn't be read, or what was read couldn't be written again.
    Unread { blocks: u64 },
}

impl From<NoMemory> for Refusal {
    ghost use Rattle.store_words.specs.declared.refusal.Refusal.TheVariants.{NoMemory};

    ghost from_gives = { λ _ e. e ≡ NoMemory };

    fn from(_: NoMemory) -> Refusal {
        Refusal::NoMemory
    }
}

impl Refusal {
    /// What the program ends with.
    pub fn status(&self) -> Status
        ensures { result ≡ status_of_refusal self.now }
    {
        match self {
            Refusal::BadWords(_) | Refusal::NoText => Status::BadWords,
            Refusal::NoMemory => Status::Failed,
            Refusal::NoStore { .. } | Refusal::TooManyDown { .. } | Refusal::Unread { .. } => {
                Status::TooFew
            }
        }
    }
}

/// The line that tells of it on standard error.
impl fmt::Display for Refusal {
    ghost output = { λ refusal. Some (refusal_text refusal) };

    fn fmt<W: fmt::Write>(&self, f: &mut fmt::Formatter<W>) -> fmt::Result {
        match self {
            Refusal::BadWords(why) => {
                write!(f, "pasis_store: {why}; pasis_store --help tells the words")
            }
            Refusal::NoText => write!(f, "pasis_store: the words are no text"),
            Refusal::NoMemory => write!(f, "pasis_store: no memory"),
            Refusal::NoStore { folders } => {
                write!(f, "pasis_store: no store of {folders} directories")
            }
            Refusal::TooManyDown { down, most } => {
                write!(f, "pasis_store: {down} nodes are down, and {most} may be")
            }
            Refusal::Unread { blocks } => write!(
                f,
                "pasis_store: {blocks} blocks couldn't be read or written again"
            ),
        }
    }
}

/// What is said of refused words.
impl fmt::Display for BadWords {
    ghost output = { λ why. Some (words_text why) };

    fn fmt<W: fmt::Write>(&self, f: &mut fmt::Formatter<W>) -> fmt::Result {
        match self {
            BadWords::NoCommand => write!(f, "no such command"),
            BadWords::WrongCount => write!(f, "words are missing, or there are too many"),
            BadWords::BadNumber => write!(f, "a number is wanted where none stands"),
            BadWords::BadCluster(fault) => {
                write!(f, "the numbers make no cluster: {}", rule(*fault))
            }
            BadWords::NoNode => write!(f, "there is no such node"),
            BadWords::NoPlace => write!(f, "renew needs the directory of the node, not -"),
        }
    }
}

// The rule of clusters that numbers break.
fn rule(fault: ConfigFault) -> &'static str
    ensures { result.now ≡ fault_text fault }
{
    match fault {
        ConfigFault::NodesOutOfRange => "N is 1 to 16",
        ConfigFault::LiarsAboveFaults => "B is at most T",
        ConfigFault::QuorumLow => "QC is at least T + B + 1",
        ConfigFault::QuorumHigh => "QC is at most N - T - B",
        ConfigFault::ShareCount => "M is 1 to QC - T",
        ConfigFault::SizeOutOfRange => "SIZE is 1 to 65536",
        ConfigFault::BlocksOutOfRange => "BLOCKS is 1 to 268435456",
    }
}
