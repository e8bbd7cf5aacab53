//! What a picture shows, as data: who takes part, the places, and what takes place between them.
#![tactic(auto, using(crate::proofs::Joining::joining))]

ghost use Rattle.std.specs.Prelude.{◌≡◌, ◌++◌, OnOk};
ghost use Rattle.picture_svg.specs.Names.{actor_text};

use lists::NoMemory;
use std::alloc::Global;
use std::fmt;
use text_lines::Text;

/// Who takes part in a run.
#[derive(Clone, Copy, PartialEq, Eq, PartialOrd, Ord)]
pub enum Actor {
    Client(u32),
    Node(u8),
}

impl fmt::Display for Actor {
    fn fmt<W: fmt::Write>(&self, f: &mut fmt::Formatter<W>) -> fmt::Result {
        match self {
            Actor::Client(client) => write!(f, "client {client}"),
            Actor::Node(node) => write!(f, "node {node}"),
        }
    }
}

/// Adds the name of one who takes part, as `client 1` or `node 0`.
pub fn add_actor(text: &mut Text, actor: Actor) -> Result<(), NoMemory>
    ensures { OnOk result (text.new ≡ text.old ++ actor_text actor) }
{
    match actor {
        Actor::Client(client) => {
            text.add(b"client ")?;
            text.add_number(u64::from(client))
        }
        Actor::Node(node) => {
            text.add(b"node ")?;
            text.add_number(u64::from(node))
        }
    }
}

/// The lifeline of one who takes part.
#[derive(Clone, Copy)]
pub struct Lifeline {
    pub actor: Actor,
    /// Whether it is declared lying.
    pub is_liar: bool,
}

/// What is written in a row beside its line.
pub struct Remarks {
    /// The client beside whose bar it is written what its operation does or gives.
    pub client: u32,
    /// What is written there, if anything is: one line, or two.
    pub first: String,
    pub second: String,
    /// What came of the line.
    pub note: String,
}

impl Remarks {
    /// Nothing is written.
    pub fn none(alloc: Global) -> Remarks {
        Remarks {
            client: 0,
            first: String::new(alloc),
            second: String::new(alloc),
            note: String::new(alloc),
        }
    }
}

// By hand, as those below, since a derived drop is proved anew wherever such a value is let go.
impl Drop for Remarks {
    fn drop(self) {
        let Remarks {
            client: _client,
            first: _first,
            second: _second,
            note: _note,
        } = self;
    }
}

/// A line of the script. Rows count from 0, and the places that they show from 1.
pub struct Row {
    /// The line's text, as far as a picture shows it.
    pub line: Text,
    pub remarks: Remarks,
}

impl Drop for Row {
    fn drop(self) {
        let Row {
            line: _line,
            remarks: _remarks,
        } = self;
    }
}

/// What became of a message.
#[derive(Clone, Copy)]
pub enum Fate {
    /// It was given or heard.
    Arrived,
    /// It was heard and changed nothing.
    Stale,
    /// The script says that it was lost.
    Lost,
    /// It was sent, and never given or heard.
    NeverGiven,
}

/// A message on its way.
#[derive(Clone, Copy)]
pub struct Arrow {
    pub from: Actor,
    pub to: Actor,
    /// The row in which it was sent.
    pub sent: usize,
    /// The row in which it was given, heard or lost; of a message that never was, the row in which it was sent.
    pub got: usize,
    pub fate: Fate,
    /// Whether a liar told it.
    pub is_lie: bool,
}

/// What a phase of an operation does.
#[derive(Clone, Copy, PartialEq, Eq)]
pub enum PhaseKind {
    /// A write asks for times.
    Times,
    /// A write stores its value.
    Store,
    /// A read asks for versions.
    Round,
    /// A read stores again what it gives.
    Repair,
}

/// A phase of an operation: a stretch of the bar beside its client.
#[derive(Clone, Copy)]
pub struct Stretch {
    pub client: u32,
    pub work: PhaseKind,
    /// The rows from which and to which it reaches.
    pub from: usize,
    pub to: usize,
    /// Whether it never ended.
    pub is_open: bool,
}

/// What happens to one who takes part.
#[derive(Clone, Copy, PartialEq, Eq)]
pub enum Sign {
    /// It crashes.
    Crash,
    /// It is back after a crash or a stop.
    Back,
    /// It drops versions.
    Prune,
    /// It acknowledges a version.
    Holds,
}

/// A sign on a lifeline.
#[derive(Clone, Copy)]
pub struct Mark {
    pub actor: Actor,
    pub row: usize,
    pub sign: Sign,
}

/// What became of how many operations of those who don't lie.
#[derive(Clone, Copy)]
pub struct Outcomes {
    /// Reads that gave a value, and writes that stored theirs.
    pub done: usize,
    /// Writes for which no time was left.
    pub spent: usize,
    /// Operations that never ended.
    pub pending: usize,
}

impl Outcomes {
    /// Those of no operation.
    pub const NONE: Outcomes = Outcomes {
        done: 0,
        spent: 0,
        pending: 0,
    };
}

/// What takes place between those who take part, and what became of it.
pub struct Deeds {
    pub arrows: Vec<Arrow>,
    pub stretches: Vec<Stretch>,
    pub marks: Vec<Mark>,
    pub outcomes: Outcomes,
}

impl Drop for Deeds {
    fn drop(self) {
        let Deeds {
            arrows: _arrows,
            stretches: _stretches,
            marks: _marks,
            outcomes: _outcomes,
        } = self;
    }
}

impl Deeds {
    /// Nothing takes place.
    pub fn none(alloc: Global) -> Deeds {
        Deeds {
            arrows: Vec::new(alloc),
            stretches: Vec::new(alloc),
            marks: Vec::new(alloc),
            outcomes: Outcomes::NONE,
        }
    }
}

/// A picture of a run.
pub struct Picture {
    /// What the numbers of the cluster mean, a line each.
    pub caption: Vec<Text>,
    /// The clients by number, and then the nodes.
    pub lifelines: Vec<Lifeline>,
    /// The lines of the script.
    pub rows: Vec<Row>,
    pub deeds: Deeds,
    /// The lines of the run's report, as far as a picture shows them.
    pub report: Vec<Text>,
}

impl Drop for Picture {
    fn drop(self) {
        let Picture {
            caption: _caption,
            lifelines: _lifelines,
            rows: _rows,
            deeds: _deeds,
            report: _report,
        } = self;
    }
}
