//! The messages of a run, by their numbers in the pool.
ghost use Rattle.std.specs.Prelude.{◌≡◌, ◌+◌, IfSome, OnOk, length};
ghost use Rattle.picture_svg.specs.declared.picture.Fate.TheVariants as fates;

use lists::NoMemory;
use picture_svg::{Actor, Arrow, Fate};
use std::alloc::Global;
use std::collections::BTreeMap;
use wire_forms::{Body, Liars, Message};

/// A client and a node that speak with each other.
#[derive(Clone, Copy, PartialEq, Eq, PartialOrd, Ord)]
pub struct Pair {
    pub client: u32,
    pub node: u8,
}

/// Which asks a node's answer may belong to.
#[derive(Clone, Copy, PartialEq, Eq, PartialOrd, Ord)]
struct Question {
    pair: Pair,
    op: u64,
    phase: u64,
}

/// The client and the node of a message.
pub fn pair_of(message: &Message) -> Pair
    ensures { (result.client ≡ message.now.client) × (result.node ≡ message.now.node) }
{
    Pair {
        client: message.client,
        node: message.node,
    }
}

fn question_of(message: &Message) -> Question {
    Question {
        pair: pair_of(message),
        op: message.tag.op,
        phase: message.tag.phase,
    }
}

/// A message that was sent.
#[derive(Clone, Copy)]
struct Sent {
    from: Actor,
    to: Actor,
    row: usize,
    is_lie: bool,
    /// Whether it was given, heard or lost.
    is_settled: bool,
}

impl Sent {
    /// A message as it is sent in a row.
    fn of(message: &Message, row: usize, liars: &Liars) -> Sent {
        let client = Actor::Client(message.client);
        let node = Actor::Node(message.node);
        let (from, to, is_lie) = match message.body {
            Body::Ask(_) => (client, node, liars.client(message.client)),
            Body::Answer(_) => (node, client, liars.node(message.node)),
        };
        Sent {
            from,
            to,
            row,
            is_lie,
            is_settled: false,
        }
    }

    fn arrow(&self, got: usize, fate: Fate) -> Arrow
        ensures ends { (result.from ≡ self.now.from) × (result.to ≡ self.now.to) }
        ensures rows { (result.sent ≡ self.now.row) × (result.got ≡ got) }
        ensures fate { result.fate ≡ fate }
    {
        Arrow {
            from: self.from,
            to: self.to,
            sent: self.row,
            got,
            fate,
            is_lie: self.is_lie,
        }
    }
}

/// All messages that were sent so far, and the last ones of each kind.
pub struct SentMessages {
    sent: Vec<Sent>,
    questions: BTreeMap<Question, usize>,
    asks: BTreeMap<Pair, usize>,
    answers: BTreeMap<Pair, usize>,
}

// By hand, since a derived drop is proved anew wherever a post is let go.
impl Drop for SentMessages {
    fn drop(self) {
        let SentMessages {
            sent: _sent,
            questions: _questions,
            asks: _asks,
            answers: _answers,
        } = self;
    }
}

impl SentMessages {
    pub fn new(alloc: Global) -> SentMessages {
        SentMessages {
            sent: Vec::new(alloc),
            questions: BTreeMap::new(alloc),
            asks: BTreeMap::new(alloc),
            answers: BTreeMap::new(alloc),
        }
    }

    /// Adds a message that is sent in a row.
    pub fn add(&mut self, message: &Message, row: usize, liars: &Liars) -> Result<(), NoMemory>
        ensures { OnOk result (length self.new.sent.items ≡ length self.old.sent.items + 1) }
    {
        let number = self.sent.len();
        let pair = pair_of(message);
        match message.body {
            Body::Ask(_) => {
                self.questions.insert(question_of(message), number)?;
                self.asks.insert(pair, number)?;
            }
            Body::Answer(_) => {
                self.answers.insert(pair, number)?;
            }
        }
        self.sent.push(Sent::of(message, row, liars))?;
        Ok(())
    }

    /// The number of the last ask that an answer may belong to.
    pub fn ask_of(&self, answer: &Message) -> Option<usize> {
        self.questions.get(&question_of(answer)).copied()
    }

    /// The arrow of a message of this number that reaches its end in a row.
    pub fn settle(&mut self, number: usize, row: usize, fate: Fate) -> Option<Arrow>
        ensures { IfSome result (λ arrow. (arrow.got ≡ row) × (arrow.fate ≡ fate)) }
    {
        let sent = self.sent.get_mut(number)?;
        sent.is_settled = true;
        Some(sent.arrow(row, fate))
    }

    /// The arrow of an ask of this number that is made and given in a row.
    pub fn settle_call(&mut self, number: usize, row: usize) -> Option<Arrow>
        ensures { IfSome result
            (λ arrow. (arrow.sent ≡ row) × (arrow.got ≡ row) × (arrow.fate ≡ fates.Arrived)) }
    {
        let arrow = self.settle(number, row, Fate::Arrived)?;
        Some(in_row(arrow, row))
    }

    /// The arrow of a message between the two that is lost in a row: of the last ask, or else the last answer, that is still
    /// under way.
    pub fn lose(&mut self, pair: Pair, row: usize) -> Arrow
        ensures { (result.sent ≡ row) × (result.got ≡ row) × (result.fate ≡ fates.Lost) }
    {
        let lost = match self.under_way(pair) {
            Some(number) => self.settle(number, row, Fate::Lost),
            None => None,
        };
        match lost {
            Some(arrow) => in_row(arrow, row),
            None => Arrow {
                from: Actor::Client(pair.client),
                to: Actor::Node(pair.node),
                sent: row,
                got: row,
                fate: Fate::Lost,
                is_lie: false,
            },
        }
    }

    fn under_way(&self, pair: Pair) -> Option<usize> {
        if let Some(number) = self.asks.get(&pair) {
            if self.is_under_way(*number) {
                return Some(*number);
            }
        }
        match self.answers.get(&pair) {
            Some(number) if self.is_under_way(*number) => Some(*number),
            _ => None,
        }
    }

    fn is_under_way(&self, number: usize) -> bool {
        match self.sent.get(number) {
            Some(sent) => !sent.is_settled,
            None => false,
        }
    }

    /// Adds an arrow for each message that is still under way.
    pub fn add_rest(&self, arrows: &mut Vec<Arrow>) -> Result<(), NoMemory> {
        for sent in &self.sent {
            if !sent.is_settled {
                arrows.push(sent.arrow(sent.row, Fate::NeverGiven))?;
            }
        }
        Ok(())
    }
}

/// The arrow as it looks where its message is sent in the row in which it arrives.
fn in_row(arrow: Arrow, row: usize) -> Arrow
    ensures rows { (result.sent ≡ row) × (result.got ≡ row) }
    ensures fate { result.fate ≡ arrow.fate }
{
    Arrow {
        from: arrow.from,
        to: arrow.to,
        sent: row,
        got: row,
        fate: arrow.fate,
        is_lie: arrow.is_lie,
    }
}
