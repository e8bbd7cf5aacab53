use lists::ItemList;
use stamp_order::Stamp;
use wire_forms::{Message, Rule};

/// Whether a node lies, and how.
#[derive(Clone, Copy, Debug, PartialEq, Eq)]
pub enum Nature {
    Honest,
    Lying(Rule),
}

/// Why a caller hears nothing.
#[derive(Clone, Copy, Debug, PartialEq, Eq)]
pub enum Silence {
    /// The node has crashed, or crashes now.
    Crashed,
    /// The ask was dropped on its way.
    Dropped,
    /// The ask is held back, and comes later.
    Held,
    /// The node lies by silence.
    Lying,
}

/// What the caller of a node hears.
#[derive(Drop)]
pub enum Answer {
    Reply(Message),
    Nothing(Silence),
}

/// What a node did at one number.
pub enum NodeAct {
    /// It handled the ask, and the caller heard the answer.
    Answered { ask: Message, reply: Message },
    /// It told the caller a false answer.
    Lied { ask: Message, reply: Message },
    /// The caller heard nothing.
    Silent { ask: Message, why: Silence },
    /// It crashed when this ask came, or came late.
    CrashedAt { ask: Message, late: bool },
    /// It handled an ask that was held back. Nobody hears the answer.
    Delivered { ask: Message, reply: Message },
    /// An ask that was held back found the node crashed or lying.
    LateLost { ask: Message },
    /// It dropped the versions of the block that no later read can need.
    Pruned { block: u32, stamp: Stamp },
}

// By hand, since a derived drop is proved anew wherever an act is let go.
impl Drop for NodeAct {
    fn drop(self) {
        match self {
            NodeAct::Answered {
                ask: _ask,
                reply: _reply,
            }
            | NodeAct::Lied {
                ask: _ask,
                reply: _reply,
            }
            | NodeAct::Delivered {
                ask: _ask,
                reply: _reply,
            } => {}
            NodeAct::Silent {
                ask: _ask,
                why: _why,
            } => {}
            NodeAct::CrashedAt {
                ask: _ask,
                late: _late,
            } => {}
            NodeAct::LateLost { ask: _ask } => {}
            NodeAct::Pruned {
                block: _block,
                stamp: _stamp,
            } => {}
        }
    }
}

/// A number and what the node did then.
#[derive(Drop)]
pub struct NodeEntry {
    pub number: u64,
    pub act: NodeAct,
}

/// All that a node did, by ascending number.
pub type NodeJournal = ItemList<NodeEntry>;

/// The journals of the nodes, by node.
pub type NodeJournals = ItemList<NodeJournal>;
