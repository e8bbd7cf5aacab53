use cross_sum::Bytes;
use lists::ItemList;
use wire_forms::Rule;

/// What goes wrong in a run, one rule at a time.
#[derive(Drop)]
pub enum Fault {
    /// The node lies, and answers by the rule.
    LiarNode {
        node: u8,
        rule: Rule,
    },
    /// The client lies, and sends a sound write of the value to the first `count` nodes.
    LiarSound {
        client: u32,
        block: u32,
        time: u64,
        value: Bytes,
        count: u64,
    },
    /// The client lies, and sends a write whose fragments are of two values to the first `count` nodes.
    LiarMix {
        client: u32,
        block: u32,
        time: u64,
        value: Bytes,
        other: Bytes,
        count: u64,
    },
    /// The client lies, and sends `count` such writes to all nodes, each with a time one less than that of the one before.
    LiarFlood {
        client: u32,
        block: u32,
        time: u64,
        value: Bytes,
        other: Bytes,
        count: u64,
    },
    /// The node crashes once it has answered and delivered `count` asks.
    CrashNode {
        node: u8,
        count: u64,
    },
    /// The client crashes once it has made `count` asks.
    CrashClient {
        client: u32,
        count: u64,
    },
    /// The first `count` asks of the client to the node are lost.
    Lose {
        client: u32,
        node: u8,
        count: u64,
    },
    /// The next `count` asks of the client to the node are held, and delivered late.
    Hold {
        client: u32,
        node: u8,
        count: u64,
    },
}

/// The rules of a plan, in the order of their lines.
pub type PlanRules = ItemList<Fault>;

impl Fault {
    ghost use Rattle.std.specs.Prelude.{◌≡◌};
    ghost use Rattle.plan_words.specs.Named.{crashing_client, dropped_pair, faulty_node, held_pair, is_flood, lying_client, lying_node, troubled_client};

    /// The node that the rule declares lying, if it does.
    pub fn lying_node(&self) -> Option<u8>
        ensures { result ≡ lying_node self.now }
    {
        match self {
            Fault::LiarNode { node, .. } => Some(*node),
            _ => None,
        }
    }

    /// The node that the rule makes lie or crash, if it does.
    pub fn faulty_node(&self) -> Option<u8>
        ensures { result ≡ faulty_node self.now }
    {
        match self {
            Fault::LiarNode { node, .. } | Fault::CrashNode { node, .. } => Some(*node),
            _ => None,
        }
    }

    /// The client that the rule declares lying, if it does.
    pub fn lying_client(&self) -> Option<u32>
        ensures { result ≡ lying_client self.now }
    {
        match self {
            Fault::LiarSound { client, .. }
            | Fault::LiarMix { client, .. }
            | Fault::LiarFlood { client, .. } => Some(*client),
            _ => None,
        }
    }

    /// The client that the rule makes crash, if it does.
    pub fn crashing_client(&self) -> Option<u32>
        ensures { result ≡ crashing_client self.now }
    {
        match self {
            Fault::CrashClient { client, .. } => Some(*client),
            _ => None,
        }
    }

    /// The client that the rule makes crash, or whose asks it drops or holds, if it does.
    pub fn troubled_client(&self) -> Option<u32>
        ensures { result ≡ troubled_client self.now }
    {
        match self {
            Fault::CrashClient { client, .. }
            | Fault::Lose { client, .. }
            | Fault::Hold { client, .. } => Some(*client),
            _ => None,
        }
    }

    /// The client and the node between which the rule drops asks, if it does.
    pub fn dropped_pair(&self) -> Option<(u32, u8)>
        ensures { result ≡ dropped_pair self.now }
    {
        match self {
            Fault::Lose { client, node, .. } => Some((*client, *node)),
            _ => None,
        }
    }

    /// The client and the node between which the rule holds asks, if it does.
    pub fn held_pair(&self) -> Option<(u32, u8)>
        ensures { result ≡ held_pair self.now }
    {
        match self {
            Fault::Hold { client, node, .. } => Some((*client, *node)),
            _ => None,
        }
    }

    /// Whether the rule is a flood.
    pub fn is_flood(&self) -> bool
        ensures { result ≡ is_flood self.now }
    {
        matches!(self, Fault::LiarFlood { .. })
    }
}
