use crate::desk::DeskJournals;
use crate::node::NodeJournals;
use quorum_rules::Config;
use wire_forms::Liars;

/// All that the nodes and clients of one run put down. The type asks nothing of its contents.
#[derive(Drop)]
pub struct Journals {
    pub config: Config,
    pub liars: Liars,
    /// By node.
    pub nodes: NodeJournals,
    /// By ascending client.
    pub desks: DeskJournals,
}
