use operation_core::PhaseEnd;
use wire_forms::{Reply, Tag};

/// What a message would do to a client.
#[derive(Drop)]
pub enum Step {
    /// Nothing: the client is idle, or the message isn't an answer that its present phase counts.
    Ignored,
    /// The answer of this node is counted, and the phase goes on.
    Counts { node: u8, tag: Tag, reply: Reply },
    /// The answer ends the phase, which comes to this.
    EndsPhase(PhaseEnd),
}
