/// A moment of an operation, at which a gate may hold the thread that comes to it.
#[derive(Clone, Copy, PartialEq)]
pub enum Edge {
    /// Before the operation starts.
    Begin,
    /// While the client has this node's cell, and before the cell's step.
    Locked(u8),
    /// While this node's thread has an ask of the client, and before the node's step.
    Taken(u8),
    /// After the operation ended.
    End,
}

/// Called at the edges of operations, which count from 1 for each client: by the thread of a correct client at `Begin`, `Locked`
/// and `End`, and by a node's thread at `Taken`, with the ask's client and the number of its operation. No contract speaks of
/// what it does. Threads that share one ask that it is `Sync`.
pub trait Gate {
    fn at(&self, client: u32, op: u64, edge: Edge);
}

/// A gate that holds nobody.
#[derive(Clone, Copy)]
pub struct OpenGate;

impl Gate for OpenGate {
    fn at(&self, _client: u32, _op: u64, _edge: Edge) {}
}
