use client_core::Client;

/// What the world keeps of a client's number: who has it, and how it stands.
pub struct ClientSlot {
    pub client: Client,
    /// The place at which its last operation started, 0 before its first.
    pub start: u64,
    /// The number of that operation's record.
    pub index: usize,
    pub crashed: bool,
    /// Whether it is declared lying. Its client is idle then.
    pub lying: bool,
}

impl Drop for ClientSlot {
    fn drop(self) {
        let ClientSlot {
            client: _client,
            start: _start,
            index: _index,
            crashed: _crashed,
            lying: _lying,
        } = self;
    }
}
