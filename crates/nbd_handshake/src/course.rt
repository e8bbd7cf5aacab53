/// How a handshake goes on behind an option.
#[derive(Clone, Copy, PartialEq, Eq)]
pub enum Course {
    /// Another option may follow.
    More,
    /// Transmission begins.
    Transmit,
    /// The client leaves.
    Leave,
    /// The client wants an export that isn't there, in a way that leaves no room for an answer.
    Unknown,
}
