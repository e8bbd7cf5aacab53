//! How a handshake ends.

/// What client and server have agreed on.
#[derive(Clone, Copy)]
pub enum Agreement {
    /// Requests follow.
    Transmission,
    /// The client has left: it aborted, or the input has ended where its flags or an option would begin.
    Departure,
}

/// Why a handshake failed. Places are those of the input, its first byte at 0.
#[derive(Clone, Copy)]
pub enum HandshakeFault {
    /// The source failed.
    ReadFault,
    /// The sink failed.
    WriteFault,
    /// The client has flags that the server hasn't.
    UnknownFlags,
    /// At this place, where an option begins, stand eight bytes that begin none.
    BadMagic { at: u64 },
    /// The input ends within the flags or the option that begin at this place.
    Cut { at: u64 },
    /// The EXPORT_NAME at this place has a name, and the one export has none. The protocol has no reply for that.
    UnknownExport { at: u64 },
    /// After 256 options the client has neither chosen the export nor left.
    TooManyOptions,
}
