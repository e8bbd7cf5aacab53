use cross_sum::Bytes;
use run_words::Line;

/// An event line of a replay script.
#[derive(Drop)]
pub enum ReplayLine {
    /// A line that takes place in the run as it stands.
    Plain(Line),
    /// The client is to write these bytes to its device, from the place on.
    Put {
        client: u32,
        offset: u64,
        bytes: Bytes,
    },
    /// The client is to read so many bytes of its device, from the place on.
    Get {
        client: u32,
        offset: u64,
        length: u64,
    },
    /// The client starts the next block step of what it is to do at its device.
    Next {
        client: u32,
    },
}
