use crate::boxed_message::BoxedMessage;
use cross_sum::Bytes;
use wire_forms::Rule;

/// A line of a script: what takes place at one place of a run.
pub enum Line {
    /// The client starts a write.
    Write {
        client: u32,
        block: u32,
        value: Bytes,
    },
    /// The client starts a read.
    Read {
        client: u32,
        block: u32,
    },
    /// The client sends the messages of its phase again.
    Resend {
        client: u32,
    },
    /// The node is given the client's outstanding message, and the client hears the answer.
    Call {
        client: u32,
        node: u8,
    },
    /// The node is given a message of the pool, by its number.
    Give {
        node: u8,
        message: u64,
    },
    /// The client hears a message of the pool, by its number.
    Hear {
        client: u32,
        message: u64,
    },
    /// A message between the two is lost.
    Lost {
        client: u32,
        node: u8,
    },
    CrashNode {
        node: u8,
    },
    CrashClient {
        client: u32,
    },
    /// A liar sends the message.
    Lie {
        message: BoxedMessage,
    },
    /// A lying node sends the answer, and its client hears it.
    Tell {
        message: BoxedMessage,
    },
    /// A lying client sends the ask, and its node is given it.
    Poke {
        message: BoxedMessage,
    },
    /// A lying node answers the client's outstanding message by a rule, and the client hears it.
    False {
        client: u32,
        node: u8,
        rule: Rule,
    },
    /// A lying client sends a write of a sound value, and the node is given it.
    Sound {
        client: u32,
        node: u8,
        block: u32,
        time: u64,
        value: Bytes,
    },
    /// A lying client sends a write of fragments of two values under one stamp, and the node is given it.
    Mix {
        client: u32,
        node: u8,
        block: u32,
        time: u64,
        value: Bytes,
        other: Bytes,
    },
    /// The node drops the versions of the block that no later read can need.
    Prune {
        node: u8,
        block: u32,
    },
    /// The client comes back after a crash.
    Back {
        client: u32,
    },
    /// The node is stopped and opened again.
    Restart {
        node: u8,
    },
}

impl Drop for Line {
    fn drop(self) {
        match self {
            Line::Write {
                client: _client,
                block: _block,
                value: _value,
            } => {}
            Line::Read {
                client: _client,
                block: _block,
            } => {}
            Line::Resend { client: _client } => {}
            Line::Call {
                client: _client,
                node: _node,
            } => {}
            Line::Give {
                node: _node,
                message: _message,
            } => {}
            Line::Hear {
                client: _client,
                message: _message,
            } => {}
            Line::Lost {
                client: _client,
                node: _node,
            } => {}
            Line::CrashNode { node: _node } => {}
            Line::CrashClient { client: _client } => {}
            Line::Lie { message: _message } => {}
            Line::Tell { message: _message } => {}
            Line::Poke { message: _message } => {}
            Line::False {
                client: _client,
                node: _node,
                rule: _rule,
            } => {}
            Line::Sound {
                client: _client,
                node: _node,
                block: _block,
                time: _time,
                value: _value,
            } => {}
            Line::Mix {
                client: _client,
                node: _node,
                block: _block,
                time: _time,
                value: _value,
                other: _other,
            } => {}
            Line::Prune {
                node: _node,
                block: _block,
            } => {}
            Line::Back { client: _client } => {}
            Line::Restart { node: _node } => {}
        }
    }
}

/// Why a line is refused: the first of these that it meets.
#[derive(Clone, Copy, Debug, PartialEq, Eq)]
pub enum StepFault {
    /// There is no such node or client.
    NoSuchActor,
    /// The pool has no message of this number.
    NoSuchMessage,
    /// The message isn't an ask to this node, or an answer to this client.
    WrongReceiver,
    /// The client has an operation under way.
    Busy,
    /// The node or the client has crashed.
    Crashed,
    /// The sender of the lie isn't declared lying.
    NotALiar,
    /// The client has no operation under way.
    Idle,
    /// The node or the client is declared lying.
    IsALiar,
    /// An operation on the block is under way.
    NotQuiet,
    /// No read of the block has completed.
    NoRead,
    /// The client has started as many operations, or lived as many lives, as there are numbers for.
    Worn,
    /// The client hasn't crashed.
    NotCrashed,
}
