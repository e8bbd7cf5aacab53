//! Single events of a run.

ghost use Rattle.std.specs.Prelude.{◌≡◌, IfOk};
ghost use Rattle.protocol.specs.Lines.{start_line};

use lists::{Copied, NoMemory};
use run_words::{BoxedMessage, Line};
use std::alloc::Global;
use wire_forms::{Message, Op};

/// What can take place by itself.
#[derive(Drop)]
pub enum Event {
    /// The client starts an operation.
    Start { client: u32, op: Op },
    /// The client sends the messages of its phase again.
    Resend { client: u32 },
    /// The node is given a message of the pool, by its number.
    Give { node: u8, message: u64 },
    /// The client hears a message of the pool, by its number.
    Hear { client: u32, message: u64 },
    CrashNode { node: u8 },
    CrashClient { client: u32 },
    /// A liar sends the message.
    Lie(Message),
    /// The node drops the versions of the block that no later read can need.
    Prune { node: u8, block: u32 },
    /// The client comes back after a crash.
    Back { client: u32 },
}

impl Event {
    ghost use Rattle.world_steps.specs.Events.{line_of};

    /// The line of which it is the only event.
    pub(crate) fn line(&self, alloc: Global) -> Result<Line, NoMemory>
        ensures { IfOk result (λ line. line ≡ line_of self.now) }
    {
        match self {
            Event::Start { client, op } => start(*client, op),
            Event::Resend { client } => Ok(Line::Resend { client: *client }),
            Event::Give { node, message } => Ok(Line::Give {
                node: *node,
                message: *message,
            }),
            Event::Hear { client, message } => Ok(Line::Hear {
                client: *client,
                message: *message,
            }),
            Event::CrashNode { node } => Ok(Line::CrashNode { node: *node }),
            Event::CrashClient { client } => Ok(Line::CrashClient { client: *client }),
            Event::Lie(message) => Ok(Line::Lie {
                message: BoxedMessage::new(alloc, message.copy()?)?,
            }),
            Event::Prune { node, block } => Ok(Line::Prune {
                node: *node,
                block: *block,
            }),
            Event::Back { client } => Ok(Line::Back { client: *client }),
        }
    }
}

/// The line in which the client starts the operation.
fn start(client: u32, op: &Op) -> Result<Line, NoMemory>
    ensures { IfOk result (λ line. line ≡ start_line client op.now) }
{
    match op {
        Op::Read { block } => Ok(Line::Read {
            client,
            block: *block,
        }),
        Op::Write { block, value } => Ok(Line::Write {
            client,
            block: *block,
            value: value.copy()?,
        }),
    }
}
