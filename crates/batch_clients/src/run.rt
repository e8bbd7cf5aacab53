//! One operation of a batch, and what the answers to its phase make of it.
ghost use Rattle.std.specs.Prelude.{◌≡◌, ◌+◌, ◌-◌, ◌<◌, ◌^◌, Some, IfOk, length};
ghost use Rattle.protocol.specs.Seen.{SeenTask, ops_of, phase_of};
ghost use Rattle.batch_clients.specs.Parts.{IsHeardFrom, HasCome};

use client_core::{Client, Heard, Outcome};
use lists::NoMemory;
use wire_forms::{Body, Message, Reply, Tag};

/// Where an operation stands between two phases.
#[derive(Drop)]
pub(crate) enum Standing {
    /// Its client has asked the present phase.
    Asking(Client),
    /// It has ended.
    Ended(Outcome),
    /// Too few nodes answered.
    Lost,
}

/// An operation, and the number of its client.
#[derive(Drop)]
pub(crate) struct Run {
    pub(crate) id: u32,
    pub(crate) standing: Standing,
}

/// The client hears the nodes' answers to its phase, in the order of nodes, until the phase ends. The other answers are too late.
pub(crate) fn hear_phase(
    client: &mut Client,
    id: u32,
    replies: Vec<Option<Reply>>,
) -> Result<Heard, NoMemory>
    requires own { client.old.id ≡ id }
    requires task { (t : SeenTask) × (client.old.seen.task ≡ Some t)
        × (t.op ≡ ops_of client.old.seen) × (t.phase < 2 ^ 64 - 1) }
    requires few { length replies.items < 256 }
    ensures { IfOk result (λ heard. (t : SeenTask) → client.old.seen.task ≡ Some t
        → HasCome client.old t replies.items client.new heard) }
{
    let tag = Tag {
        op: client.ops(),
        phase: client.phase(),
    };
    let mut node: u8 = 0;
    for given in replies {
        match hear_given(client, id, node, tag, given)? {
            Heard::Unchanged | Heard::More => node += 1,
            Heard::Send(mail) => return Ok(Heard::Send(mail)),
            Heard::Ended(outcome) => return Ok(Heard::Ended(outcome)),
        }
    }
    Ok(Heard::Unchanged)
}

/// The client hears what this node answered to the phase of this tag, if it did.
fn hear_given(
    client: &mut Client,
    id: u32,
    node: u8,
    tag: Tag,
    given: Option<Reply>,
) -> Result<Heard, NoMemory>
    requires { phase_of client.old.seen.task < 2 ^ 64 - 1 }
    ensures { IfOk result (IsHeardFrom client.old client.new id node tag given) }
{
    let Some(reply) = given else {
        return Ok(Heard::Unchanged);
    };
    client.hear(&Message {
        client: id,
        node,
        tag,
        body: Body::Answer(reply),
    })
}
