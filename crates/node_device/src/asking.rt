//! The phases of one client's operations, on nodes that answer at once.
ghost use Rattle.std.specs.Prelude.{◌≡◌, ◌<◌, ◌-◌, ◌^◌, length, IfOk, Some};
ghost use Rattle.protocol.specs.Seen.{SeenTask, phase_of};
ghost use Rattle.protocol.specs.Messages.{IsAsk};
ghost use Rattle.node_device.specs.Phases.{HasMet, IsAsking, HasAsked};

use client_core::{Client, Heard};
use lists::NoMemory;
use node_core::Node;
use wire_forms::{Body, Mail, Message};

/// Lets the nodes answer the messages of a phase, in order, until the phase ends.
pub(crate) fn ask(
    nodes: &mut Vec<Node>,
    client: &mut Client,
    mail: &Mail,
) -> Result<Heard, NoMemory>
    requires { (t : SeenTask) × IsAsking nodes.old.items client.old t mail.now }
    ensures { IfOk result (λ heard. (t : SeenTask) → client.old.seen.task ≡ Some t
        → HasAsked nodes.old.items nodes.new.items client.old client.new t heard) }
{
    for message in mail.as_slice() {
        match meet(nodes, client, message)? {
            Heard::More => {}
            heard => return Ok(heard),
        }
    }
    unreachable!()
}

/// The node of a message answers it, and the client hears the answer.
fn meet(nodes: &mut Vec<Node>, client: &mut Client, message: &Message) -> Result<Heard, NoMemory>
    requires asks { IsAsk message.now.body }
    requires there { message.now.node < length nodes.old.items }
    requires phase { phase_of client.old.seen.task < 2 ^ 64 - 1 }
    ensures { IfOk result (λ heard.
        HasMet nodes.old.items nodes.new.items client.old client.new message.now heard
        message.now.body) }
{
    let Body::Ask(ask) = &message.body else {
        unreachable!()
    };
    let reply = nodes[usize::from(message.node)].handle(ask)?;
    client.hear(&Message {
        client: message.client,
        node: message.node,
        tag: message.tag,
        body: Body::Answer(reply),
    })
}
