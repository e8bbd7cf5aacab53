//! What the operations of a batch ask of each node.
ghost use Rattle.std.specs.Prelude.{◌≡◌, ◌<◌, ◌≤◌, map, length, replicate, [], Some, All, IfOk, OnOk};
ghost use Rattle.protocol.specs.Seen.{SeenTask};
ghost use Rattle.protocol.specs.Messages.{IsAsk};
ghost use Rattle.protocol.specs.Instance.{setting};
ghost use Rattle.operation_core.specs.Clients.{ClientView};
ghost use Rattle.client_core.specs.Clients.{mail_of};
ghost use Rattle.batch_clients.specs.Batches.Stand.{Asks as AsksOne};
ghost use Rattle.batch_clients.specs.Parts.{AskMore, IsDealt};

use crate::batch::Asks;
use lists::NoMemory;
use std::alloc::Global;
use std::mem::replace;
use wire_forms::{Body, Mail, Message, Reply};

/// Nothing is asked of any of so many nodes.
pub(crate) fn no_asks(alloc: Global, nodes: u32) -> Result<Asks, NoMemory>
    ensures { IfOk result (λ asks. map (λ a. a.items) asks.items ≡ replicate nodes []) }
{
    let mut asks = Vec::with_capacity(alloc, nodes as usize)?;
    for _node in 0..nodes {
        asks.push(Vec::new(alloc))?;
    }
    Ok(asks)
}

/// Moves the asks of a phase to those of their nodes.
pub(crate) fn deal(asks: &mut Asks, mail: Mail) -> Result<(), NoMemory>
    requires count { (client : ClientView) × (t : SeenTask) × (mail ≡ mail_of client t)
        × (length asks.old.items ≡ client.config.n) }
    ensures { OnOk result ((client : ClientView) (t : SeenTask) → mail ≡ mail_of client t
        → length asks.old.items ≡ client.config.n → AskMore (setting client.config) (AsksOne t)
        (map (λ a. a.items) asks.old.items) (map (λ a. a.items) asks.new.items)) }
{
    for message in mail.into_vec() {
        deal_one(asks, message)?;
    }
    Ok(())
}

/// Moves the ask of a message to those of its node.
fn deal_one(asks: &mut Asks, mut message: Message) -> Result<(), NoMemory>
    requires asks { IsAsk message.body }
    requires there { message.node < length asks.old.items }
    ensures { OnOk result (IsDealt message (map (λ a. a.items) asks.old.items)
        (map (λ a. a.items) asks.new.items)) }
{
    // A message isn't taken apart, so something else is left in it.
    let body = replace(&mut message.body, Body::Answer(Reply::Nothing));
    let Body::Ask(ask) = body else { unreachable!() };
    asks[usize::from(message.node)].push(ask)?;
    Ok(())
}
