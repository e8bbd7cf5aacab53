//! Who a line speaks of.

ghost use Rattle.std.specs.Prelude.{◌≡◌};
ghost use Rattle.run_words.specs.declared.line.Line.TheVariants.{Back};
ghost use Rattle.protocol.specs.Lines.{honest, lie_of, roles, sender};
ghost use Rattle.world_steps.specs.Actors.{actor_of, listed, roles_of};

use run_words::Line;
use wire_forms::{Body, Message};

/// A node or a client.
#[derive(Clone, Copy)]
pub(crate) enum Actor {
    Node(u8),
    Client(u32),
}

/// Whom a line speaks of.
#[derive(Clone, Copy)]
pub(crate) enum Actors {
    Nobody,
    One(Actor),
    Two(Actor, Actor),
}

/// The parts that nodes and clients have in a line.
#[derive(Clone, Copy)]
pub(crate) struct Roles {
    /// Who takes part in it, its lies aside.
    pub(crate) takes_part: Actors,
    /// Who of them must not have crashed.
    pub(crate) up: Actors,
    /// Who tells its lie.
    pub(crate) lies: Actors,
    /// The node and the client of the lie's message.
    pub(crate) named: Actors,
}

/// The parts in each line.
pub(crate) fn roles_in(line: &Line) -> Roles
    ensures takes_part { listed result.takes_part ≡ (roles line.now).takes_part }
    ensures up { listed result.up ≡ (roles line.now).up }
    ensures lies { listed result.lies ≡ (roles line.now).lies }
    ensures named { listed result.named ≡ (roles line.now).named }
{
    match line {
        Line::Write { client, .. }
        | Line::Read { client, .. }
        | Line::Resend { client }
        | Line::Hear { client, .. }
        | Line::CrashClient { client } => honest(one_client(*client)),
        Line::Give { node, .. }
        | Line::CrashNode { node }
        | Line::Prune { node, .. }
        | Line::Restart { node } => honest(one_node(*node)),
        Line::Call { client, node } => {
            honest(Actors::Two(Actor::Client(*client), Actor::Node(*node)))
        }
        Line::Lost { .. } => honest(Actors::Nobody),
        Line::Back { client } => coming_back(*client),
        Line::Lie { message } => lie_in(message.get(), Actors::Nobody),
        Line::Tell { message } => lie_in(message.get(), one_client(message.get().client)),
        Line::Poke { message } => lie_in(message.get(), one_node(message.get().node)),
        Line::False { client, node, .. } => {
            lie_of(Actor::Node(*node), *node, *client, one_client(*client))
        }
        Line::Sound { client, node, .. } | Line::Mix { client, node, .. } => {
            lie_of(Actor::Client(*client), *node, *client, one_node(*node))
        }
    }
}

/// These take part, and nobody lies.
fn honest(takes_part: Actors) -> Roles
    ensures { roles_of result ≡ honest (listed takes_part) }
{
    Roles {
        takes_part,
        up: takes_part,
        lies: Actors::Nobody,
        named: Actors::Nobody,
    }
}

/// The client takes part, though it has crashed.
fn coming_back(client: u32) -> Roles
    ensures { roles_of result ≡ roles (Back client) }
{
    Roles {
        takes_part: one_client(client),
        up: Actors::Nobody,
        lies: Actors::Nobody,
        named: Actors::Nobody,
    }
}

/// These take part, and the liar's lie goes between this node and this client.
fn lie_of(liar: Actor, node: u8, client: u32, takes_part: Actors) -> Roles
    ensures { roles_of result ≡ lie_of (actor_of liar) node client (listed takes_part) }
{
    Roles {
        takes_part,
        up: takes_part,
        lies: Actors::One(liar),
        named: Actors::Two(Actor::Node(node), Actor::Client(client)),
    }
}

/// These take part, and the message is a lie of its sender.
fn lie_in(message: &Message, takes_part: Actors) -> Roles
    ensures { roles_of result
        ≡ lie_of (sender message.now.body message.now) message.now.node message.now.client
        (listed takes_part) }
{
    lie_of(sender(message), message.node, message.client, takes_part)
}

fn one_node(node: u8) -> Actors
    ensures { result ≡ Actors.One (Actor.Node node) }
{
    Actors::One(Actor::Node(node))
}

fn one_client(client: u32) -> Actors
    ensures { result ≡ Actors.One (Actor.Client client) }
{
    Actors::One(Actor::Client(client))
}

/// Who sends the message.
fn sender(message: &Message) -> Actor
    ensures { actor_of result ≡ sender message.now.body message.now }
{
    match &message.body {
        Body::Ask(_) => Actor::Client(message.client),
        Body::Answer(_) => Actor::Node(message.node),
    }
}
