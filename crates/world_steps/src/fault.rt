//! Why a line is refused.

ghost use Rattle.std.specs.Prelude.{◌≡◌, not};
ghost use Rattle.protocol.specs.Lines.{fault, meets, some_of, is_actor, is_liar, has_crashed, is_idle, is_ask_to, is_answer_to};
ghost use Rattle.world_state.specs.Worlds.{setting_in, world_in};
ghost use Rattle.world_steps.specs.Actors.{actor_of, listed};
ghost use Rattle.world_steps.specs.Faults.{possible_faults};

use crate::actors::{Actor, Actors, roles_in};
use run_words::{Line, StepFault};
use wire_forms::{Body, Message};
use world_state::State;

/// The faults, in the order in which they are looked for.
const FAULTS: [StepFault; 12] = [
    StepFault::NoSuchActor,
    StepFault::NoSuchMessage,
    StepFault::WrongReceiver,
    StepFault::Busy,
    StepFault::Crashed,
    StepFault::NotALiar,
    StepFault::Idle,
    StepFault::IsALiar,
    StepFault::NotQuiet,
    StepFault::NoRead,
    StepFault::Worn,
    StepFault::NotCrashed,
];

/// Those that a call can meet.
const CALL_FAULTS: [StepFault; 4] = [
    StepFault::NoSuchActor,
    StepFault::Crashed,
    StepFault::Idle,
    StepFault::IsALiar,
];

/// Those that the start of an operation can meet.
const START_FAULTS: [StepFault; 5] = [
    StepFault::NoSuchActor,
    StepFault::Busy,
    StepFault::Crashed,
    StepFault::IsALiar,
    StepFault::Worn,
];

/// How many operations a life has room for; a client has room for one life more.
const LAST: u32 = u32::MAX;

/// Why the line is refused: the first fault that it meets.
pub(crate) fn first_fault(state: &State, line: &Line) -> Option<StepFault>
    ensures { result ≡ fault (setting_in state.now) (world_in state.now) line.now }
{
    possible_faults(line)
        .iter()
        .find(|fault| meets(state, line, **fault))
        .copied()
}

/// Whether the line meets the fault.
fn meets(state: &State, line: &Line, fault: StepFault) -> bool
    ensures { result ≡ meets (setting_in state.now) (world_in state.now) line.now fault }
{
    match fault {
        StepFault::NoSuchActor => {
            let roles = roles_in(line);
            some_missing(state, roles.takes_part) || some_missing(state, roles.named)
        }
        StepFault::NoSuchMessage => lacks_message(state, line),
        StepFault::WrongReceiver => has_wrong_receiver(state, line),
        StepFault::Busy => is_busy(state, line),
        StepFault::Crashed => some_crashed(state, roles_in(line).up),
        StepFault::NotALiar => some_honest(state, roles_in(line).lies),
        StepFault::Idle => asks_nothing(state, line),
        StepFault::IsALiar => some_lying(state, roles_in(line).takes_part),
        StepFault::NotQuiet => meets_busy_block(state, line),
        StepFault::NoRead => lacks_read(state, line),
        StepFault::Worn => is_worn(state, line),
        StepFault::NotCrashed => has_not_crashed(state, line),
    }
}

/// Whether one of them isn't there.
fn some_missing(state: &State, actors: Actors) -> bool
    ensures { result ≡ some_of (λ a. not (is_actor (setting_in state.now) (world_in state.now) a))
        (listed actors) }
{
    match actors {
        Actors::Nobody => false,
        Actors::One(a) => !is_actor(state, a),
        Actors::Two(a, b) => !is_actor(state, a) || !is_actor(state, b),
    }
}

/// Whether one of them isn't declared lying.
fn some_honest(state: &State, actors: Actors) -> bool
    ensures { result ≡ some_of (λ a. not (is_liar (setting_in state.now) (world_in state.now) a))
        (listed actors) }
{
    match actors {
        Actors::Nobody => false,
        Actors::One(a) => !is_liar(state, a),
        Actors::Two(a, b) => !is_liar(state, a) || !is_liar(state, b),
    }
}

/// Whether one of them is declared lying.
fn some_lying(state: &State, actors: Actors) -> bool
    ensures { result ≡ some_of (is_liar (setting_in state.now) (world_in state.now))
        (listed actors) }
{
    match actors {
        Actors::Nobody => false,
        Actors::One(a) => is_liar(state, a),
        Actors::Two(a, b) => is_liar(state, a) || is_liar(state, b),
    }
}

/// Whether one of them has crashed.
fn some_crashed(state: &State, actors: Actors) -> bool
    ensures { result ≡ some_of (has_crashed (setting_in state.now) (world_in state.now))
        (listed actors) }
{
    match actors {
        Actors::Nobody => false,
        Actors::One(a) => has_crashed(state, a),
        Actors::Two(a, b) => has_crashed(state, a) || has_crashed(state, b),
    }
}

/// Whether there is such a node or client.
fn is_actor(state: &State, actor: Actor) -> bool
    ensures { result ≡ is_actor (setting_in state.now) (world_in state.now) (actor_of actor) }
{
    match actor {
        Actor::Node(node) => u32::from(node) < state.config().n(),
        Actor::Client(client) => 1 <= client && client <= 1000,
    }
}

/// Whether it is declared lying.
fn is_liar(state: &State, actor: Actor) -> bool
    ensures { result ≡ is_liar (setting_in state.now) (world_in state.now) (actor_of actor) }
{
    match actor {
        Actor::Node(node) => state.is_lying_node(node),
        Actor::Client(client) => state.is_lying_client(client),
    }
}

/// Whether it has crashed.
fn has_crashed(state: &State, actor: Actor) -> bool
    ensures { result ≡ has_crashed (setting_in state.now) (world_in state.now) (actor_of actor) }
{
    match actor {
        Actor::Node(node) => state.is_crashed_node(node),
        Actor::Client(client) => state.is_crashed_client(client),
    }
}

/// Whether the line names a message that isn't in the pool.
fn lacks_message(state: &State, line: &Line) -> bool
    ensures { result ≡ meets (setting_in state.now)
        (world_in state.now) line.now StepFault.NoSuchMessage }
{
    match line {
        Line::Give { message, .. } | Line::Hear { message, .. } => {
            state.pool().len() as u64 <= *message
        }
        _ => false,
    }
}

/// Whether the line's message isn't one for its node or client.
fn has_wrong_receiver(state: &State, line: &Line) -> bool
    ensures { result ≡ meets (setting_in state.now)
        (world_in state.now) line.now StepFault.WrongReceiver }
{
    match line {
        Line::Give { node, message } => match state.message(*message) {
            Some(message) => !is_ask_to(*node, message),
            None => false,
        },
        Line::Hear { client, message } => match state.message(*message) {
            Some(message) => !is_answer_to(*client, message),
            None => false,
        },
        Line::Tell { message } => !is_answer_to(message.get().client, message.get()),
        Line::Poke { message } => !is_ask_to(message.get().node, message.get()),
        _ => false,
    }
}

/// Whether the line starts an operation of a client that has one under way.
fn is_busy(state: &State, line: &Line) -> bool
    ensures { result ≡ meets (setting_in state.now) (world_in state.now) line.now StepFault.Busy }
{
    match line {
        Line::Write { client, .. } | Line::Read { client, .. } => state.has_task(*client),
        _ => false,
    }
}

/// Whether the line needs what a client asks for, and the client asks for nothing.
fn asks_nothing(state: &State, line: &Line) -> bool
    ensures { result ≡ meets (setting_in state.now) (world_in state.now) line.now StepFault.Idle }
{
    match line {
        Line::Resend { client } | Line::Call { client, .. } | Line::False { client, .. } => {
            !is_liar(state, Actor::Client(*client)) && !state.has_task(*client)
        }
        _ => false,
    }
}

/// Whether an operation on the block that the line prunes is under way.
fn meets_busy_block(state: &State, line: &Line) -> bool
    ensures { result ≡ meets (setting_in state.now)
        (world_in state.now) line.now StepFault.NotQuiet }
{
    match line {
        Line::Prune { block, .. } => state.is_busy_at(*block),
        _ => false,
    }
}

/// Whether no read of the block that the line prunes has completed.
fn lacks_read(state: &State, line: &Line) -> bool
    ensures { result ≡ meets (setting_in state.now)
        (world_in state.now) line.now StepFault.NoRead }
{
    match line {
        Line::Prune { block, .. } => state.greatest_given(*block).is_none(),
        _ => false,
    }
}

/// Whether the client has no number left for one more operation, or for one more life.
fn is_worn(state: &State, line: &Line) -> bool
    ensures { result ≡ meets (setting_in state.now) (world_in state.now) line.now StepFault.Worn }
{
    match line {
        Line::Write { client, .. } | Line::Read { client, .. } => LAST <= state.started(*client),
        Line::Back { client } => LAST <= state.life(*client),
        _ => false,
    }
}

/// Whether the line brings back a client that hasn't crashed.
fn has_not_crashed(state: &State, line: &Line) -> bool
    ensures { result ≡ meets (setting_in state.now)
        (world_in state.now) line.now StepFault.NotCrashed }
{
    match line {
        Line::Back { client } => !has_crashed(state, Actor::Client(*client)),
        _ => false,
    }
}

/// The faults that are looked for in a line. Calls and starts, which most lines are, can meet only some of them.
fn possible_faults(line: &Line) -> &'static [StepFault]
    ensures { result.now ≡ possible_faults line.now }
{
    match line {
        Line::Call { .. } => &CALL_FAULTS,
        Line::Write { .. } | Line::Read { .. } => &START_FAULTS,
        _ => &FAULTS,
    }
}

/// Whether the message is an ask to the node.
fn is_ask_to(node: u8, message: &Message) -> bool
    ensures { result ≡ is_ask_to node message.now.body message.now }
{
    match &message.body {
        Body::Ask(_) => message.node == node,
        Body::Answer(_) => false,
    }
}

/// Whether the message is an answer to the client.
fn is_answer_to(client: u32, message: &Message) -> bool
    ensures { result ≡ is_answer_to client message.now.body message.now }
{
    match &message.body {
        Body::Ask(_) => false,
        Body::Answer(_) => message.client == client,
    }
}
