//! What lines make of the world.

ghost use Rattle.std.specs.Prelude.{false, ◌≡◌, ◌≢◌, ◌<◌, ◌≤◌, IfOk, OnOk, OnErr, IsErrOf, slice_get};
ghost use Rattle.std.specs.declared.option.Option.TheVariants.{None, Some};
ghost use Rattle.wire_forms.specs.declared.op.Op.TheVariants.{Write as WriteOp};
ghost use Rattle.protocol.specs.Messages.{Message as Messages};
ghost use Rattle.protocol.specs.Lines.{fault, FitsLine};
ghost use Rattle.run_words.specs.declared.line.StepFault.{StepFault as Faults};
ghost use Rattle.run_words.specs.declared.line.Line.TheVariants as lines;
ghost use Rattle.world_state.specs.Worlds.{setting_in, world_in};
ghost use Rattle.world_steps.specs.Steps.{IsPlayedBy, IsWorking, IsAskOf};

use crate::fault::first_fault;
use crate::refusal::StepRefusal;
use cross_sum::Bytes;
use lists::{Copied, NoMemory};
use run_words::Line;
use wire_forms::{Body, Mail, Message, Op, Rule};
use world_state::State;

/// Does the line's events at one place, or refuses it and changes nothing.
pub(crate) fn play(state: &mut State, place: u64, line: &Line) -> Result<(), StepRefusal>
    requires later { state.now.seen.place < place }
    requires fits { FitsLine (setting_in state.now) line.now }
    ensures allowed { OnOk result
        (fault (setting_in state.old) (world_in state.old) line.now ≡ None) }
    ensures ok { OnOk result (IsPlayedBy state.old state.new place line.now) }
    ensures fault { (f : Faults) → IsErrOf result (StepRefusal.Fault f)
        → fault (setting_in state.old) (world_in state.old) line.now ≡ Some f }
    ensures unchanged { OnErr result (state.new ≡ state.old) }
{
    if let Some(fault) = first_fault(state, line) {
        return Err(StepRefusal::Fault(fault));
    }
    events(state, place, line)?;
    Ok(())
}

/// Does the events of a line that has no fault.
fn events(state: &mut State, place: u64, line: &Line) -> Result<(), NoMemory>
    requires later { state.now.seen.place < place }
    requires fits { FitsLine (setting_in state.now) line.now }
    requires allowed { fault (setting_in state.now) (world_in state.now) line.now ≡ None }
    ensures ok { OnOk result (IsPlayedBy state.old state.new place line.now) }
    ensures err { OnErr result (state.new ≡ state.old) }
{
    match line {
        Line::Write {
            client,
            block,
            value,
        } => state.start(place, *client, write_of(*block, value)?),
        Line::Read { client, block } => state.start(place, *client, Op::Read { block: *block }),
        Line::Resend { client } => state.resend(place, *client),
        Line::Call { client, node } => call(state, place, *client, *node),
        Line::Give { node, message } => give_pooled(state, place, *node, *message),
        Line::Hear { client, message } => state.hear(place, *client, *message as usize),
        Line::Lost { .. } => {
            state.pass(place);
            Ok(())
        }
        Line::CrashNode { node } => {
            state.crash_node(place, *node);
            Ok(())
        }
        Line::CrashClient { client } => {
            state.crash_client(place, *client);
            Ok(())
        }
        Line::Lie { message } => lie(state, place, message.get()),
        Line::Tell { message } => {
            let message = message.get().copy()?;
            state.hear_sent(place, message.client, message)
        }
        Line::Poke { message } => poke(state, place, message.get()),
        Line::False { client, node, rule } => tell_false(state, place, *client, *node, *rule),
        Line::Sound {
            client,
            node,
            block,
            time,
            value,
        } => {
            let message = state.sound_ask(*client, *node, *block, *time, value)?;
            poke(state, place, &message)
        }
        Line::Mix {
            client,
            node,
            block,
            time,
            value,
            other,
        } => {
            let message = state.mix_ask(*client, *node, *block, *time, value, other)?;
            poke(state, place, &message)
        }
        Line::Prune { node, block } => state.prune(place, *node, *block),
        Line::Back { client } => {
            state.come_back(place, *client);
            Ok(())
        }
        Line::Restart { node } => state.restart(place, *node),
    }
}

/// The node handles the client's outstanding message, and the client hears the answer.
fn call(state: &mut State, place: u64, client: u32, node: u8) -> Result<(), NoMemory>
    requires later { state.now.seen.place < place }
    requires client { client ≤ 1000 }
    requires node { node < state.now.config.n }
    requires working { IsWorking state.now client }
    requires awake { (world_in state.now).client_crashed client ≡ false }
    ensures ok { OnOk result (IsPlayedBy state.old state.new place (lines.Call client node)) }
    ensures err { OnErr result (state.new ≡ state.old) }
{
    let Some(message) = state.outstanding(client, node)? else {
        return Ok(());
    };
    let Body::Ask(ask) = &message.body else {
        return Ok(());
    };
    let (answer, added) = state.answer(node, &message, ask)?;
    state.hear_given(place, client, node, ask, added, answer)
}

/// The node is given an ask of the pool.
fn give_pooled(state: &mut State, place: u64, node: u8, number: u64) -> Result<(), NoMemory>
    requires later { state.now.seen.place < place }
    requires node { node < state.now.config.n }
    requires asked { (m : Messages) × (slice_get state.now.seen.pool number ≡ Some m)
        × IsAskOf node m }
    ensures ok { OnOk result (IsPlayedBy state.old state.new place (lines.Give node number)) }
    ensures err { OnErr result (state.new ≡ state.old) }
{
    let Some(message) = state.message(number) else {
        return Ok(());
    };
    let message = message.copy()?;
    let Body::Ask(ask) = &message.body else {
        return Ok(());
    };
    let (answer, added) = state.answer(node, &message, ask)?;
    let others = Mail::new(state.allocator());
    state.give(place, node, ask, added, answer, others)
}

/// A message is sent.
fn lie(state: &mut State, place: u64, message: &Message) -> Result<(), NoMemory>
    requires later { state.now.seen.place < place }
    ensures ok { OnOk result (IsPlayedBy state.old state.new place (lines.Lie message.now)) }
    ensures err { OnErr result (state.new ≡ state.old) }
{
    let mut mail = Mail::new(state.allocator());
    mail.push(message.copy()?)?;
    state.send(place, mail)
}

/// An ask is sent, and its node is given it.
fn poke(state: &mut State, place: u64, message: &Message) -> Result<(), NoMemory>
    requires later { state.now.seen.place < place }
    requires node { message.now.node < state.now.config.n }
    requires asked { IsAskOf message.now.node message.now }
    ensures ok { OnOk result (IsPlayedBy state.old state.new place (lines.Poke message.now)) }
    ensures err { OnErr result (state.new ≡ state.old) }
{
    let Body::Ask(ask) = &message.body else {
        return Ok(());
    };
    let node = message.node;
    let poked = message.copy()?;
    let (answer, added) = state.answer(node, message, ask)?;
    let mut others = Mail::new(state.allocator());
    others.push(answer)?;
    state.give(place, node, ask, added, poked, others)
}

/// A lying node answers what the client asks by a rule, and the client hears it.
fn tell_false(
    state: &mut State,
    place: u64,
    client: u32,
    node: u8,
    rule: Rule,
) -> Result<(), NoMemory>
    requires later { state.now.seen.place < place }
    requires client { client ≤ 1000 }
    requires node { node < state.now.config.n }
    requires working { IsWorking state.now client }
    requires awake { (world_in state.now).client_crashed client ≡ false }
    requires rule { rule ≢ Rule.Silent }
    ensures ok { OnOk result
        (IsPlayedBy state.old state.new place (lines.False client node rule)) }
    ensures err { OnErr result (state.new ≡ state.old) }
{
    let Some(message) = state.false_answer(client, node, rule)? else {
        return Ok(());
    };
    state.hear_sent(place, client, message)
}

/// The operation that writes a value to a block.
fn write_of(block: u32, value: &Bytes) -> Result<Op, NoMemory>
    ensures { IfOk result (λ op. op ≡ WriteOp block value.now) }
{
    Ok(Op::Write {
        block,
        value: value.copy()?,
    })
}
