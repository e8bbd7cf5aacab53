//! The text of an event line, written from its front to its end.
#![tactic(auto, using(message_texts::proofs::lemmas::Printed::joining))]

ghost use Rattle.std.specs.Prelude.{◌≡◌, ◌++◌, ◌∷◌, codes, decimal, OnOk};
ghost use Rattle.text_lines.specs.Fields.{value_text};
ghost use Rattle.text_lines.specs.Lines.{line_of_fields};
ghost use Rattle.message_texts.specs.Texts.{HasLimits, text_of};
ghost use Rattle.event_lines.specs.Lines.{HasText, event_text, line_fields, rule_text};

use crate::line::ReplayLine;
use cross_sum::Bytes;
use lists::NoMemory;
use message_texts::print;
use run_words::Line;
use std::alloc::Global;
use text_lines::Text;
use wire_forms::{Message, Rule};

/// Adds the text of an event line, its newline aside.
///
/// The strings of the line's message, if it has one, are within the limits of messages' texts. After
/// `NoMemory` the text may end within the line.
pub fn add_event(alloc: Global, text: &mut Text, line: &ReplayLine) -> Result<(), NoMemory>
    requires { HasText line.now }
    ensures { OnOk result (text.new ≡ text.old ++ event_text line.now) }
{
    match line {
        ReplayLine::Plain(line) => add_line(alloc, text, line),
        ReplayLine::Put {
            client,
            offset,
            bytes,
        } => {
            add_two(text, b"put", u64::from(*client), *offset)?;
            add_value(text, bytes)
        }
        ReplayLine::Get {
            client,
            offset,
            length,
        } => {
            add_two(text, b"get", u64::from(*client), *offset)?;
            add_number(text, *length)
        }
        ReplayLine::Next { client } => add_one(text, b"next", u64::from(*client)),
    }
}

fn add_line(alloc: Global, text: &mut Text, line: &Line) -> Result<(), NoMemory>
    requires { HasText (ReplayLine.Plain line.now) }
    ensures { OnOk result (text.new ≡ text.old ++ line_of_fields (line_fields line.now)) }
{
    match line {
        Line::Write {
            client,
            block,
            value,
        } => add_write(text, *client, *block, value),
        Line::Read { client, block } => add_two(
            text,
            b"read",
            u64::from(*client),
            u64::from(*block),
        ),
        Line::Resend { client } => add_one(text, b"resend", u64::from(*client)),
        Line::Call { client, node } => add_two(text, b"call", u64::from(*client), u64::from(*node)),
        Line::Give { node, message } => add_two(text, b"give", u64::from(*node), *message),
        Line::Hear { client, message } => add_two(text, b"hear", u64::from(*client), *message),
        Line::Lost { client, node } => add_two(text, b"lost", u64::from(*client), u64::from(*node)),
        Line::CrashNode { node } => add_one(text, b"crash node", u64::from(*node)),
        Line::CrashClient { client } => add_one(text, b"crash client", u64::from(*client)),
        Line::Lie { message } => add_message(alloc, text, b"lie", message.get()),
        Line::Tell { message } => add_message(alloc, text, b"tell", message.get()),
        Line::Poke { message } => add_message(alloc, text, b"poke", message.get()),
        Line::False { client, node, rule } => add_false(text, *client, *node, *rule),
        Line::Sound {
            client,
            node,
            block,
            time,
            value,
        } => add_sound(text, b"sound", *client, *node, *block, *time, value),
        Line::Mix {
            client,
            node,
            block,
            time,
            value,
            other,
        } => {
            add_sound(text, b"mix", *client, *node, *block, *time, value)?;
            add_value(text, other)
        }
        Line::Prune { node, block } => add_two(text, b"prune", u64::from(*node), u64::from(*block)),
        Line::Back { client } => add_one(text, b"back client", u64::from(*client)),
        Line::Restart { node } => add_one(text, b"restart node", u64::from(*node)),
    }
}

fn add_write(text: &mut Text, client: u32, block: u32, value: &Bytes) -> Result<(), NoMemory>
    ensures { OnOk result (text.new
        ≡ text.old ++ (codes "write "
        ++ (decimal client ++ 32 ∷ (decimal block ++ 32 ∷ value_text value.now)))) }
{
    add_two(text, b"write", u64::from(client), u64::from(block))?;
    add_value(text, value)
}

fn add_false(text: &mut Text, client: u32, node: u8, rule: Rule) -> Result<(), NoMemory>
    ensures { OnOk result (text.new
        ≡ text.old ++ (codes "false "
        ++ (decimal client ++ 32 ∷ (decimal node ++ 32 ∷ rule_text rule)))) }
{
    add_two(text, b"false", u64::from(client), u64::from(node))?;
    text.add_space()?;
    text.add(word_of(rule))
}

fn word_of(rule: Rule) -> &'static [u8]
    ensures { result.now ≡ rule_text rule }
{
    match rule {
        Rule::Silent => b"silent",
        Rule::Old => b"old",
        Rule::Top => b"top",
        Rule::Bad => b"bad",
    }
}

/// Adds a lying client's write of one value, or all but the second value.
fn add_sound(
    text: &mut Text,
    word: &[u8],
    client: u32,
    node: u8,
    block: u32,
    time: u64,
    value: &Bytes,
) -> Result<(), NoMemory>
    ensures { OnOk result (text.new
        ≡ text.old ++ (word.now ++ 32
        ∷ (decimal client ++ 32
        ∷ (decimal node ++ 32
        ∷ (decimal block ++ 32 ∷ (decimal time ++ 32 ∷ value_text value.now)))))) }
{
    add_two(text, word, u64::from(client), u64::from(node))?;
    add_number(text, u64::from(block))?;
    add_number(text, time)?;
    add_value(text, value)
}

fn add_one(text: &mut Text, word: &[u8], number: u64) -> Result<(), NoMemory>
    ensures { OnOk result (text.new ≡ text.old ++ (word.now ++ 32 ∷ decimal number)) }
{
    text.add(word)?;
    add_number(text, number)
}

fn add_two(text: &mut Text, word: &[u8], first: u64, second: u64) -> Result<(), NoMemory>
    ensures { OnOk result (text.new
        ≡ text.old ++ (word.now ++ 32 ∷ (decimal first ++ 32 ∷ decimal second))) }
{
    add_one(text, word, first)?;
    add_number(text, second)
}

fn add_number(text: &mut Text, number: u64) -> Result<(), NoMemory>
    ensures { OnOk result (text.new ≡ text.old ++ 32 ∷ decimal number) }
{
    text.add_space()?;
    text.add_number(number)
}

fn add_value(text: &mut Text, value: &Bytes) -> Result<(), NoMemory>
    ensures { OnOk result (text.new ≡ text.old ++ 32 ∷ value_text value.now) }
{
    text.add_space()?;
    text.add_value(value.as_slice())
}

fn add_message(
    alloc: Global,
    text: &mut Text,
    word: &[u8],
    message: &Message,
) -> Result<(), NoMemory>
    requires { HasLimits message.now.body }
    ensures { OnOk result (text.new ≡ text.old ++ (word.now ++ 32 ∷ text_of message.now)) }
{
    let message = print(alloc, message)?;
    text.add(word)?;
    text.add_space()?;
    text.add(message.as_slice())
}
