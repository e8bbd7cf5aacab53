//! The text of a message, written from its front to its end.
#![tactic(auto, using(crate::proofs::lemmas::Printed::joining), unfolding(crate::specs::Texts::spaced))]

ghost use Rattle.std.specs.Prelude.{◌≡◌, ◌++◌, ◌∷◌, [], decimal, IfOk, OnOk};
ghost use Rattle.message_texts.specs.Texts.{text_of, spaced, stamp_text, version_fields, bound_fields, request_fields, reply_fields, reason_text, sum_text, ask_fields, body_fields, word_of, HasLimits};

use cross_sum::{Bytes, CrossSum};
use lists::NoMemory;
use stamp_order::{Bound, Stamp};
use std::alloc::Global;
use text_lines::Text;
use wire_forms::{Ask, Body, Message, Reason, Reply, Request, Version};

/// The text of a message. Its cross checksum has at most 32 digests, its fragment at most 16,384 bytes.
pub fn print(alloc: Global, message: &Message) -> Result<Bytes, NoMemory>
    requires { HasLimits message.now.body }
    ensures { IfOk result (λ text. text ≡ text_of message.now) }
{
    let mut text = Text::new(alloc);
    text.add(word(&message.body))?;
    add_number(&mut text, u64::from(message.client))?;
    add_number(&mut text, u64::from(message.node))?;
    add_number(&mut text, message.tag.op)?;
    add_number(&mut text, message.tag.phase)?;
    add_body(&mut text, &message.body)?;
    text.into_bytes()
}

fn word(body: &Body) -> &'static [u8]
    ensures { result.now ≡ word_of body.now }
{
    match body {
        Body::Ask(_) => b"ask",
        Body::Answer(_) => b"answer",
    }
}

fn add_field(text: &mut Text, field: &[u8]) -> Result<(), NoMemory>
    ensures { OnOk result (text.new ≡ text.old ++ spaced (field.now ∷ [])) }
{
    text.add_space()?;
    text.add(field)
}

fn add_number(text: &mut Text, number: u64) -> Result<(), NoMemory>
    ensures { OnOk result (text.new ≡ text.old ++ spaced (decimal number ∷ [])) }
{
    text.add_space()?;
    text.add_number(number)
}

fn add_stamp(text: &mut Text, stamp: &Stamp) -> Result<(), NoMemory>
    ensures { OnOk result (text.new ≡ text.old ++ spaced (stamp_text stamp.now ∷ [])) }
{
    add_number(text, stamp.time)?;
    text.add_byte(b'.')?;
    text.add_number(u64::from(stamp.client))?;
    text.add_byte(b'.')?;
    text.add_hex(stamp.verifier.as_slice())
}

fn add_version(text: &mut Text, version: &Version) -> Result<(), NoMemory>
    ensures { OnOk result (text.new ≡ text.old ++ spaced (version_fields version.now)) }
{
    add_stamp(text, &version.stamp)?;
    add_sum(text, &version.sum)?;
    text.add_space()?;
    text.add_value(version.fragment.as_slice())
}

fn add_sum(text: &mut Text, sum: &CrossSum) -> Result<(), NoMemory>
    ensures { OnOk result (text.new ≡ text.old ++ spaced (sum_text sum.now ∷ [])) }
{
    text.add(b" x")?;
    for i in 0..sum.len() {
        text.add_hex(sum.entry(i).as_slice())?;
    }
    Ok(())
}

fn add_bound(text: &mut Text, bound: &Bound) -> Result<(), NoMemory>
    ensures { OnOk result (text.new ≡ text.old ++ spaced (bound_fields bound.now)) }
{
    match bound {
        Bound::All => add_field(text, b"all"),
        Bound::AtMost(stamp) => {
            add_field(text, b"atmost")?;
            add_stamp(text, stamp)
        }
        Bound::Below(stamp) => {
            add_field(text, b"below")?;
            add_stamp(text, stamp)
        }
    }
}

fn add_request(text: &mut Text, request: &Request) -> Result<(), NoMemory>
    ensures { OnOk result (text.new ≡ text.old ++ spaced (request_fields request.now)) }
{
    match request {
        Request::Time => add_field(text, b"time"),
        Request::Read(bound) => {
            add_field(text, b"read")?;
            add_bound(text, bound)
        }
        Request::Write(version) => {
            add_field(text, b"write")?;
            add_version(text, version)
        }
    }
}

fn add_ask(text: &mut Text, ask: &Ask) -> Result<(), NoMemory>
    ensures { OnOk result (text.new ≡ text.old ++ spaced (ask_fields ask.now)) }
{
    add_number(text, u64::from(ask.block))?;
    add_request(text, &ask.request)
}

fn digit(reason: Reason) -> &'static [u8]
    ensures { result.now ≡ reason_text reason }
{
    match reason {
        Reason::BadBlock => b"1",
        Reason::BadLength => b"2",
        Reason::TimeZero => b"3",
        Reason::BadVerifier => b"4",
        Reason::BadDigest => b"5",
    }
}

fn add_reply(text: &mut Text, reply: &Reply) -> Result<(), NoMemory>
    ensures { OnOk result (text.new ≡ text.old ++ spaced (reply_fields reply.now)) }
{
    match reply {
        Reply::TimeIs(time) => {
            add_field(text, b"time")?;
            add_number(text, *time)
        }
        Reply::Found(version) => {
            add_field(text, b"found")?;
            add_version(text, version)
        }
        Reply::Nothing => add_field(text, b"nothing"),
        Reply::Ack => add_field(text, b"ack"),
        Reply::Refused(reason) => {
            add_field(text, b"refused")?;
            add_field(text, digit(*reason))
        }
    }
}

fn add_body(text: &mut Text, body: &Body) -> Result<(), NoMemory>
    ensures { OnOk result (text.new ≡ text.old ++ spaced (body_fields body.now)) }
{
    match body {
        Body::Ask(ask) => add_ask(text, ask),
        Body::Answer(reply) => add_reply(text, reply),
    }
}
