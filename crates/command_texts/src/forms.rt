//! What the types of a line's parts say of it.

ghost use Rattle.message_texts.specs.Texts.{HasLimits, HasShort, HasShortRequest, IsMessage, IsAsk, IsReply, IsBound, IsVersion, IsStamp, IsDigest};
ghost use Rattle.std.specs.Prelude.{◌≡◌, ◌<◌, ◌^◌, length, All};
ghost use Rattle.std.specs.List.{AllByRecursion};
ghost use Rattle.text_lines.specs.Fields.{IsBytes};
ghost use Rattle.event_lines.specs.Lines.{IsEventLine};
ghost use Rattle.event_lines.specs.declared.line.ReplayLine.TheVariants.{Plain};
ghost use Rattle.journal_records.specs.Told.{IsTold};

use cross_sum::{Bytes, Hash};
use quorum_rules::Config;
use run_words::Line;
use stamp_order::{Bound, Stamp};
use wire_forms::{Ask, Body, Message, Reply, Request, Version};

/// A line that tells what threads did is an event line.
pub fn form_line(config: &Config, line: &Line)
    requires { IsTold config.now line.now }
    ensures { IsEventLine config.now (Plain line.now) }
{
    let _valid = config.n();
    match line {
        Line::Write { value, .. } => form_value(value),
        Line::Give { message, .. } => form_long(*message),
        Line::Tell { message } | Line::Poke { message } => form_message(message.get()),
        _ => {}
    }
}

// A parameter's type says what its range is, which a field's does not.
fn form_long(_number: u64)
    ensures { _number < 2 ^ 64 }
{}

fn form_short(_number: u32)
    ensures { _number < 2 ^ 32 }
{}

fn form_node(_node: u8)
    ensures { _node < 2 ^ 8 }
{}

fn form_digest(digest: Hash)
    ensures { IsDigest digest }
{
    form_count(digest);
    form_bytes(digest.as_slice());
}

fn form_count(_digest: Hash)
    ensures { length _digest ≡ 32 }
{}

fn form_bytes(_bytes: &[u8])
    ensures { All (λ b. b < 256) _bytes.now }
{}

fn form_value(value: &Bytes)
    ensures { IsBytes value.now }
{
    let _bytes = value.as_slice();
}

fn form_message(message: &Message)
    requires { HasLimits message.now.body }
    ensures { IsMessage message.now }
{
    form_short(message.client);
    form_node(message.node);
    form_long(message.tag.op);
    form_long(message.tag.phase);
    match &message.body {
        Body::Ask(ask) => form_ask(ask),
        Body::Answer(reply) => form_reply(reply),
    }
}

fn form_ask(ask: &Ask)
    requires { HasShortRequest ask.now.request }
    ensures { IsAsk ask.now }
{
    form_short(ask.block);
    match &ask.request {
        Request::Time => {}
        Request::Read(bound) => form_bound(bound),
        Request::Write(version) => form_version(version),
    }
}

fn form_reply(reply: &Reply)
    requires { HasLimits (Body.Answer reply.now) }
    ensures { IsReply reply.now }
{
    match reply {
        Reply::TimeIs(time) => form_long(*time),
        Reply::Found(version) => form_version(version),
        Reply::Nothing | Reply::Ack | Reply::Refused(_) => {}
    }
}

fn form_bound(bound: &Bound)
    ensures { IsBound bound.now }
{
    match bound {
        Bound::All => {}
        Bound::AtMost(stamp) | Bound::Below(stamp) => form_stamp(stamp),
    }
}

fn form_stamp(stamp: &Stamp)
    ensures { IsStamp stamp.now }
{
    form_long(stamp.time);
    form_short(stamp.client);
    form_digest(stamp.verifier);
}

fn form_digests(digests: &[Hash])
    ensures { AllByRecursion IsDigest digests.now }
{
    for digest in digests {
        form_digest(*digest);
    }
}

fn form_version(version: &Version)
    requires { HasShort version.now }
    ensures { IsVersion version.now }
{
    form_stamp(&version.stamp);
    form_digests(version.sum.hashes());
    let _bytes = version.fragment.as_slice();
}
