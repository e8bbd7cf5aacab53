//! The message that a text spells.
ghost use Rattle.std.specs.Prelude.{◌≡◌, ◌≢◌, ℕ, ◌*◌, ◌%◌, List, [], ◌∷◌, length, codes, IfOk, IfErr, All, MatchOption};
ghost use Rattle.std.specs.List.{list_any};
ghost use Rattle.std.specs.Char.{is_ascii_uppercase};
ghost use Rattle.hex.specs.Hex.{encode_lower};
ghost use Rattle.cross_sum.specs.Digest.{flat};
ghost use Rattle.text_lines.specs.Fields.{value_text};
ghost use Rattle.text_lines.specs.Lines.{texts};
ghost use Rattle.message_texts.specs.Refusals.{IsRefusal};
ghost use Rattle.message_texts.specs.Texts.{Spells, IsDigest, IsStamp, IsSum, IsFragment, IsVersion, IsBound, IsRequest, IsAsk, IsReason, IsReply, IsBody, IsMessage, stamp_text, sum_text, version_fields, bound_fields, request_fields, ask_fields, reason_text, reply_fields, word_of, body_fields, message_fields, text_of};

use crate::piece::longest;
use crate::refusal::TextRefusal;
use crate::word::MessageWord;
use cross_sum::{Bytes, CrossSum, Hash};
use hex::FromHex;
use lists::NoMemory;
use stamp_order::{Bound, Stamp};
use std::alloc::Global;
use text_lines::{cut, fields, number, number_u8, number_u32, value};
use wire_forms::{Ask, Body, Message, Reason, Reply, Request, Tag, Version};

/// The bytes of 64 hexadecimal digits in lower case.
fn hash(digits: &[u8]) -> Option<Hash>
    ensures { Spells IsDigest encode_lower digits.now result }
{
    if has_capital(digits) {
        return None;
    }
    <[u8; 32] as FromHex>::from_hex(digits).ok()
}

fn has_capital(digits: &[u8]) -> bool
    ensures { result ≡ list_any is_ascii_uppercase digits.now }
{
    digits.iter().any(|digit| digit.is_ascii_uppercase())
}

/// A stamp from `T.C.H`.
fn stamp(field: &[u8]) -> Option<Stamp>
    ensures { Spells IsStamp stamp_text field.now result }
{
    let (time, rest) = cut(field, b'.')?;
    let (client, digits) = cut(rest, b'.')?;
    Some(Stamp {
        time: number(time)?,
        client: number_u32(client)?,
        verifier: hash(digits)?,
    })
}

/// A cross checksum from the value of its digests.
fn sum(alloc: Global, field: &[u8]) -> Result<Option<CrossSum>, NoMemory>
    ensures { IfOk result (Spells IsSum sum_text field.now) }
{
    let Some(bytes) = value(alloc, field)? else {
        return Ok(None);
    };
    if bytes.len() % 32 != 0 || bytes.len() > 1024 {
        return Ok(None);
    }
    Ok(Some(digests(alloc, bytes.as_slice())?))
}

/// The digests that stand one after the other.
fn digests(alloc: Global, bytes: &[u8]) -> Result<CrossSum, NoMemory>
    requires { length bytes.now % 32 ≡ 0 }
    ensures flat { IfOk result (λ sum. flat sum ≡ bytes.now) }
    ensures each { IfOk result (All (λ d. length d ≡ 32)) }
{
    let mut digests = Vec::new(alloc);
    for i in 0..bytes.len() / 32 {
        let mut digest = [0; 32];
        digest.copy_from_slice(&bytes[32 * i..32 * i + 32]);
        digests.push(digest)?;
    }
    CrossSum::of_hashes(alloc, digests.as_slice())
}

fn fragment(alloc: Global, field: &[u8]) -> Result<Option<Bytes>, NoMemory>
    ensures { IfOk result (Spells IsFragment value_text field.now) }
{
    let Some(bytes) = value(alloc, field)? else {
        return Ok(None);
    };
    if bytes.len() > 16384 {
        return Ok(None);
    }
    Ok(Some(bytes))
}

fn version(alloc: Global, fields: &[&[u8]]) -> Result<Option<Version>, NoMemory>
    ensures { IfOk result (Spells IsVersion version_fields (texts fields.now)) }
{
    let [stamp_field, sum_field, fragment_field] = fields else {
        return Ok(None);
    };
    let Some(stamp) = stamp(stamp_field) else {
        return Ok(None);
    };
    let Some(sum) = sum(alloc, sum_field)? else {
        return Ok(None);
    };
    let Some(fragment) = fragment(alloc, fragment_field)? else {
        return Ok(None);
    };
    Ok(Some(Version {
        stamp,
        sum,
        fragment,
    }))
}

/// What stands alone has no field after it.
fn alone<T: Drop>(value: T, fields: &[&[u8]]) -> Option<T>
    ensures { MatchOption result (texts fields.now ≢ []) (λ found.
        (found ≡ value) × (texts fields.now ≡ [])) }
{
    if fields.is_empty() { Some(value) } else { None }
}

/// The one field that there is.
fn only<'a>(fields: &[&'a [u8]]) -> Option<&'a [u8]>
    ensures { MatchOption result ((x : List ℕ) → texts fields.now ≡ x ∷ [] → ⊥) (λ field.
        texts fields.now ≡ field.now ∷ []) }
{
    match fields {
        [field] => Some(field),
        _ => None,
    }
}

fn bound(fields: &[&[u8]]) -> Option<Bound>
    ensures { Spells IsBound bound_fields (texts fields.now) result }
{
    let (first, rest) = fields.split_first()?;
    match MessageWord::of(first)? {
        MessageWord::All => alone(Bound::All, rest),
        MessageWord::AtMost => Some(Bound::AtMost(stamp(only(rest)?)?)),
        MessageWord::Below => Some(Bound::Below(stamp(only(rest)?)?)),
        _ => None,
    }
}

fn request(alloc: Global, fields: &[&[u8]]) -> Result<Option<Request>, NoMemory>
    ensures { IfOk result (Spells IsRequest request_fields (texts fields.now)) }
{
    let Some((first, rest)) = fields.split_first() else {
        return Ok(None);
    };
    match MessageWord::of(first) {
        Some(MessageWord::Time) => Ok(alone(Request::Time, rest)),
        Some(MessageWord::Read) => Ok(bound(rest).map(Request::Read)),
        Some(MessageWord::Write) => Ok(version(alloc, rest)?.map(Request::Write)),
        _ => Ok(None),
    }
}

#[tactic(auto, using(crate::proofs::lemmas::Spelling::numbers))]
fn ask(alloc: Global, fields: &[&[u8]]) -> Result<Option<Ask>, NoMemory>
    ensures { IfOk result (Spells IsAsk ask_fields (texts fields.now)) }
{
    let Some((first, rest)) = fields.split_first() else {
        return Ok(None);
    };
    let Some(block) = number_u32(first) else {
        return Ok(None);
    };
    let Some(request) = request(alloc, rest)? else {
        return Ok(None);
    };
    Ok(Some(Ask { block, request }))
}

fn reason(field: &[u8]) -> Option<Reason>
    ensures { Spells IsReason reason_text field.now result }
{
    match field {
        b"1" => Some(Reason::BadBlock),
        b"2" => Some(Reason::BadLength),
        b"3" => Some(Reason::TimeZero),
        b"4" => Some(Reason::BadVerifier),
        b"5" => Some(Reason::BadDigest),
        _ => None,
    }
}

#[tactic(auto, using(crate::proofs::lemmas::Spelling::numbers))]
fn time_is(fields: &[&[u8]]) -> Option<Reply>
    ensures { Spells IsReply reply_fields (codes "time" ∷ texts fields.now) result }
{
    Some(Reply::TimeIs(number(only(fields)?)?))
}

fn refused(fields: &[&[u8]]) -> Option<Reply>
    ensures { Spells IsReply reply_fields (codes "refused" ∷ texts fields.now) result }
{
    Some(Reply::Refused(reason(only(fields)?)?))
}

fn reply(alloc: Global, fields: &[&[u8]]) -> Result<Option<Reply>, NoMemory>
    ensures { IfOk result (Spells IsReply reply_fields (texts fields.now)) }
{
    let Some((first, rest)) = fields.split_first() else {
        return Ok(None);
    };
    match MessageWord::of(first) {
        Some(MessageWord::Time) => Ok(time_is(rest)),
        Some(MessageWord::Found) => Ok(version(alloc, rest)?.map(Reply::Found)),
        Some(MessageWord::Nothing) => Ok(alone(Reply::Nothing, rest)),
        Some(MessageWord::Ack) => Ok(alone(Reply::Ack, rest)),
        Some(MessageWord::Refused) => Ok(refused(rest)),
        _ => Ok(None),
    }
}

fn body(alloc: Global, word: &[u8], fields: &[&[u8]]) -> Result<Option<Body>, NoMemory>
    ensures { IfOk result (Spells IsBody (λ body.
        word_of body ∷ body_fields body) (word.now ∷ texts fields.now)) }
{
    match MessageWord::of(word) {
        Some(MessageWord::Ask) => Ok(ask(alloc, fields)?.map(Body::Ask)),
        Some(MessageWord::Answer) => Ok(reply(alloc, fields)?.map(Body::Answer)),
        _ => Ok(None),
    }
}

/// The message whose text this is.
pub fn read(alloc: Global, text: &[u8]) -> Result<Message, TextRefusal>
    ensures ok { IfOk result (λ m. IsMessage m × (text.now ≡ text_of m)) }
    ensures refused { IfErr result (IsRefusal text.now) }
{
    match message(alloc, text)? {
        Some(message) => Ok(message),
        None => Err(TextRefusal::At(longest(text))),
    }
}

/// The message whose text this is, if there is one.
fn message(alloc: Global, text: &[u8]) -> Result<Option<Message>, NoMemory>
    ensures { IfOk result (Spells IsMessage text_of text.now) }
{
    let fields = fields(alloc, text)?;
    message_of(alloc, fields.as_slice())
}

#[tactic(auto, using(crate::proofs::lemmas::Spelling::numbers))]
fn message_of(alloc: Global, fields: &[&[u8]]) -> Result<Option<Message>, NoMemory>
    ensures { IfOk result (Spells IsMessage message_fields (texts fields.now)) }
{
    let [
        word,
        client_field,
        node_field,
        op_field,
        phase_field,
        rest @ ..,
    ] = fields
    else {
        return Ok(None);
    };
    let Some(client) = number_u32(client_field) else {
        return Ok(None);
    };
    let Some(node) = number_u8(node_field) else {
        return Ok(None);
    };
    let Some(op) = number(op_field) else {
        return Ok(None);
    };
    let Some(phase) = number(phase_field) else {
        return Ok(None);
    };
    let Some(body) = body(alloc, word, rest)? else {
        return Ok(None);
    };
    Ok(Some(Message {
        client,
        node,
        tag: Tag { op, phase },
        body,
    }))
}
