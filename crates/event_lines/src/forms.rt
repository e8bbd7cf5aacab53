//! The lines of fields, each with its fields one by one, none of them empty.
#![tactic(auto, using(text_lines::proofs::lemmas::Spelled::spelled, std::proofs::lemmas::Grind::common_steps))]

ghost use Rattle.std.specs.Prelude.{◌≡◌, ◌≢◌, ◌∷◌, [], length, codes, true, false, MatchOption, is_none};
ghost use Rattle.quorum_rules.specs.Limits.{Numbers};
ghost use Rattle.line_forms.specs.Kinds.{has_empty_field, is_other_word};
ghost use Rattle.line_forms.specs.Tables.{Gives};
ghost use Rattle.event_lines.specs.Forms.{fields_cause, forms_of, rule};
ghost use Rattle.event_lines.specs.Lines.{IsSpelled, rule_text};

use crate::line::ReplayLine;
use crate::numbers::{
    self, Forged, client_and_block, client_and_node, client_and_u64, is_client, node_and_block,
    node_and_message, read_forged,
};
use crate::word::Form;
use line_forms::{Cause, LineRefusal, any_value, two_values, value_of_len};
use quorum_rules::Config;
use run_words::Line;
use std::alloc::Global;
use text_lines::{number, number_u32};
use wire_forms::Rule;

pub fn write(
    alloc: Global,
    config: &Config,
    client: &[u8],
    block: &[u8],
    value: &[u8],
) -> Result<ReplayLine, LineRefusal>
    requires { has_empty_field (client.now ∷ block.now ∷ value.now ∷ []) ≡ false }
    ensures { Gives (IsSpelled config.now (codes "write" ∷ client.now ∷ block.now ∷ value.now ∷ []))
        (fields_cause (forms_of config.now Form.Write) (client.now ∷ block.now ∷ value.now ∷ []))
        result }
{
    let (client, block) = client_and_block(config, client, block)?;
    let value = value_of_len(alloc, value, config.size() as usize)?;
    Ok(ReplayLine::Plain(Line::Write {
        client,
        block,
        value,
    }))
}

pub fn read(config: &Config, client: &[u8], block: &[u8]) -> Result<ReplayLine, LineRefusal>
    requires { has_empty_field (client.now ∷ block.now ∷ []) ≡ false }
    ensures { Gives (IsSpelled config.now (codes "read" ∷ client.now ∷ block.now ∷ []))
        (fields_cause (forms_of config.now Form.Read) (client.now ∷ block.now ∷ [])) result }
{
    let (client, block) = client_and_block(config, client, block)?;
    Ok(ReplayLine::Plain(Line::Read { client, block }))
}

pub fn resend(client: &[u8]) -> Result<ReplayLine, LineRefusal>
    requires { has_empty_field (client.now ∷ []) ≡ false }
    ensures { (c : Numbers) → Gives (IsSpelled c (codes "resend" ∷ client.now ∷ []))
        (fields_cause (forms_of c Form.Resend) (client.now ∷ [])) result }
{
    let client = numbers::client(client)?;
    Ok(ReplayLine::Plain(Line::Resend { client }))
}

pub fn call(config: &Config, client: &[u8], node: &[u8]) -> Result<ReplayLine, LineRefusal>
    requires { has_empty_field (client.now ∷ node.now ∷ []) ≡ false }
    ensures { Gives (IsSpelled config.now (codes "call" ∷ client.now ∷ node.now ∷ []))
        (fields_cause (forms_of config.now Form.Call) (client.now ∷ node.now ∷ [])) result }
{
    let (client, node) = client_and_node(config, client, node)?;
    Ok(ReplayLine::Plain(Line::Call { client, node }))
}

pub fn give(config: &Config, node: &[u8], message: &[u8]) -> Result<ReplayLine, LineRefusal>
    requires { has_empty_field (node.now ∷ message.now ∷ []) ≡ false }
    ensures { Gives (IsSpelled config.now (codes "give" ∷ node.now ∷ message.now ∷ []))
        (fields_cause (forms_of config.now Form.Give) (node.now ∷ message.now ∷ [])) result }
{
    let (node, message) = node_and_message(config, node, message)?;
    Ok(ReplayLine::Plain(Line::Give { node, message }))
}

pub fn hear(client: &[u8], message: &[u8]) -> Result<ReplayLine, LineRefusal>
    requires { has_empty_field (client.now ∷ message.now ∷ []) ≡ false }
    ensures { (c : Numbers) → Gives (IsSpelled c (codes "hear" ∷ client.now ∷ message.now ∷ []))
        (fields_cause (forms_of c Form.Hear) (client.now ∷ message.now ∷ [])) result }
{
    let (client, message) = client_and_u64(client, message)?;
    Ok(ReplayLine::Plain(Line::Hear { client, message }))
}

pub fn lost(config: &Config, client: &[u8], node: &[u8]) -> Result<ReplayLine, LineRefusal>
    requires { has_empty_field (client.now ∷ node.now ∷ []) ≡ false }
    ensures { Gives (IsSpelled config.now (codes "lost" ∷ client.now ∷ node.now ∷ []))
        (fields_cause (forms_of config.now Form.Lost) (client.now ∷ node.now ∷ [])) result }
{
    let (client, node) = client_and_node(config, client, node)?;
    Ok(ReplayLine::Plain(Line::Lost { client, node }))
}

pub fn crash(config: &Config, what: &[u8], number: &[u8]) -> Result<ReplayLine, LineRefusal>
    requires { has_empty_field (what.now ∷ number.now ∷ []) ≡ false }
    ensures { Gives (IsSpelled config.now (codes "crash" ∷ what.now ∷ number.now ∷ []))
        (fields_cause (forms_of config.now Form.Crash) (what.now ∷ number.now ∷ [])) result }
{
    if what == b"node".as_slice() {
        let node = numbers::node(config, number)?;
        return Ok(ReplayLine::Plain(Line::CrashNode { node }));
    }
    if what == b"client".as_slice() {
        let client = numbers::client(number)?;
        return Ok(ReplayLine::Plain(Line::CrashClient { client }));
    }
    Err(LineRefusal::Cause(Cause::UnknownWord))
}

/// The rule by which a lying node answers. `silent` is no answer.
pub fn rule_of(field: &[u8]) -> Option<Rule>
    ensures spelled { MatchOption result (is_other_word rule field.now ≡ true)
        (λ read. (read ≢ Rule.Silent) × (rule_text read ≡ field.now)) }
    ensures there { is_none result ≡ is_other_word rule field.now }
{
    match field {
        b"old" => Some(Rule::Old),
        b"top" => Some(Rule::Top),
        b"bad" => Some(Rule::Bad),
        _ => None,
    }
}

pub fn falsely(
    config: &Config,
    client: &[u8],
    node: &[u8],
    rule: &[u8],
) -> Result<ReplayLine, LineRefusal>
    requires { has_empty_field (client.now ∷ node.now ∷ rule.now ∷ []) ≡ false }
    ensures { Gives (IsSpelled config.now (codes "false" ∷ client.now ∷ node.now ∷ rule.now ∷ []))
        (fields_cause (forms_of config.now Form.False) (client.now ∷ node.now ∷ rule.now ∷ []))
        result }
{
    let rule = rule_of(rule).ok_or(Cause::UnknownWord)?;
    let (client, node) = client_and_node(config, client, node)?;
    Ok(ReplayLine::Plain(Line::False { client, node, rule }))
}

pub fn sound(
    alloc: Global,
    config: &Config,
    client: &[u8],
    node: &[u8],
    block: &[u8],
    time: &[u8],
    value: &[u8],
) -> Result<ReplayLine, LineRefusal>
    requires { has_empty_field (client.now ∷ node.now ∷ block.now ∷ time.now ∷ value.now ∷ [])
        ≡ false }
    ensures { Gives (IsSpelled config.now
        (codes "sound" ∷ client.now ∷ node.now ∷ block.now ∷ time.now ∷ value.now ∷ []))
        (fields_cause (forms_of config.now Form.Sound)
        (client.now ∷ node.now ∷ block.now ∷ time.now ∷ value.now ∷ [])) result }
{
    let Forged {
        client,
        node,
        block,
        time,
    } = read_forged(config, client, node, block, time)?;
    let value = value_of_len(alloc, value, config.size() as usize)?;
    Ok(ReplayLine::Plain(Line::Sound {
        client,
        node,
        block,
        time,
        value,
    }))
}

pub fn mix(
    alloc: Global,
    config: &Config,
    client: &[u8],
    node: &[u8],
    block: &[u8],
    time: &[u8],
    value: &[u8],
    other: &[u8],
) -> Result<ReplayLine, LineRefusal>
    requires { has_empty_field
        (client.now ∷ node.now ∷ block.now ∷ time.now ∷ value.now ∷ other.now ∷ []) ≡ false }
    ensures { Gives (IsSpelled config.now
        (codes "mix" ∷ client.now ∷ node.now ∷ block.now ∷ time.now ∷ value.now ∷ other.now ∷ []))
        (fields_cause (forms_of config.now Form.Mix)
        (client.now ∷ node.now ∷ block.now ∷ time.now ∷ value.now ∷ other.now ∷ [])) result }
{
    let Forged {
        client,
        node,
        block,
        time,
    } = read_forged(config, client, node, block, time)?;
    let (value, other) = two_values(alloc, value, other, config.size() as usize)?;
    Ok(ReplayLine::Plain(Line::Mix {
        client,
        node,
        block,
        time,
        value,
        other,
    }))
}

pub fn prune(config: &Config, node: &[u8], block: &[u8]) -> Result<ReplayLine, LineRefusal>
    requires { has_empty_field (node.now ∷ block.now ∷ []) ≡ false }
    ensures { Gives (IsSpelled config.now (codes "prune" ∷ node.now ∷ block.now ∷ []))
        (fields_cause (forms_of config.now Form.Prune) (node.now ∷ block.now ∷ [])) result }
{
    let (node, block) = node_and_block(config, node, block)?;
    Ok(ReplayLine::Plain(Line::Prune { node, block }))
}

pub fn back(config: &Config, what: &[u8], client: &[u8]) -> Result<ReplayLine, LineRefusal>
    requires { has_empty_field (what.now ∷ client.now ∷ []) ≡ false }
    ensures { Gives (IsSpelled config.now (codes "back" ∷ what.now ∷ client.now ∷ []))
        (fields_cause (forms_of config.now Form.Back) (what.now ∷ client.now ∷ [])) result }
{
    if config.edition() == 1 || what != b"client".as_slice() {
        return Err(LineRefusal::Cause(Cause::UnknownWord));
    }
    let client = numbers::client(client)?;
    Ok(ReplayLine::Plain(Line::Back { client }))
}

pub fn restart(config: &Config, what: &[u8], node: &[u8]) -> Result<ReplayLine, LineRefusal>
    requires { has_empty_field (what.now ∷ node.now ∷ []) ≡ false }
    ensures { Gives (IsSpelled config.now (codes "restart" ∷ what.now ∷ node.now ∷ []))
        (fields_cause (forms_of config.now Form.Restart) (what.now ∷ node.now ∷ [])) result }
{
    if config.edition() == 1 || what != b"node".as_slice() {
        return Err(LineRefusal::Cause(Cause::UnknownWord));
    }
    let node = numbers::node(config, node)?;
    Ok(ReplayLine::Plain(Line::Restart { node }))
}

pub fn put(
    alloc: Global,
    client: &[u8],
    offset: &[u8],
    bytes: &[u8],
) -> Result<ReplayLine, LineRefusal>
    requires { has_empty_field (client.now ∷ offset.now ∷ bytes.now ∷ []) ≡ false }
    ensures { (c : Numbers)
        → Gives (IsSpelled c (codes "put" ∷ client.now ∷ offset.now ∷ bytes.now ∷ []))
        (fields_cause (forms_of c Form.Put) (client.now ∷ offset.now ∷ bytes.now ∷ [])) result }
{
    let (client, offset) = client_and_u64(client, offset)?;
    let bytes = any_value(alloc, bytes)?;
    Ok(ReplayLine::Put {
        client,
        offset,
        bytes,
    })
}

pub fn get(client: &[u8], offset: &[u8], length: &[u8]) -> Result<ReplayLine, LineRefusal>
    requires { has_empty_field (client.now ∷ offset.now ∷ length.now ∷ []) ≡ false }
    ensures { (c : Numbers)
        → Gives (IsSpelled c (codes "get" ∷ client.now ∷ offset.now ∷ length.now ∷ []))
        (fields_cause (forms_of c Form.Get) (client.now ∷ offset.now ∷ length.now ∷ [])) result }
{
    let client = number_u32(client).ok_or(Cause::BadNumber)?;
    let offset = number(offset).ok_or(Cause::BadNumber)?;
    let length = number(length).ok_or(Cause::BadNumber)?;
    if !is_client(client) {
        return Err(LineRefusal::Cause(Cause::OutOfRange));
    }
    Ok(ReplayLine::Get {
        client,
        offset,
        length,
    })
}

pub fn next(client: &[u8]) -> Result<ReplayLine, LineRefusal>
    requires { has_empty_field (client.now ∷ []) ≡ false }
    ensures { (c : Numbers) → Gives (IsSpelled c (codes "next" ∷ client.now ∷ []))
        (fields_cause (forms_of c Form.Next) (client.now ∷ [])) result }
{
    let client = numbers::client(client)?;
    Ok(ReplayLine::Next { client })
}
