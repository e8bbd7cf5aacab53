//! The lines of a plan but for those of liars.
#![tactic(auto, using(text_lines::proofs::lemmas::Spelled::spelled, std::proofs::lemmas::Grind::common_steps))]

ghost use Rattle.std.specs.Prelude.{◌≡◌, ◌∷◌, [], codes, false};
ghost use Rattle.quorum_rules.specs.Limits.{Numbers};
ghost use Rattle.text_lines.specs.Lines.{texts};
ghost use Rattle.line_forms.specs.Kinds.{form_cause, has_empty_field};
ghost use Rattle.line_forms.specs.Tables.{Gives};
ghost use Rattle.event_lines.specs.Forms.{fields_cause};
ghost use Rattle.plan_words.specs.Forms.{crash_client_form, crash_node_form, forms_of};
ghost use Rattle.plan_words.specs.Lines.{IsSpelled};

use crate::line::PlanLine;
use crate::numbers::{client_and_count, node_and_count, read_asks};
use crate::word::PlanWord;
use crate::{Fault, Job};
use event_lines::{client_and_block, client_and_u64, is_client};
use line_forms::{Cause, LineRefusal, any_value, has_empty, value_of_len};
use quorum_rules::Config;
use std::alloc::Global;
use text_lines::{number, number_u32};
use wire_forms::{DeviceOp, Op};

/// The line of a crash, from the fields behind its word.
pub fn crash(config: &Config, fields: &[&[u8]]) -> Result<PlanLine, LineRefusal>
    ensures { Gives (IsSpelled config.now (codes "crash" ∷ texts fields.now))
        (fields_cause (forms_of config.now (texts fields.now) PlanWord.Crash) (texts fields.now))
        result }
{
    let Some((what, rest)) = fields.split_first() else {
        return Err(LineRefusal::Cause(Cause::WrongCount));
    };
    if *what == b"node".as_slice() {
        return crash_node(config, rest);
    }
    if *what == b"client".as_slice() {
        return crash_client(rest);
    }
    Err(LineRefusal::Cause(Cause::UnknownWord))
}

fn crash_node(config: &Config, fields: &[&[u8]]) -> Result<PlanLine, LineRefusal>
    ensures { Gives (IsSpelled config.now (codes "crash" ∷ codes "node" ∷ texts fields.now))
        (form_cause (crash_node_form config.now) (codes "node" ∷ texts fields.now)) result }
{
    if fields.len() != 2 || has_empty(fields) {
        return Err(LineRefusal::Cause(Cause::WrongCount));
    }
    let (node, count) = node_and_count(config, fields[0], fields[1])?;
    Ok(PlanLine::Rule(Fault::CrashNode { node, count }))
}

fn crash_client(fields: &[&[u8]]) -> Result<PlanLine, LineRefusal>
    ensures { (c : Numbers)
        → Gives (IsSpelled c (codes "crash" ∷ codes "client" ∷ texts fields.now))
        (form_cause crash_client_form (codes "client" ∷ texts fields.now)) result }
{
    if fields.len() != 2 || has_empty(fields) {
        return Err(LineRefusal::Cause(Cause::WrongCount));
    }
    let (client, count) = client_and_count(fields[0], fields[1])?;
    Ok(PlanLine::Rule(Fault::CrashClient { client, count }))
}

pub fn dropping(
    config: &Config,
    client: &[u8],
    node: &[u8],
    count: &[u8],
) -> Result<PlanLine, LineRefusal>
    requires { has_empty_field (client.now ∷ node.now ∷ count.now ∷ []) ≡ false }
    ensures { Gives (IsSpelled config.now (codes "drop" ∷ client.now ∷ node.now ∷ count.now ∷ []))
        (fields_cause (forms_of config.now (client.now ∷ node.now ∷ count.now ∷ []) PlanWord.Lose)
        (client.now ∷ node.now ∷ count.now ∷ [])) result }
{
    let asks = read_asks(config, client, node, count)?;
    Ok(PlanLine::Rule(Fault::Lose {
        client: asks.client,
        node: asks.node,
        count: asks.count,
    }))
}

pub fn holding(
    config: &Config,
    client: &[u8],
    node: &[u8],
    count: &[u8],
) -> Result<PlanLine, LineRefusal>
    requires { has_empty_field (client.now ∷ node.now ∷ count.now ∷ []) ≡ false }
    ensures { Gives (IsSpelled config.now (codes "hold" ∷ client.now ∷ node.now ∷ count.now ∷ []))
        (fields_cause (forms_of config.now (client.now ∷ node.now ∷ count.now ∷ []) PlanWord.Hold)
        (client.now ∷ node.now ∷ count.now ∷ [])) result }
{
    let asks = read_asks(config, client, node, count)?;
    Ok(PlanLine::Rule(Fault::Hold {
        client: asks.client,
        node: asks.node,
        count: asks.count,
    }))
}

pub fn write(
    alloc: Global,
    config: &Config,
    client: &[u8],
    block: &[u8],
    value: &[u8],
) -> Result<PlanLine, LineRefusal>
    requires { has_empty_field (client.now ∷ block.now ∷ value.now ∷ []) ≡ false }
    ensures { Gives (IsSpelled config.now (codes "write" ∷ client.now ∷ block.now ∷ value.now ∷ []))
        (fields_cause (forms_of config.now (client.now ∷ block.now ∷ value.now ∷ []) PlanWord.Write)
        (client.now ∷ block.now ∷ value.now ∷ [])) result }
{
    let (client, block) = client_and_block(config, client, block)?;
    let value = value_of_len(alloc, value, config.size() as usize)?;
    Ok(PlanLine::Work(Job::Block {
        client,
        op: Op::Write { block, value },
    }))
}

pub fn read(config: &Config, client: &[u8], block: &[u8]) -> Result<PlanLine, LineRefusal>
    requires { has_empty_field (client.now ∷ block.now ∷ []) ≡ false }
    ensures { Gives (IsSpelled config.now (codes "read" ∷ client.now ∷ block.now ∷ []))
        (fields_cause (forms_of config.now (client.now ∷ block.now ∷ []) PlanWord.Read)
        (client.now ∷ block.now ∷ [])) result }
{
    let (client, block) = client_and_block(config, client, block)?;
    Ok(PlanLine::Work(Job::Block {
        client,
        op: Op::Read { block },
    }))
}

pub fn put(
    alloc: Global,
    client: &[u8],
    offset: &[u8],
    bytes: &[u8],
) -> Result<PlanLine, LineRefusal>
    requires { has_empty_field (client.now ∷ offset.now ∷ bytes.now ∷ []) ≡ false }
    ensures { (c : Numbers)
        → Gives (IsSpelled c (codes "put" ∷ client.now ∷ offset.now ∷ bytes.now ∷ []))
        (fields_cause (forms_of c (client.now ∷ offset.now ∷ bytes.now ∷ []) PlanWord.Put)
        (client.now ∷ offset.now ∷ bytes.now ∷ [])) result }
{
    let (client, offset) = client_and_u64(client, offset)?;
    let bytes = any_value(alloc, bytes)?;
    Ok(PlanLine::Work(Job::Device {
        client,
        op: DeviceOp::Put { offset, bytes },
    }))
}

pub fn get(client: &[u8], offset: &[u8], length: &[u8]) -> Result<PlanLine, LineRefusal>
    requires { has_empty_field (client.now ∷ offset.now ∷ length.now ∷ []) ≡ false }
    ensures { (c : Numbers)
        → Gives (IsSpelled c (codes "get" ∷ client.now ∷ offset.now ∷ length.now ∷ []))
        (fields_cause (forms_of c (client.now ∷ offset.now ∷ length.now ∷ []) PlanWord.Get)
        (client.now ∷ offset.now ∷ length.now ∷ [])) result }
{
    let client = number_u32(client).ok_or(Cause::BadNumber)?;
    let offset = number(offset).ok_or(Cause::BadNumber)?;
    let length = number(length).ok_or(Cause::BadNumber)?;
    if !is_client(client) {
        return Err(LineRefusal::Cause(Cause::OutOfRange));
    }
    Ok(PlanLine::Work(Job::Device {
        client,
        op: DeviceOp::Get { offset, length },
    }))
}
