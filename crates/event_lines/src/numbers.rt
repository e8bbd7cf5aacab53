//! The fields of event lines that hold numbers alone. All of a line's numbers are read before one of
//! them is found out of its range.
#![tactic(auto, using(text_lines::proofs::lemmas::Spelled::spelled, std::proofs::lemmas::Grind::common_steps))]

ghost use Rattle.std.specs.Prelude.{◌≡◌, ◌↔◌, ◌∷◌, ◌^◌, ◌<◌, [], false, decimal, IsTrue};
ghost use Rattle.line_forms.specs.Kinds as kinds;
ghost use Rattle.line_forms.specs.Kinds.{form_cause, has_empty_field};
ghost use Rattle.line_forms.specs.Tables.{Gives};
ghost use Rattle.wire_forms.specs.Liars.{IsClientNumber};
ghost use Rattle.event_lines.specs.Lines.{IsNode, IsBlock};

use line_forms::{Cause, LineRefusal};
use quorum_rules::Config;
use text_lines::{number, number_u8, number_u32};

/// Whether a client may have this number.
pub fn is_client(client: u32) -> bool
    ensures { IsTrue result ↔ IsClientNumber client }
{
    client >= 1 && client <= 1000
}

/// Whether the cluster has the node.
pub fn is_node(config: &Config, node: u8) -> bool
    ensures { IsTrue result ↔ IsNode config.now node }
{
    u32::from(node) < config.n()
}

/// Whether the cluster has the block.
pub fn is_block(config: &Config, block: u32) -> bool
    ensures { IsTrue result ↔ IsBlock config.now block }
{
    block < config.blocks()
}

/// The client that a field spells.
pub fn client(field: &[u8]) -> Result<u32, LineRefusal>
    requires { has_empty_field (field.now ∷ []) ≡ false }
    ensures { Gives (λ read. IsClientNumber read × (field.now ≡ decimal read))
        (form_cause (kinds.client ∷ []) (field.now ∷ [])) result }
{
    let client = number_u32(field).ok_or(Cause::BadNumber)?;
    if !is_client(client) {
        return Err(LineRefusal::Cause(Cause::OutOfRange));
    }
    Ok(client)
}

/// The node that a field spells.
pub fn node(config: &Config, field: &[u8]) -> Result<u8, LineRefusal>
    requires { has_empty_field (field.now ∷ []) ≡ false }
    ensures { Gives (λ read. IsNode config.now read × (field.now ≡ decimal read))
        (form_cause (kinds.node config.now.n ∷ []) (field.now ∷ [])) result }
{
    let node = number_u8(field).ok_or(Cause::BadNumber)?;
    if !is_node(config, node) {
        return Err(LineRefusal::Cause(Cause::OutOfRange));
    }
    Ok(node)
}

/// The client and the block that two fields spell.
pub fn client_and_block(
    config: &Config,
    client: &[u8],
    block: &[u8],
) -> Result<(u32, u32), LineRefusal>
    requires { has_empty_field (client.now ∷ block.now ∷ []) ≡ false }
    ensures { Gives (λ read. IsClientNumber read.0 × IsBlock config.now read.1
        × (client.now ≡ decimal read.0) × (block.now ≡ decimal read.1))
        (form_cause (kinds.client ∷ kinds.block config.now.blocks ∷ [])
        (client.now ∷ block.now ∷ [])) result }
{
    let client = number_u32(client).ok_or(Cause::BadNumber)?;
    let block = number_u32(block).ok_or(Cause::BadNumber)?;
    if !is_client(client) || !is_block(config, block) {
        return Err(LineRefusal::Cause(Cause::OutOfRange));
    }
    Ok((client, block))
}

/// The client and the node that two fields spell.
pub fn client_and_node(
    config: &Config,
    client: &[u8],
    node: &[u8],
) -> Result<(u32, u8), LineRefusal>
    requires { has_empty_field (client.now ∷ node.now ∷ []) ≡ false }
    ensures { Gives (λ read. IsClientNumber read.0 × IsNode config.now read.1
        × (client.now ≡ decimal read.0) × (node.now ≡ decimal read.1))
        (form_cause (kinds.client ∷ kinds.node config.now.n ∷ []) (client.now ∷ node.now ∷ []))
        result }
{
    let client = number_u32(client).ok_or(Cause::BadNumber)?;
    let node = number_u8(node).ok_or(Cause::BadNumber)?;
    if !is_client(client) || !is_node(config, node) {
        return Err(LineRefusal::Cause(Cause::OutOfRange));
    }
    Ok((client, node))
}

/// The node and the block that two fields spell.
pub fn node_and_block(config: &Config, node: &[u8], block: &[u8]) -> Result<(u8, u32), LineRefusal>
    requires { has_empty_field (node.now ∷ block.now ∷ []) ≡ false }
    ensures { Gives (λ read. IsNode config.now read.0 × IsBlock config.now read.1
        × (node.now ≡ decimal read.0) × (block.now ≡ decimal read.1))
        (form_cause (kinds.node config.now.n ∷ kinds.block config.now.blocks ∷ [])
        (node.now ∷ block.now ∷ [])) result }
{
    let node = number_u8(node).ok_or(Cause::BadNumber)?;
    let block = number_u32(block).ok_or(Cause::BadNumber)?;
    if !is_node(config, node) || !is_block(config, block) {
        return Err(LineRefusal::Cause(Cause::OutOfRange));
    }
    Ok((node, block))
}

/// The node and the number of a message that two fields spell.
pub fn node_and_message(
    config: &Config,
    node: &[u8],
    message: &[u8],
) -> Result<(u8, u64), LineRefusal>
    requires { has_empty_field (node.now ∷ message.now ∷ []) ≡ false }
    ensures { Gives (λ read. IsNode config.now read.0 × (read.1 < 2 ^ 64)
        × (node.now ≡ decimal read.0) × (message.now ≡ decimal read.1))
        (form_cause (kinds.node config.now.n ∷ kinds.any_u64 ∷ []) (node.now ∷ message.now ∷ []))
        result }
{
    let node = number_u8(node).ok_or(Cause::BadNumber)?;
    let message = number(message).ok_or(Cause::BadNumber)?;
    if !is_node(config, node) {
        return Err(LineRefusal::Cause(Cause::OutOfRange));
    }
    Ok((node, message))
}

/// The client, and a number of any size, that two fields spell.
pub fn client_and_u64(client: &[u8], more: &[u8]) -> Result<(u32, u64), LineRefusal>
    requires { has_empty_field (client.now ∷ more.now ∷ []) ≡ false }
    ensures { Gives (λ read. IsClientNumber read.0 × (read.1 < 2 ^ 64)
        × (client.now ≡ decimal read.0)
        × (more.now ≡ decimal read.1))
        (form_cause (kinds.client ∷ kinds.any_u64 ∷ []) (client.now ∷ more.now ∷ [])) result }
{
    let client = number_u32(client).ok_or(Cause::BadNumber)?;
    let more = number(more).ok_or(Cause::BadNumber)?;
    if !is_client(client) {
        return Err(LineRefusal::Cause(Cause::OutOfRange));
    }
    Ok((client, more))
}

/// The numbers of a lying client's write.
#[derive(Clone, Copy)]
pub struct Forged {
    pub client: u32,
    pub node: u8,
    pub block: u32,
    pub time: u64,
}

/// What four fields spell: a client, a node, a block and a time.
pub fn read_forged(
    config: &Config,
    client: &[u8],
    node: &[u8],
    block: &[u8],
    time: &[u8],
) -> Result<Forged, LineRefusal>
    requires { has_empty_field (client.now ∷ node.now ∷ block.now ∷ time.now ∷ []) ≡ false }
    ensures { Gives (λ read. IsClientNumber read.client × IsNode config.now read.node
        × IsBlock config.now read.block × (read.time < 2 ^ 64)
        × (client.now ≡ decimal read.client) × (node.now ≡ decimal read.node)
        × (block.now ≡ decimal read.block) × (time.now ≡ decimal read.time))
        (form_cause (kinds.client ∷ kinds.node config.now.n ∷ kinds.block config.now.blocks
        ∷ kinds.any_u64 ∷ []) (client.now ∷ node.now ∷ block.now ∷ time.now ∷ [])) result }
{
    let client = number_u32(client).ok_or(Cause::BadNumber)?;
    let node = number_u8(node).ok_or(Cause::BadNumber)?;
    let block = number_u32(block).ok_or(Cause::BadNumber)?;
    let time = number(time).ok_or(Cause::BadNumber)?;
    if !is_client(client) || !is_node(config, node) || !is_block(config, block) {
        return Err(LineRefusal::Cause(Cause::OutOfRange));
    }
    Ok(Forged {
        client,
        node,
        block,
        time,
    })
}
