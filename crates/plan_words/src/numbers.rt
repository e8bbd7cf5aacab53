//! The fields of a plan's lines that hold numbers alone. All of a line's numbers are read before one of them is found
//! out of its range.
#![tactic(auto, using(text_lines::proofs::lemmas::Spelled::spelled, std::proofs::lemmas::Grind::common_steps))]

ghost use Rattle.std.specs.Prelude.{◌≡◌, ◌∷◌, ◌^◌, ◌<◌, ◌≤◌, [], false, decimal, min};
ghost use Rattle.line_forms.specs.Kinds as kinds;
ghost use Rattle.line_forms.specs.Kinds.{form_cause, has_empty_field};
ghost use Rattle.line_forms.specs.Tables.{Gives};
ghost use Rattle.wire_forms.specs.Liars.{IsClientNumber};
ghost use Rattle.event_lines.specs.Lines.{IsNode, IsBlock};
ghost use Rattle.plan_words.specs.Forms.{number_at};

use event_lines::{is_block, is_client, is_node};
use line_forms::{Cause, LineRefusal};
use quorum_rules::Config;
use text_lines::{number, number_u8, number_u32};

/// The greatest count of asks in a rule.
const MOST_ASKS: u64 = 1000;

/// The greatest count of writes in a flood.
const MOST_WRITES: u64 = 250;

/// The node and the count of asks that two fields spell.
pub fn node_and_count(config: &Config, node: &[u8], count: &[u8]) -> Result<(u8, u64), LineRefusal>
    requires { has_empty_field (node.now ∷ count.now ∷ []) ≡ false }
    ensures { Gives (λ read. IsNode config.now read.0 × (read.1 ≤ 1000)
        × (node.now ≡ decimal read.0) × (count.now ≡ decimal read.1))
        (form_cause (kinds.node config.now.n ∷ kinds.count_to 1000 ∷ [])
        (node.now ∷ count.now ∷ [])) result }
{
    let node = number_u8(node).ok_or(Cause::BadNumber)?;
    let count = number(count).ok_or(Cause::BadNumber)?;
    if !is_node(config, node) || count > MOST_ASKS {
        return Err(LineRefusal::Cause(Cause::OutOfRange));
    }
    Ok((node, count))
}

/// The client and the count of asks that two fields spell.
pub fn client_and_count(client: &[u8], count: &[u8]) -> Result<(u32, u64), LineRefusal>
    requires { has_empty_field (client.now ∷ count.now ∷ []) ≡ false }
    ensures { Gives (λ read. IsClientNumber read.0 × (read.1 ≤ 1000) × (client.now ≡ decimal read.0)
        × (count.now ≡ decimal read.1))
        (form_cause (kinds.client ∷ kinds.count_to 1000 ∷ []) (client.now ∷ count.now ∷ []))
        result }
{
    let client = number_u32(client).ok_or(Cause::BadNumber)?;
    let count = number(count).ok_or(Cause::BadNumber)?;
    if !is_client(client) || count > MOST_ASKS {
        return Err(LineRefusal::Cause(Cause::OutOfRange));
    }
    Ok((client, count))
}

/// Asks between a client and a node.
#[derive(Clone, Copy)]
pub struct Asks {
    pub client: u32,
    pub node: u8,
    pub count: u64,
}

/// What three fields spell: a client, a node and a count of asks.
pub fn read_asks(
    config: &Config,
    client: &[u8],
    node: &[u8],
    count: &[u8],
) -> Result<Asks, LineRefusal>
    requires { has_empty_field (client.now ∷ node.now ∷ count.now ∷ []) ≡ false }
    ensures { Gives (λ read. IsClientNumber read.client × IsNode config.now read.node
        × (read.count ≤ 1000)
        × (client.now ≡ decimal read.client) × (node.now ≡ decimal read.node)
        × (count.now ≡ decimal read.count))
        (form_cause (kinds.client ∷ kinds.node config.now.n ∷ kinds.count_to 1000 ∷ [])
        (client.now ∷ node.now ∷ count.now ∷ [])) result }
{
    let client = number_u32(client).ok_or(Cause::BadNumber)?;
    let node = number_u8(node).ok_or(Cause::BadNumber)?;
    let count = number(count).ok_or(Cause::BadNumber)?;
    if !is_client(client) || !is_node(config, node) || count > MOST_ASKS {
        return Err(LineRefusal::Cause(Cause::OutOfRange));
    }
    Ok(Asks {
        client,
        node,
        count,
    })
}

/// The numbers of a lying client's writes.
#[derive(Clone, Copy)]
pub struct Forged {
    pub client: u32,
    pub block: u32,
    pub time: u64,
    pub count: u64,
}

/// What four fields spell: a client, a block, a time and a count of at most so many.
pub fn read_forged(
    config: &Config,
    most: u64,
    client: &[u8],
    block: &[u8],
    time: &[u8],
    count: &[u8],
) -> Result<Forged, LineRefusal>
    requires { has_empty_field (client.now ∷ block.now ∷ time.now ∷ count.now ∷ []) ≡ false }
    ensures { Gives (λ read. IsClientNumber read.client × IsBlock config.now read.block
        × (read.time < 2 ^ 64) × (read.count ≤ most)
        × (client.now ≡ decimal read.client) × (block.now ≡ decimal read.block)
        × (time.now ≡ decimal read.time) × (count.now ≡ decimal read.count))
        (form_cause (kinds.client ∷ kinds.block config.now.blocks ∷ kinds.any_u64
        ∷ kinds.count_to most ∷ []) (client.now ∷ block.now ∷ time.now ∷ count.now ∷ [])) result }
{
    let client = number_u32(client).ok_or(Cause::BadNumber)?;
    let block = number_u32(block).ok_or(Cause::BadNumber)?;
    let time = number(time).ok_or(Cause::BadNumber)?;
    let count = number(count).ok_or(Cause::BadNumber)?;
    if !is_client(client) || !is_block(config, block) || count > most {
        return Err(LineRefusal::Cause(Cause::OutOfRange));
    }
    Ok(Forged {
        client,
        block,
        time,
        count,
    })
}

/// What four fields spell of a flood: a client, a block, a time, and a count of no more writes than there are times from
/// this one down to 1.
pub fn read_flood(
    config: &Config,
    client: &[u8],
    block: &[u8],
    time: &[u8],
    count: &[u8],
) -> Result<Forged, LineRefusal>
    requires { has_empty_field (client.now ∷ block.now ∷ time.now ∷ count.now ∷ []) ≡ false }
    ensures { Gives (λ read. IsClientNumber read.client × IsBlock config.now read.block
        × (read.time < 2 ^ 64) × (read.count ≤ 250) × (read.count ≤ read.time)
        × (client.now ≡ decimal read.client) × (block.now ≡ decimal read.block)
        × (time.now ≡ decimal read.time) × (count.now ≡ decimal read.count))
        (form_cause (kinds.client ∷ kinds.block config.now.blocks ∷ kinds.any_u64 ∷ kinds.count_to
        (min 250 (number_at 0 (time.now ∷ []))) ∷ [])
        (client.now ∷ block.now ∷ time.now ∷ count.now ∷ [])) result }
{
    let forged = read_forged(config, MOST_WRITES, client, block, time, count)?;
    if forged.count > forged.time {
        return Err(LineRefusal::Cause(Cause::OutOfRange));
    }
    Ok(forged)
}
