//! The lines of a plan that declare somebody lying.
#![tactic(auto, using(text_lines::proofs::lemmas::Spelled::spelled, std::proofs::lemmas::Grind::common_steps))]

ghost use Rattle.std.specs.Prelude.{◌≡◌, ◌∷◌, [], codes, false, true, not, ℕ, MatchOption, is_none, is_some};
ghost use Rattle.text_lines.specs.Lines.{texts};
ghost use Rattle.line_forms.specs.Kinds.{form_cause, has_empty_field, is_other_word, some_field, node as node_kind};
ghost use Rattle.line_forms.specs.Tables.{Gives};
ghost use Rattle.event_lines.specs.Forms.{fields_cause};
ghost use Rattle.event_lines.specs.Lines.{rule_text};
ghost use Rattle.plan_words.specs.Forms.{any_rule, field_at, flood_form, forms_of, mix_form, node_form, number_at, sound_form};
ghost use Rattle.plan_words.specs.Lines.{IsSpelled};

use crate::Fault;
use crate::line::PlanLine;
use crate::numbers::{Forged, read_flood, read_forged};
use crate::word::PlanWord;
use event_lines::is_node;
use line_forms::{Cause, LineRefusal, has_empty, two_values, value_of_len};
use quorum_rules::Config;
use std::alloc::Global;
use text_lines::number_u8;
use wire_forms::Rule;

/// The line of a liar, from the fields behind its word.
pub fn liar(alloc: Global, config: &Config, fields: &[&[u8]]) -> Result<PlanLine, LineRefusal>
    ensures { Gives (IsSpelled config.now (codes "liar" ∷ texts fields.now))
        (fields_cause (forms_of config.now (texts fields.now) PlanWord.Liar) (texts fields.now))
        result }
{
    let Some((what, rest)) = fields.split_first() else {
        return Err(LineRefusal::Cause(Cause::WrongCount));
    };
    if *what == b"node".as_slice() {
        return liar_node(config, rest);
    }
    if *what == b"client".as_slice() {
        return liar_client(alloc, config, rest);
    }
    Err(LineRefusal::Cause(Cause::UnknownWord))
}

/// The rule by which a lying node answers.
fn rule_of(field: &[u8]) -> Option<Rule>
    ensures spelled { MatchOption result (is_other_word any_rule field.now ≡ true)
        (λ read. rule_text read ≡ field.now) }
    ensures there { is_none result ≡ is_other_word any_rule field.now }
{
    match field {
        b"silent" => Some(Rule::Silent),
        b"old" => Some(Rule::Old),
        b"top" => Some(Rule::Top),
        b"bad" => Some(Rule::Bad),
        _ => None,
    }
}

/// Whether the second field, if there is one, is a rule.
fn has_rule(fields: &[&[u8]]) -> bool
    ensures { (n : ℕ) → result
        ≡ not (some_field is_other_word (node_kind n ∷ any_rule ∷ []) (texts fields.now)) }
{
    match fields.get(1) {
        Some(rule) => rule_of(rule).is_some(),
        None => true,
    }
}

fn liar_node(config: &Config, fields: &[&[u8]]) -> Result<PlanLine, LineRefusal>
    ensures { Gives (IsSpelled config.now (codes "liar" ∷ codes "node" ∷ texts fields.now))
        (form_cause (node_form config.now) (codes "node" ∷ texts fields.now)) result }
{
    if !has_rule(fields) {
        return Err(LineRefusal::Cause(Cause::UnknownWord));
    }
    if fields.len() != 2 || has_empty(fields) {
        return Err(LineRefusal::Cause(Cause::WrongCount));
    }
    node_by_rule(config, fields[0], fields[1])
}

fn node_by_rule(config: &Config, node: &[u8], rule: &[u8]) -> Result<PlanLine, LineRefusal>
    requires { has_empty_field (node.now ∷ rule.now ∷ []) ≡ false }
    ensures { Gives (IsSpelled config.now (codes "liar" ∷ codes "node" ∷ node.now ∷ rule.now ∷ []))
        (form_cause (node_form config.now) (codes "node" ∷ node.now ∷ rule.now ∷ [])) result }
{
    let rule = rule_of(rule).ok_or(Cause::UnknownWord)?;
    let node = number_u8(node).ok_or(Cause::BadNumber)?;
    if !is_node(config, node) {
        return Err(LineRefusal::Cause(Cause::OutOfRange));
    }
    Ok(PlanLine::Rule(Fault::LiarNode { node, rule }))
}

fn liar_client(alloc: Global, config: &Config, fields: &[&[u8]]) -> Result<PlanLine, LineRefusal>
    ensures { Gives (IsSpelled config.now (codes "liar" ∷ codes "client" ∷ texts fields.now))
        (fields_cause (forms_of config.now (codes "client" ∷ texts fields.now) PlanWord.Liar)
        (codes "client" ∷ texts fields.now)) result }
{
    if fields.len() < 2 {
        return Err(LineRefusal::Cause(Cause::WrongCount));
    }
    let kind = second(fields);
    if kind == b"sound".as_slice() {
        return sound_in(alloc, config, fields);
    }
    if kind == b"mix".as_slice() {
        return mix_in(alloc, config, fields);
    }
    if kind == b"flood".as_slice() {
        return flood_in(alloc, config, fields);
    }
    Err(LineRefusal::Cause(Cause::UnknownWord))
}

/// The second field, or nothing where there is none.
fn second<'a>(fields: &[&'a [u8]]) -> &'a [u8]
    ensures { result.now ≡ field_at 1 (texts fields.now) }
{
    match fields.get(1) {
        Some(field) => field,
        None => &[],
    }
}

fn sound_in(alloc: Global, config: &Config, fields: &[&[u8]]) -> Result<PlanLine, LineRefusal>
    requires { field_at 1 (texts fields.now) ≡ codes "sound" }
    ensures { Gives (IsSpelled config.now (codes "liar" ∷ codes "client" ∷ texts fields.now))
        (form_cause (sound_form config.now) (codes "client" ∷ texts fields.now)) result }
{
    if fields.len() != 6 || has_empty(fields) {
        return Err(LineRefusal::Cause(Cause::WrongCount));
    }
    sound(
        alloc, config, fields[0], fields[2], fields[3], fields[4], fields[5],
    )
}

fn sound(
    alloc: Global,
    config: &Config,
    client: &[u8],
    block: &[u8],
    time: &[u8],
    value: &[u8],
    count: &[u8],
) -> Result<PlanLine, LineRefusal>
    requires { has_empty_field
        (client.now ∷ codes "sound" ∷ block.now ∷ time.now ∷ value.now ∷ count.now ∷ []) ≡ false }
    ensures { Gives (IsSpelled config.now
        (codes "liar" ∷ codes "client" ∷ client.now ∷ codes "sound" ∷ block.now ∷ time.now
        ∷ value.now ∷ count.now ∷ []))
        (form_cause (sound_form config.now)
        (codes "client" ∷ client.now ∷ codes "sound" ∷ block.now ∷ time.now ∷ value.now ∷ count.now
        ∷ [])) result }
{
    let Forged {
        client,
        block,
        time,
        count,
    } = read_forged(config, u64::from(config.n()), client, block, time, count)?;
    let value = value_of_len(alloc, value, config.size() as usize)?;
    Ok(PlanLine::Rule(Fault::LiarSound {
        client,
        block,
        time,
        value,
        count,
    }))
}

fn mix_in(alloc: Global, config: &Config, fields: &[&[u8]]) -> Result<PlanLine, LineRefusal>
    requires { field_at 1 (texts fields.now) ≡ codes "mix" }
    ensures { Gives (IsSpelled config.now (codes "liar" ∷ codes "client" ∷ texts fields.now))
        (form_cause (mix_form config.now) (codes "client" ∷ texts fields.now)) result }
{
    if fields.len() != 7 || has_empty(fields) {
        return Err(LineRefusal::Cause(Cause::WrongCount));
    }
    mix(
        alloc, config, fields[0], fields[2], fields[3], fields[4], fields[5], fields[6],
    )
}

fn mix(
    alloc: Global,
    config: &Config,
    client: &[u8],
    block: &[u8],
    time: &[u8],
    value: &[u8],
    other: &[u8],
    count: &[u8],
) -> Result<PlanLine, LineRefusal>
    requires { has_empty_field
        (client.now ∷ codes "mix" ∷ block.now ∷ time.now ∷ value.now ∷ other.now ∷ count.now ∷ [])
        ≡ false }
    ensures { Gives (IsSpelled config.now
        (codes "liar" ∷ codes "client" ∷ client.now ∷ codes "mix" ∷ block.now ∷ time.now ∷ value.now
        ∷ other.now ∷ count.now ∷ []))
        (form_cause (mix_form config.now)
        (codes "client" ∷ client.now ∷ codes "mix" ∷ block.now ∷ time.now ∷ value.now ∷ other.now
        ∷ count.now ∷ [])) result }
{
    let Forged {
        client,
        block,
        time,
        count,
    } = read_forged(config, u64::from(config.n()), client, block, time, count)?;
    let (value, other) = two_values(alloc, value, other, config.size() as usize)?;
    Ok(PlanLine::Rule(Fault::LiarMix {
        client,
        block,
        time,
        value,
        other,
        count,
    }))
}

fn flood_in(alloc: Global, config: &Config, fields: &[&[u8]]) -> Result<PlanLine, LineRefusal>
    requires { field_at 1 (texts fields.now) ≡ codes "flood" }
    ensures { Gives (IsSpelled config.now (codes "liar" ∷ codes "client" ∷ texts fields.now))
        (form_cause (flood_form config.now (number_at 3 (texts fields.now)))
        (codes "client" ∷ texts fields.now)) result }
{
    if fields.len() != 7 || has_empty(fields) {
        return Err(LineRefusal::Cause(Cause::WrongCount));
    }
    flood(
        alloc, config, fields[0], fields[2], fields[3], fields[4], fields[5], fields[6],
    )
}

fn flood(
    alloc: Global,
    config: &Config,
    client: &[u8],
    block: &[u8],
    time: &[u8],
    value: &[u8],
    other: &[u8],
    count: &[u8],
) -> Result<PlanLine, LineRefusal>
    requires { has_empty_field
        (client.now ∷ codes "flood" ∷ block.now ∷ time.now ∷ value.now ∷ other.now ∷ count.now ∷ [])
        ≡ false }
    ensures { Gives (IsSpelled config.now
        (codes "liar" ∷ codes "client" ∷ client.now ∷ codes "flood" ∷ block.now ∷ time.now
        ∷ value.now ∷ other.now ∷ count.now ∷ []))
        (form_cause (flood_form config.now (number_at 0 (time.now ∷ [])))
        (codes "client" ∷ client.now ∷ codes "flood" ∷ block.now ∷ time.now ∷ value.now ∷ other.now
        ∷ count.now ∷ [])) result }
{
    let Forged {
        client,
        block,
        time,
        count,
    } = read_flood(config, client, block, time, count)?;
    let (value, other) = two_values(alloc, value, other, config.size() as usize)?;
    Ok(PlanLine::Rule(Fault::LiarFlood {
        client,
        block,
        time,
        value,
        other,
        count,
    }))
}
