//! The lines of a membership, as they are read.
#![tactic(auto, using(std::proofs::lemmas::Grind::common_steps))]

ghost use Rattle.std.specs.Prelude.{◌≡◌, ◌≢◌, ◌∷◌, ◌++◌, [], ◌<◌, ℕ, true, List, Some, decimal, length, slice_index_or, MatchOption, IfOk, IfErr, IfSome, OnOk, OnErr};
ghost use Rattle.std.specs.Str.{bytes_eq};
ghost use Rattle.quorum_rules.specs.Limits.{Numbers};
ghost use Rattle.quorum_rules.specs.declared.Edition.{Edition};
ghost use Rattle.text_lines.specs.Lines.{parts_of, texts};
ghost use Rattle.text_lines.specs.Fields.{value_text};
ghost use Rattle.line_forms.specs.Heads.{cluster_fields, u32_of};
ghost use Rattle.cluster_file.specs.Texts.{IfBadLine, IsConfig, IsId, is_of_stores, header, cluster_line, node_line, id_line};

use crate::membership::MembershipRefusal;
use crate::writing::add_cluster;
use lists::NoMemory;
use quorum_rules::{Config, Edition};
use std::alloc::Global;
use text_lines::{Text, cut, fields, number_u8, number_u32, value};

/// The line of this number, and what stands after it.
pub(crate) fn line_at(text: &[u8], number: u8) -> Result<(&[u8], &[u8]), MembershipRefusal>
    ensures parts { IfOk result (λ found. parts_of text.now ≡ found.0.now ∷ parts_of found.1.now) }
    ensures line { IfErr result (λ e. e ≡ MembershipRefusal.BadLine number) }
    ensures none { IfErr result (λ _. parts_of text.now ≡ text.now ∷ []) }
{
    cut(text, b'\n').ok_or(MembershipRefusal::BadLine(number))
}

/// The edition that the first line says.
pub(crate) fn edition_in(line: &[u8]) -> Result<Edition, MembershipRefusal>
    ensures line { IfOk result (λ edition. line.now ≡ header edition) }
    ensures ok { IfOk result (λ edition. is_of_stores edition ≡ true) }
    ensures err { IfErr result (λ e. e ≡ MembershipRefusal.BadLine 1) }
    ensures none { OnErr result ((edition : Edition) → line.now ≡ header edition → ⊥) }
{
    if line == b"pasis_store 4".as_slice() {
        Ok(Edition::Four)
    } else if line == b"pasis_store 1".as_slice() {
        Ok(Edition::Three)
    } else {
        Err(MembershipRefusal::BadLine(1))
    }
}

/// The configuration of this edition that the second line spells.
pub(crate) fn config_in(
    alloc: Global,
    edition: Edition,
    line: &[u8],
) -> Result<Config, MembershipRefusal>
    ensures line { IfOk result (λ c. line.now ≡ cluster_line c) }
    ensures ok { IfOk result (λ c. IsConfig edition c) }
    ensures err { IfErr result (IfBadLine (λ k. k ≡ 2)) }
    ensures none { IfErr result (IfBadLine (λ _.
        (c : Numbers) → IsConfig edition c → line.now ≡ cluster_line c → ⊥)) }
{
    let fields = fields(alloc, line)?;
    match config_of(edition, fields.as_slice()) {
        Some(config) if is_cluster_line(alloc, &config, line)? => Ok(config),
        _ => Err(MembershipRefusal::BadLine(2)),
    }
}

// The only configuration of this edition that these fields may spell.
fn config_of(edition: Edition, fields: &[&[u8]]) -> Option<Config>
    ensures ok { IfSome result (λ c. IsConfig edition c) }
    ensures only { (c : Numbers) → IsConfig edition c → texts fields.now ≡ cluster_fields c
        → result ≡ Some c }
{
    if fields.len() != 8 {
        return None;
    }
    Config::of(
        edition,
        number_at(fields, 1),
        number_at(fields, 2),
        number_at(fields, 3),
        number_at(fields, 4),
        number_at(fields, 5),
        number_at(fields, 6),
        number_at(fields, 7),
    )
    .ok()
}

// The number that a field spells, or 0.
fn number_at(fields: &[&[u8]], i: usize) -> u32
    requires { i < length fields.now }
    ensures { result ≡ u32_of (slice_index_or (texts fields.now) i []) }
{
    number_u32(fields[i]).unwrap_or(0)
}

fn is_cluster_line(alloc: Global, config: &Config, line: &[u8]) -> Result<bool, NoMemory>
    ensures { IfOk result (λ is. is ≡ bytes_eq (cluster_line config.now) line.now) }
{
    let mut text = Text::new(alloc);
    add_cluster(&mut text, config)?;
    Ok(text.as_slice() == line)
}

/// The number that the third line spells, which is one of a node of the cluster.
pub(crate) fn node_in(line: &[u8], config: &Config) -> Result<u8, MembershipRefusal>
    ensures line { IfOk result (λ node. line.now ≡ node_line node) }
    ensures ok { IfOk result (λ node. node < config.now.n) }
    ensures err { IfErr result (λ e. e ≡ MembershipRefusal.BadLine 3) }
    ensures none { OnErr result
        ((node : ℕ) → node < config.now.n → line.now ≡ node_line node → ⊥) }
{
    let Some(field) = after(line, b"node ") else {
        return Err(MembershipRefusal::BadLine(3));
    };
    node_of(field, config).ok_or(MembershipRefusal::BadLine(3))
}

// The number of a node that a field spells.
fn node_of(field: &[u8], config: &Config) -> Option<u8>
    ensures { MatchOption result ((node : ℕ) → node < config.now.n → field.now ≡ decimal node → ⊥)
        (λ node. (node < config.now.n) × (field.now ≡ decimal node)) }
{
    let n = config.n();
    match number_u8(field) {
        Some(node) if u32::from(node) < n => Some(node),
        _ => None,
    }
}

/// The id that the fourth line spells.
pub(crate) fn id_in(alloc: Global, line: &[u8]) -> Result<[u8; 16], MembershipRefusal>
    ensures line { IfOk result (λ id. line.now ≡ id_line id) }
    ensures ok { IfOk result (λ id. IsId id) }
    ensures err { IfErr result (IfBadLine (λ k. k ≡ 4)) }
    ensures none { IfErr result (IfBadLine (λ _.
        (id : List ℕ) → IsId id → line.now ≡ id_line id → ⊥)) }
{
    let Some(field) = after(line, b"id ") else {
        return Err(MembershipRefusal::BadLine(4));
    };
    match id_of(alloc, field)? {
        Some(id) => Ok(id),
        None => Err(MembershipRefusal::BadLine(4)),
    }
}

// The id that a field spells.
fn id_of(alloc: Global, field: &[u8]) -> Result<Option<[u8; 16]>, NoMemory>
    ensures { IfOk result (λ found.
        MatchOption found ((id : List ℕ) → IsId id → field.now ≡ value_text id → ⊥)
        (λ id. IsId id × (field.now ≡ value_text id))) }
{
    match value(alloc, field)? {
        Some(bytes) => Ok(sixteen(bytes.as_slice())),
        None => Ok(None),
    }
}

// The bytes, if they are sixteen.
fn sixteen(bytes: &[u8]) -> Option<[u8; 16]>
    ensures { MatchOption result (length bytes.now ≢ 16)
        (λ id. (id ≡ bytes.now) × (length bytes.now ≡ 16)) }
{
    if bytes.len() != 16 {
        return None;
    }
    let mut id = [0u8; 16];
    id.copy_from_slice(bytes);
    Some(id)
}

// What stands after a word that the line begins with.
#[tactic(auto, using(std::proofs::lemmas::Slice::Eq::strip_prefix_is))]
fn after<'a>(line: &'a [u8], word: &[u8]) -> Option<&'a [u8]>
    ensures { MatchOption result ((rest : List ℕ) → line.now ≢ word.now ++ rest)
        (λ rest. line.now ≡ word.now ++ rest.now) }
{
    line.strip_prefix(word)
}

/// Nothing follows the last line.
pub(crate) fn last_line(rest: &[u8]) -> Result<(), MembershipRefusal>
    ensures ok { OnOk result (parts_of rest.now ≡ [] ∷ []) }
    ensures err { IfErr result (λ e. (e ≡ MembershipRefusal.BadLine 5) × (parts_of rest.now ≡ [] ∷ [] → ⊥)) }
{
    if rest.is_empty() {
        Ok(())
    } else {
        Err(MembershipRefusal::BadLine(5))
    }
}
