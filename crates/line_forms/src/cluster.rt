//! The second line of a script: the numbers of the cluster.
#![tactic(auto, using(text_lines::proofs::lemmas::Spelled::spelled, std::proofs::lemmas::Grind::common_steps))]

ghost use Rattle.std.specs.Prelude.{◌≡◌, true, false, length, map, OnOk, IfErr};
ghost use Rattle.std.specs.List.{list_any};
ghost use Rattle.quorum_rules.specs.Limits.{IsValid};
ghost use Rattle.text_lines.specs.Lines.{fields_of, texts};
ghost use Rattle.line_forms.specs.Heads.{IsSpelled, cluster_cause, config_cause, numbers_at, u32_of, is_no_u32};
ghost use Rattle.line_forms.specs.Tables.{Gives};

use crate::cause::Cause;
use crate::fields::has_empty;
use crate::refusal::LineRefusal;
use quorum_rules::{Config, Edition};
use std::alloc::Global;
use text_lines::{fields, number_u32};

/// The configuration of this edition that a cluster line spells.
pub fn read_cluster(alloc: Global, edition: Edition, line: &[u8]) -> Result<Config, LineRefusal>
    ensures { Gives (IsSpelled edition (fields_of line.now))
        (cluster_cause edition (fields_of line.now)) result }
{
    let fields = fields(alloc, line)?;
    config_in(edition, fields.as_slice())
}

fn config_in(edition: Edition, fields: &[&[u8]]) -> Result<Config, LineRefusal>
    ensures { Gives (IsSpelled edition (texts fields.now))
        (cluster_cause edition (texts fields.now)) result }
{
    let Some((word, fields)) = fields.split_first() else {
        return Err(LineRefusal::Cause(Cause::WrongCount));
    };
    if *word != b"cluster".as_slice() {
        return Err(LineRefusal::Cause(Cause::UnknownWord));
    }
    if fields.len() != 7 || has_empty(fields) {
        return Err(LineRefusal::Cause(Cause::WrongCount));
    }
    let mut numbers = [0; 7];
    read_numbers(fields, &mut numbers)?;
    config_of(edition, &numbers)
}

/// Puts the numbers that fields spell in their places.
fn read_numbers(fields: &[&[u8]], numbers: &mut [u32]) -> Result<(), Cause>
    requires { length numbers.old ≡ length fields.now }
    ensures ok { OnOk result (list_any is_no_u32 (texts fields.now) ≡ false) }
    ensures numbers { OnOk result (numbers.new ≡ map u32_of (texts fields.now)) }
    ensures err { IfErr result (λ cause.
        (cause ≡ Cause.BadNumber) × (list_any is_no_u32 (texts fields.now) ≡ true)) }
{
    for (i, field) in fields.iter().enumerate() {
        numbers[i] = number_u32(field).ok_or(Cause::BadNumber)?;
    }
    Ok(())
}

fn config_of(edition: Edition, numbers: &[u32; 7]) -> Result<Config, LineRefusal>
    ensures { let c = numbers_at edition numbers.now in Gives (λ config.
        (config ≡ c) × IsValid config) (config_cause c) result }
{
    let [n, t, b, qc, m, size, blocks] = *numbers;
    match Config::of(edition, n, t, b, qc, m, size, blocks) {
        Ok(config) => Ok(config),
        Err(fault) => Err(LineRefusal::Cause(Cause::Config(fault))),
    }
}
