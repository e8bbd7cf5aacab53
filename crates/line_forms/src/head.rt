ghost use Rattle.std.specs.Prelude.{◌≡◌, ◌∷◌, ◌++◌, ◌≤◌, decimal, drop, length, IfOk, IfErr, OnOk};
ghost use Rattle.quorum_rules.specs.Limits.{IsValid, IsOfScripts};
ghost use Rattle.line_forms.specs.Heads.{Body, script, edition_in, head_lines, head_text};
ghost use Rattle.line_forms.specs.Texts.{IsRefusal, ReadsTo};

use crate::cause::Cause;
use crate::cluster::read_cluster;
use crate::lines::needed_line;
use crate::refusal::{LineRefusal, ScriptRefusal, refused};
use lists::NoMemory;
use quorum_rules::{Config, Edition};
use std::alloc::Global;
use text_lines::Text;

/// The configuration that the two head lines of a script spell, and the place after them.
pub fn read_head(alloc: Global, text: &[u8]) -> Result<(Config, usize), ScriptRefusal>
    // What is read is spelled so, and these lines have no cause, whatever may follow them.
    ensures head { IfOk result (λ head.
        (body : Body) → ReadsTo (script body) text.now (head_lines head.0) (drop head.1 text.now)) }
    ensures within { IfOk result (λ head. head.1 ≤ length text.now) }
    ensures valid { IfOk result (λ head. IsValid head.0) }
    ensures of_scripts { IfOk result (λ head. IsOfScripts head.0) }
    // A refusal is the first line that has a cause, whatever may follow the head lines.
    ensures fault { IfErr result (λ refusal.
        (body : Body) → IsRefusal (script body) text.now refusal) }
{
    let (first, rest) = needed_line(text, 1, Cause::Empty)?;
    let Some(edition) = edition_in(first) else {
        return Err(refused(1, LineRefusal::Cause(Cause::BadHeader)));
    };
    let (line, rest) = needed_line(rest, 2, Cause::MissingLine)?;
    match read_cluster(alloc, edition, line) {
        Ok(config) => Ok((config, text.len() - rest.len())),
        Err(refusal) => Err(refused(2, refusal)),
    }
}

/// The edition that the first line of a script names.
fn edition_in(first: &[u8]) -> Option<Edition>
    ensures { result ≡ edition_in first.now }
{
    if first == b"pasis 1".as_slice() {
        Some(Edition::One)
    } else if first == b"pasis 2".as_slice() {
        Some(Edition::Two)
    } else {
        None
    }
}

/// Adds the two head lines of a script for this configuration. No script begins with those of editions 3 and 4.
///
/// After `NoMemory` the text may end within them.
pub fn add_head(text: &mut Text, config: &Config) -> Result<(), NoMemory>
    ensures { OnOk result (text.new ≡ text.old ++ head_text config.now) }
{
    text.add(b"pasis ")?;
    text.add_number(u64::from(config.edition()))?;
    text.add(b"\ncluster")?;
    add_field(text, config.n())?;
    add_field(text, config.t())?;
    add_field(text, config.b())?;
    add_field(text, config.qc())?;
    add_field(text, config.m())?;
    add_field(text, config.size())?;
    add_field(text, config.blocks())?;
    text.add_newline()?;
    Ok(())
}

/// Adds a space and a number.
fn add_field(text: &mut Text, number: u32) -> Result<(), NoMemory>
    ensures { OnOk result (text.new ≡ text.old ++ 32 ∷ decimal number) }
{
    text.add_space()?;
    text.add_number(u64::from(number))
}
