//! Replay scripts.
ghost use Rattle.std.specs.Prelude.{◌≡◌, ◌<◌, IfOk, IfErr, OnOk};
ghost use Rattle.std.specs.List.{AllByRecursion};
ghost use Rattle.line_forms.specs.Tables.{Gives};
ghost use Rattle.line_forms.specs.Texts.{IsFaultless, IsRefusal};
ghost use Rattle.event_lines.specs.Lines.{event_text, IsEventLine};
ghost use Rattle.script_text.specs.Replays.{AreAscendingLiars, IsReplay, Spells, event_limit, replay_script, replay_text};
ghost use Rattle.script_text.specs.Reading.{FrontRead, later_cause};

use crate::liars::{Front, add_liars, is_liar_line, read_liars};
use cross_sum::Bytes;
use event_lines::{ReplayLine, add_event, read_event};
use line_forms::{Cause, LineRefusal, ScriptRefusal, add_head, read_head, refused};
use lists::{ItemList, NoMemory};
use quorum_rules::Config;
use std::alloc::Global;
use text_lines::{Text, cut};
use wire_forms::Liars;

/// The greatest number of event lines of any script.
const MOST_LINES: u64 = 200_000;

/// Event lines in their order.
pub type ReplayLines = ItemList<ReplayLine>;

/// What a replay script says: the cluster, who is declared lying, and what takes place.
#[derive(Drop)]
pub struct Replay {
    pub config: Config,
    pub liars: Liars,
    pub lines: ReplayLines,
}

/// The replay that a text spells.
///
/// The text is the two head lines of a script, a line for each liar in any order, and then the event
/// lines, of which there may be as many as 200,000 and `1000000000 / (n * (size + 32n + 128))` allow.
///
/// A text is refused with the first line that has a cause: on a liar line `UnknownWord` (also where an
/// event line stands before it), `WrongCount`, `BadNumber`, `OutOfRange`, `Twice` or `TooManyLiars`, on
/// an event line a cause of `read_event`, or else `TooManyLines`.
pub fn read_replay(alloc: Global, text: &[u8]) -> Result<Replay, ScriptRefusal>
    // What is read is spelled so, and no line of it has a cause.
    ensures replay { IfOk result (λ r. IsReplay r.config r.liars r.lines) }
    ensures spelled { IfOk result (λ r. Spells text.now r.config r.liars r.lines) }
    ensures faultless { OnOk result (IsFaultless replay_script text.now) }
    // A refusal is the first line that has a cause, and its first cause.
    ensures fault { IfErr result (IsRefusal replay_script text.now) }
{
    let (config, at) = read_head(alloc, text)?;
    let front = read_liars(alloc, config, text, at)?;
    read_events(alloc, front, text)
}

fn read_events(alloc: Global, front: Front, text: &[u8]) -> Result<Replay, ScriptRefusal>
    requires { FrontRead text.now front }
    ensures replay { IfOk result (λ r. IsReplay r.config r.liars r.lines) }
    ensures spelled { IfOk result (λ r. Spells text.now r.config r.liars r.lines) }
    ensures faultless { OnOk result (IsFaultless replay_script text.now) }
    ensures fault { IfErr result (IsRefusal replay_script text.now) }
{
    let Front {
        config,
        liars,
        at,
        number: first,
    } = front;
    let mut lines = ItemList::new(alloc);
    let mut rest = &text[at..];
    let mut number = first;
    while !rest.is_empty() {
        let Some((line, after)) = cut(rest, b'\n') else {
            return Err(refused(number, LineRefusal::Cause(Cause::Cut)));
        };
        let event = match next_event(alloc, &config, lines.len(), line) {
            Ok(event) => event,
            Err(refusal) => return Err(refused(number, refusal)),
        };
        lines.push(event)?;
        number += 1;
        rest = after;
    }
    Ok(Replay {
        config,
        liars,
        lines,
    })
}

// The event line that a line spells after the liar lines and so many event lines.
fn next_event(
    alloc: Global,
    config: &Config,
    before: usize,
    line: &[u8],
) -> Result<ReplayLine, LineRefusal>
    ensures { Gives (λ event. IsEventLine config.now event × (event_text event ≡ line.now)
        × (before < event_limit config.now)) (later_cause config.now before line.now) result }
{
    if is_liar_line(line) {
        return Err(LineRefusal::Cause(Cause::UnknownWord));
    }
    let event = read_event(alloc, config, line)?;
    if before as u64 >= limit_of(config) {
        return Err(LineRefusal::Cause(Cause::TooManyLines));
    }
    Ok(event)
}

// How many event lines a script of this cluster may have.
fn limit_of(config: &Config) -> u64
    ensures { result ≡ event_limit config.now }
{
    let n = u64::from(config.n());
    let size = u64::from(config.size());
    MOST_LINES.min(1_000_000_000 / (n * (size + 32 * n + 128)))
}

/// The text of a replay, whose liar lines ascend, nodes first. `NoMemory` is its only refusal.
///
/// A replay of any number of lines has one, and so has one of a cluster of edition 3, though none beyond the limit and
/// none of that edition is read back.
pub fn print_replay(alloc: Global, replay: &Replay) -> Result<Bytes, NoMemory>
    requires liars { AreAscendingLiars replay.now.config replay.now.liars }
    requires lines { AllByRecursion (IsEventLine replay.now.config) replay.now.lines }
    ensures { IfOk result (λ text.
        text ≡ replay_text replay.now.config replay.now.liars replay.now.lines) }
{
    let mut text = Text::new(alloc);
    add_head(&mut text, &replay.config)?;
    add_liars(&mut text, &replay.config, &replay.liars)?;
    for line in replay.lines.as_slice() {
        add_event(alloc, &mut text, line)?;
        text.add_newline()?;
    }
    text.into_bytes()
}
