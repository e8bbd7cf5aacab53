//! The script of told lines.

ghost use Rattle.std.specs.Prelude.{◌≡◌, map, IfOk, OnOk};
ghost use Rattle.std.specs.List.{AllByRecursion};
ghost use Rattle.event_lines.specs.Lines.{IsEventLine};
ghost use Rattle.event_lines.specs.declared.line.ReplayLine.TheVariants.{Plain};
ghost use Rattle.script_text.specs.Replays.{AreAscendingLiars, replay_text};
ghost use Rattle.journal_records.specs.Told.{IsTold};

use crate::forms::form_line;
use cross_sum::Bytes;
use event_lines::ReplayLine;
use lists::{ItemList, NoMemory};
use quorum_rules::Config;
use run_words::Line;
use script_text::{Replay, ReplayLines, print_replay};
use std::alloc::Global;
use wire_forms::Liars;

/// The lines as event lines of a script.
fn events_of(alloc: Global, config: &Config, lines: ItemList<Line>) -> Result<ReplayLines, NoMemory>
    requires { AllByRecursion (IsTold config.now) lines }
    ensures lines { IfOk result (λ events. events ≡ map Plain lines) }
    ensures events { IfOk result (λ events. AllByRecursion (IsEventLine config.now) events) }
{
    let mut events = ItemList::new(alloc);
    for line in lines.into_vec() {
        form_line(config, &line);
        events.push(ReplayLine::Plain(line))?;
    }
    Ok(events)
}

/// The replay script of a cluster, of who is declared lying in it, and of lines that tell what threads did. Each of these is an
/// event line; there may be more of them than a script that is read may have.
pub(crate) fn script_of(
    alloc: Global,
    config: Config,
    liars: Liars,
    lines: ItemList<Line>,
) -> Result<Bytes, NoMemory>
    requires liars { AreAscendingLiars config liars }
    requires lines { AllByRecursion (IsTold config) lines }
    ensures text { IfOk result (λ text. text ≡ replay_text config liars (map Plain lines)) }
    ensures events { OnOk result (AllByRecursion (IsEventLine config) (map Plain lines)) }
{
    let lines = events_of(alloc, &config, lines)?;
    let text = print_replay(
        alloc,
        &Replay {
            config,
            liars,
            lines,
        },
    )?;
    Ok(text)
}
