//! The lines of journals as a script.

ghost use Rattle.std.specs.Prelude.{IsTrue};
ghost use Rattle.message_texts.specs.Texts.{HasLimits, HasShort, HasShortRequest};
ghost use Rattle.event_lines.specs.declared.line.ReplayLine.TheVariants as lines;
ghost use Rattle.event_lines.specs.Lines.{HasText};

use crate::sheet::Sheet;
use crate::unmade::Unmade;
use event_lines::{ReplayLine, add_event};
use journals::Journals;
use merge_trace::{MergedLines, can_merge, merge};
use run_words::Line;
use script_text::{Replay, read_replay};
use std::alloc::Global;
use text_lines::Text;
use wire_forms::{Body, Reply, Request, Version};

/// The lines that the journals merge into, in the cluster and with the liars of a script's head. None where they can't be
/// merged.
pub fn lines_of(alloc: Global, head: &[u8], sheet: Sheet) -> Result<Option<Text>, Unmade> {
    let Replay { config, liars, .. } = read_replay(alloc, head)?;
    let (nodes, desks) = sheet.lists();
    let journals = Journals {
        config,
        liars,
        nodes,
        desks,
    };
    if !can_merge(alloc, &journals)? {
        return Ok(None);
    }
    let MergedLines { lines, .. } = merge(alloc, &journals)?;
    let mut text = Text::new(alloc);
    for line in lines.into_vec() {
        add_line(alloc, &mut text, line)?;
    }
    Ok(Some(text))
}

fn add_line(alloc: Global, text: &mut Text, line: Line) -> Result<(), Unmade> {
    if !has_text(&line) {
        return Err(Unmade);
    }
    add_event(alloc, text, &ReplayLine::Plain(line))?;
    text.add_newline()?;
    Ok(())
}

// Whether the line has a text: the strings of its message are within the limits of messages' texts.
fn has_text(line: &Line) -> bool
    ensures { IsTrue result → HasText (lines.Plain line.now) }
{
    match line {
        Line::Lie { message } | Line::Tell { message } | Line::Poke { message } => {
            is_short(&message.get().body)
        }
        Line::Restart { .. } => false,
        _ => true,
    }
}

fn is_short(body: &Body) -> bool
    ensures { IsTrue result → HasLimits body.now }
{
    match body {
        Body::Ask(ask) => is_short_request(&ask.request),
        Body::Answer(Reply::Found(version)) => is_short_version(version),
        Body::Answer(_) => true,
    }
}

fn is_short_request(request: &Request) -> bool
    ensures { IsTrue result → HasShortRequest request.now }
{
    match request {
        Request::Write(version) => is_short_version(version),
        Request::Time | Request::Read(_) => true,
    }
}

fn is_short_version(version: &Version) -> bool
    ensures { IsTrue result → HasShort version.now }
{
    version.sum.len() <= 32 && version.fragment.len() <= 16_384
}
