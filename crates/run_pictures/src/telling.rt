//! The lines of a script, played once more and told.
ghost use Rattle.std.specs.Prelude.{◌≡◌, map, IfOk, OnOk};
ghost use Rattle.std.specs.List.{AllByRecursion};
ghost use Rattle.wire_forms.specs.Liars.{AreLiars};
ghost use Rattle.event_lines.specs.Lines.{IsEventLine, HasText};
ghost use Rattle.run_pictures.specs.Shown.{line_of, shown_line, Shows};

use crate::replayer::Replayer;
use event_lines::{ReplayLine, add_event};
use history_making::History;
use lists::NoMemory;
use picture_svg::{Picture, Remarks, Row};
use run_teller::{
    Run, Step, Teller, caption_of, columns_of, short_line, short_lines, starting_text,
};
use run_words::Line;
use script_run::World;
use script_text::Replay;
use std::alloc::Global;
use std::collections::BTreeMap;
use text_lines::Text;

/// The picture of a run whose lines have all taken place, and of its report.
pub fn told(
    alloc: Global,
    replay: &Replay,
    world: &World,
    history: &History,
    report: &[u8],
) -> Result<Picture, NoMemory>
    requires liars { AreLiars replay.now.config replay.now.liars }
    requires lines { AllByRecursion (IsEventLine replay.now.config) replay.now.lines }
    ensures { IfOk result
        (Shows replay.now.config replay.now.liars replay.now.lines report.now) }
{
    let marks = marks_of(alloc, history)?;
    let config = &replay.config;
    let lines = replay.lines.as_slice();
    let first = *world.first_stamp();
    let run = Run::of(alloc, config, &replay.liars, world.records(), first, &marks)?;
    let mut teller = Teller::new(run);
    let replayer = Replayer::new(alloc, config, &replay.liars)?;
    let rows = rows_of(alloc, &mut teller, replayer, lines)?;
    let lifelines = columns_of(alloc, config, &replay.liars, lines)?;
    Ok(Picture {
        caption: caption_of(alloc, config)?,
        lifelines,
        rows,
        deeds: teller.end()?,
        report: short_lines(alloc, report)?,
    })
}

/// The mark that the report gives to the stamp of an operation, by the place at which this starts. No two start at one place.
fn marks_of(alloc: Global, history: &History) -> Result<BTreeMap<u64, u32>, NoMemory> {
    let mut marks = BTreeMap::new(alloc);
    for entry in history.entries() {
        if let Some(start) = entry.start {
            marks.insert(start, entry.mark)?;
        }
    }
    Ok(marks)
}

/// The rows of lines, which are played one after the other.
fn rows_of(
    alloc: Global,
    teller: &mut Teller<'_>,
    mut replayer: Replayer,
    lines: &[ReplayLine],
) -> Result<Vec<Row>, NoMemory>
    requires { AllByRecursion (IsEventLine replayer.config) lines.now }
    ensures { IfOk result (λ rows. map line_of rows.items ≡ map shown_line lines.now) }
{
    let mut rows = Vec::new(alloc);
    let mut place = 0u64;
    for line in lines {
        place = place.saturating_add(1);
        rows.push(row_of(alloc, teller, &mut replayer, place, line)?)?;
    }
    Ok(rows)
}

/// The row of a line.
fn row_of(
    alloc: Global,
    teller: &mut Teller<'_>,
    replayer: &mut Replayer,
    place: u64,
    line: &ReplayLine,
) -> Result<Row, NoMemory>
    requires { IsEventLine replayer.now.config line.now }
    ensures line { IfOk result (λ row. line_of row ≡ shown_line line.now) }
    ensures cluster { OnOk result (replayer.new.config ≡ replayer.old.config) }
{
    event_lines::laws::event_lines_are_lines();
    let line_text = shown_text(alloc, line)?;
    let remarks = remarks_of(alloc, teller, replayer, place, line)?;
    Ok(Row {
        line: line_text,
        remarks,
    })
}

/// The text of a line as a picture shows it.
fn shown_text(alloc: Global, line: &ReplayLine) -> Result<Text, NoMemory>
    requires { HasText line.now }
    ensures { IfOk result (λ text. text ≡ shown_line line.now) }
{
    let mut text = Text::new(alloc);
    add_event(alloc, &mut text, line)?;
    short_line(alloc, text.as_slice())
}

/// Plays a line, and tells what is written beside it. One that starts a block step is played as the operation that it starts.
fn remarks_of(
    alloc: Global,
    teller: &mut Teller<'_>,
    replayer: &mut Replayer,
    place: u64,
    line: &ReplayLine,
) -> Result<Remarks, NoMemory>
    requires { IsEventLine replayer.now.config line.now }
    ensures { OnOk result (replayer.new.config ≡ replayer.old.config) }
{
    let before = replayer.pool().len();
    match teller.started_at(place) {
        Some(record) => {
            let text = starting_text(alloc, record)?;
            let started = replayer.start(place, text.as_slice())?;
            teller.tell(&Step {
                place,
                line: started.as_ref(),
                pool: replayer.pool(),
                before,
            })
        }
        None => {
            let took_place = replayer.takes_place(place, line)?;
            teller.tell(&Step {
                place,
                line: plain_if(took_place, line),
                pool: replayer.pool(),
                before,
            })
        }
    }
}

/// The line that is none of the device, if it took place.
fn plain_if(took_place: bool, line: &ReplayLine) -> Option<&Line> {
    match line {
        ReplayLine::Plain(line) if took_place => Some(line),
        _ => None,
    }
}
