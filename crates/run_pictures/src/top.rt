//! From a script to its picture.
ghost use Rattle.std.specs.Prelude.{◌≡◌, ◌≢◌, ◌↔◌, ◌<◌, ◌≤◌, ◌+◌, ◌-◌, ◌^◌, ℕ, [], Err, length, IfOk, IfErr, IsErrOf};
ghost use Rattle.wire_forms.specs.Liars.{AreLiars};
ghost use Rattle.outside_io.specs.Causes.{Rose};
ghost use Rattle.outside_io.specs.Given.{GaveAtMost};
ghost use Rattle.command_texts.specs.Replays.{IsScript, Replays};
ghost use Rattle.command_texts.specs.Texts.{Refuses, GivesAll};
ghost use Rattle.command_texts.specs.declared.refusal.Refusal.{Refusal as Refusals};
ghost use Rattle.command_texts.specs.declared.words.Command.TheVariants.{Replay as TheReplay};
ghost use Rattle.picture_svg.specs.declared.picture.Picture.{Picture as Pictures};
ghost use Rattle.picture_svg.specs.Documents.{IsPictureOf};
ghost use Rattle.run_pictures.specs.Shown.{Depicts, HasTooMany};
ghost use Rattle.run_pictures.specs.Calls.{Draws, StopsFor, Ends};

use crate::status::{MOST_LINES, PictureRefusal, PictureStatus};
use crate::telling::told;
use command_texts::{Command, Refusal, Status, text_of};
use cross_sum::Bytes;
use outside_io::{LIMIT, Sink, Source, read_all, write_all};
use picture_svg::{Picture, svg_of};
use script_run::{World, fits_history, history_of, perform};
use script_text::{Replay, read_replay};
use std::alloc::Global;
use text_lines::Text;

/// The replay that a script spells.
fn replay_of(alloc: Global, input: &Bytes) -> Result<Replay, Refusal>
    ensures script { IfOk result (λ r. IsScript input.now r.config r.liars r.lines) }
    ensures liars { IfOk result (λ r. AreLiars r.config r.liars) }
    ensures refused { IfErr result (λ refusal. Refuses TheReplay input.now refusal) }
{
    Ok(read_replay(alloc, input.as_slice())?)
}

/// The report that `replay` writes for a script.
fn report_of(alloc: Global, input: &Bytes) -> Result<Bytes, Refusal>
    requires { length input.now < 2 ^ 32 }
    ensures replays { IfOk result (λ report. Replays input.now report) }
    ensures refused { IfErr result (λ refusal. Refuses TheReplay input.now refusal) }
{
    let answer = text_of(alloc, Command::Replay, input)?;
    Ok(answer.text)
}

/// The world to which the lines of a script lead.
fn performed(alloc: Global, input: &Bytes) -> Result<World, Refusal>
    ensures few { IfOk result (λ w. w.seen.place < 2 ^ 31 - 1) }
    ensures refused { IfErr result (λ refusal. Refuses TheReplay input.now refusal) }
{
    let replay = replay_of(alloc, input)?;
    match perform(alloc, replay) {
        Ok(world) => Ok(world),
        Err(refusal) => Err(Refusal::from(refusal)),
    }
}

/// The picture of the run of a script's lines, and of the report that `replay` writes for it. A script that `replay` refuses is
/// refused as by it; one that it takes is refused where it has more than 400 event lines.
///
/// A run uses its lines up, so those few are read and run once more.
pub fn picture_of(alloc: Global, input: &Bytes) -> Result<Picture, PictureRefusal>
    requires { length input.now < 2 ^ 32 }
    ensures depicts { IfOk result (λ picture. Depicts input.now picture) }
    ensures refused { (r : Refusals) → IsErrOf result (PictureRefusal.Replay r)
        → Refuses TheReplay input.now r }
    ensures too_many { (lines : ℕ) → IsErrOf result (PictureRefusal.TooManyLines lines)
        → HasTooMany input.now lines }
{
    script_text::laws::replays_are_spelled();
    let report = report_of(alloc, input)?;
    let replay = replay_of(alloc, input)?;
    let lines = replay.lines.len();
    if lines > MOST_LINES {
        return Err(PictureRefusal::TooManyLines(lines));
    }
    let world = performed(alloc, input)?;
    fits_history(&world);
    let history = history_of(alloc, &world)?;
    Ok(told(alloc, &replay, &world, &history, report.as_slice())?)
}

/// The text of a script's picture.
fn drawn(alloc: Global, input: &Bytes) -> Result<Text, PictureRefusal>
    requires { length input.now < 2 ^ 32 }
    ensures drawn { IfOk result (λ text. (picture : Pictures)
        × Depicts input.now picture × IsPictureOf picture text) }
    ensures refused { (r : Refusals) → IsErrOf result (PictureRefusal.Replay r)
        → Refuses TheReplay input.now r }
    ensures too_many { (lines : ℕ) → IsErrOf result (PictureRefusal.TooManyLines lines)
        → HasTooMany input.now lines }
{
    let picture = picture_of(alloc, input)?;
    Ok(svg_of(alloc, &picture)?)
}

/// All that a source gives.
fn input_of<S: Source>(alloc: Global, source: &mut S) -> Result<Bytes, PictureStatus>
    ensures given { IfOk result (λ input.
        GivesAll (S.left source.old) (S.left source.new) input) }
    ensures short { IfOk result (λ input. length input ≤ LIMIT) }
    ensures stops { IfErr result (λ status.
        StopsFor status (S.left source.old) (S.left source.new)) }
    ensures most { GaveAtMost (LIMIT + 1) (S.left source.old) (S.left source.new) }
    ensures read_fault { IsErrOf result (PictureStatus.Replay Status.ReadFault)
        → Rose S.last (S.faults source.old) (S.faults source.new) }
    ensures calm { result ≢ Err (PictureStatus.Replay Status.ReadFault)
        → S.faults source.new ≡ S.faults source.old }
{
    match read_all(alloc, source) {
        Ok(input) => match Bytes::shared(input) {
            Ok(input) => Ok(input),
            Err(_) => Err(PictureStatus::Replay(Status::NoMemory)),
        },
        Err(refusal) => Err(PictureStatus::Replay(Status::of_read(refusal))),
    }
}

/// The text of the picture of what a source gives.
fn text_for<S: Source>(alloc: Global, source: &mut S) -> Result<Text, PictureStatus>
    ensures draws { IfOk result (λ text.
        Draws (S.left source.old) (S.left source.new) text) }
    ensures stops { IfErr result (λ status.
        StopsFor status (S.left source.old) (S.left source.new)) }
    ensures most { GaveAtMost (LIMIT + 1) (S.left source.old) (S.left source.new) }
    ensures read_fault { IsErrOf result (PictureStatus.Replay Status.ReadFault)
        → Rose S.last (S.faults source.old) (S.faults source.new) }
    ensures calm { result ≢ Err (PictureStatus.Replay Status.ReadFault)
        → S.faults source.new ≡ S.faults source.old }
{
    let input = input_of(alloc, source)?;
    match drawn(alloc, &input) {
        Ok(text) => Ok(text),
        Err(refusal) => Err(PictureStatus::of(refusal)),
    }
}

/// Reads a script to its end, makes its whole picture, and only then writes and flushes it. There are no words that it takes.
pub fn draw<S: Source, K: Sink>(
    alloc: Global,
    words: &[String],
    source: &mut S,
    sink: &mut K,
) -> PictureStatus
    ensures bad_words { (result ≡ PictureStatus.Replay Status.BadWords) ↔ (words.now ≢ []) }
    ensures unread { result ≡ PictureStatus.Replay Status.BadWords → source.new ≡ source.old }
    // what was read and written
    ensures ends { words.now ≡ [] → Ends result (S.left source.old) (S.left source.new)
        (K.taken sink.old) (K.taken sink.new) (K.flushed sink.old) (K.flushed sink.new) }
    ensures most { GaveAtMost (LIMIT + 1) (S.left source.old) (S.left source.new) }
    ensures unwritten { result ≢ PictureStatus.Replay Status.Done → result
        ≢ PictureStatus.Replay Status.WriteFault → sink.new ≡ sink.old }
    // faults
    ensures read_fault { result ≡ PictureStatus.Replay Status.ReadFault
        → Rose S.last (S.faults source.old) (S.faults source.new) }
    ensures write_fault { result ≡ PictureStatus.Replay Status.WriteFault
        → Rose K.last (K.faults sink.old) (K.faults sink.new) }
    ensures calm_source { result ≢ PictureStatus.Replay Status.ReadFault
        → S.faults source.new ≡ S.faults source.old }
    ensures calm_sink { result ≢ PictureStatus.Replay Status.WriteFault
        → K.faults sink.new ≡ K.faults sink.old }
{
    if !words.is_empty() {
        return PictureStatus::Replay(Status::BadWords);
    }
    let text = match text_for(alloc, source) {
        Ok(text) => text,
        Err(status) => return status,
    };
    match write_all(sink, text.as_slice()) {
        Ok(()) => PictureStatus::Replay(Status::Done),
        Err(_) => PictureStatus::Replay(Status::WriteFault),
    }
}
