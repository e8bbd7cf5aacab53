//! Texts of histories, read back.
#![tactic(auto, using(text_lines::proofs::lemmas::Spelled::spelled, std::proofs::lemmas::Grind::common_steps))]

ghost use Rattle.std.specs.Prelude.{◌≡◌, ℕ, List, true, [], ◌+◌, ◌<◌, ◌^◌, length, IfOk, IfErr, OnOk};
ghost use Rattle.text_lines.specs.Lines.{fields_of, texts};
ghost use Rattle.line_forms.specs.Tables.{Gives};
ghost use Rattle.line_forms.specs.Texts.{IsFault, IsFaultless, IsRefusal, ReadsTo};
ghost use Rattle.history_book.specs.Reports.{report_text};
ghost use Rattle.history_book.specs.ReportTexts.{begins_with_digit as begins_with_digit_of, line_cause, IsReport, has_end, report};
ghost use Rattle.history_book.specs.ReportLines.{line_fields, MayStand, IsToldBy, IsAdded, missing_at};

use crate::end_line::counts_in;
use crate::entry_line::entry_in;
use crate::spent_line::spent_in;
use history_making::{Counts, Entry, History, Spent};
use line_forms::{Cause, LineRefusal, ScriptFault, ScriptRefusal, needed_line, refused};
use lists::{ItemList, NoMemory};
use std::alloc::Global;
use text_lines::fields;

/// A line of a report.
#[derive(Drop)]
enum ReportLine {
    Entry(Entry),
    Spent(Spent),
    End(Counts),
}

fn begins_with_digit(word: &[u8]) -> bool
    ensures { result ≡ begins_with_digit_of word.now }
{
    match word.first() {
        Some(first) => *first >= b'0' && *first <= b'9',
        None => false,
    }
}

/// What a line tells after these entries and spent writes.
fn line_in(
    alloc: Global,
    entries: &[Entry],
    spent: &[Spent],
    fields: &[&[u8]],
) -> Result<ReportLine, LineRefusal>
    ensures { Gives
        (λ told. (line_fields told ≡ texts fields.now) × MayStand entries.now spent.now told
        × IsToldBy (texts fields.now) told)
        (line_cause entries.now spent.now (texts fields.now)) result }
{
    let Some(word) = fields.first() else {
        return Err(LineRefusal::Cause(Cause::UnknownWord));
    };
    if begins_with_digit(word) {
        Ok(ReportLine::Entry(entry_in(alloc, entries, spent, fields)?))
    } else if *word == b"spent".as_slice() {
        Ok(ReportLine::Spent(spent_in(spent, fields)?))
    } else if *word == b"end".as_slice() {
        Ok(ReportLine::End(counts_in(entries, spent, fields)?))
    } else {
        Err(LineRefusal::Cause(Cause::UnknownWord))
    }
}

/// What a line tells after these entries and spent writes.
fn read_line(
    alloc: Global,
    entries: &[Entry],
    spent: &[Spent],
    line: &[u8],
) -> Result<ReportLine, LineRefusal>
    ensures { Gives
        (λ told. (line_fields told ≡ fields_of line.now) × MayStand entries.now spent.now told
        × IsToldBy (fields_of line.now) told)
        (line_cause entries.now spent.now (fields_of line.now)) result }
{
    let fields = fields(alloc, line)?;
    line_in(alloc, entries, spent, fields.as_slice())
}

/// Adds what a line tells. An end line adds nothing, and its counts are given back.
fn add_line(
    entries: &mut ItemList<Entry>,
    spent: &mut ItemList<Spent>,
    told: ReportLine,
) -> Result<Option<Counts>, NoMemory>
    ensures { IfOk result (IsAdded told entries.old spent.old entries.new spent.new) }
{
    match told {
        ReportLine::Entry(entry) => {
            entries.push(entry)?;
            Ok(None)
        }
        ReportLine::Spent(other) => {
            spent.push(other)?;
            Ok(None)
        }
        ReportLine::End(counts) => Ok(Some(counts)),
    }
}

/// The cause where a text ends and a line with this number is needed.
fn missing_line(number: u64) -> Cause
    ensures { result ≡ missing_at number }
{
    if number == 1 {
        Cause::Empty
    } else {
        Cause::MissingLine
    }
}

/// Nothing may be left after the end line. The next line has this number.
fn nothing_after(rest: &[u8], number: u64) -> Result<(), ScriptFault>
    ensures ok { OnOk result (rest.now ≡ []) }
    ensures err { IfErr result (λ fault. (text : List ℕ) (lines : List (List ℕ))
        → ReadsTo report text lines rest.now → has_end lines ≡ true
        → number ≡ length lines + 1 → IsFault report text fault.line fault.cause) }
{
    if rest.is_empty() {
        return Ok(());
    }
    // Something is left, so a line without a newline is the only fault that comes here.
    needed_line(rest, number, Cause::MissingLine)?;
    Err(ScriptFault {
        line: number,
        cause: Cause::UnknownWord,
    })
}

/// The history that a text tells.
///
/// The text is a line for each entry, one for each spent write, and one with the counts, as `print` writes them. A refusal is
/// the first line that has a cause, and its first cause.
pub fn read(alloc: Global, text: &[u8]) -> Result<History, ScriptRefusal>
    requires { length text.now < 2 ^ 32 }
    ensures report { IfOk result (λ history. IsReport history × (text.now ≡ report_text history)) }
    ensures faultless { OnOk result (IsFaultless report text.now) }
    ensures fault { IfErr result (IsRefusal report text.now) }
{
    let mut entries = ItemList::new(alloc);
    let mut spent = ItemList::new(alloc);
    let mut rest = text;
    let mut number = 1;
    loop {
        let (line, after) = needed_line(rest, number, missing_line(number))?;
        let told = match read_line(alloc, entries.as_slice(), spent.as_slice(), line) {
            Ok(told) => told,
            Err(refusal) => return Err(refused(number, refusal)),
        };
        number += 1;
        if let Some(counts) = add_line(&mut entries, &mut spent, told)? {
            nothing_after(after, number)?;
            return Ok(History::new(entries, spent, counts));
        }
        rest = after;
    }
}
