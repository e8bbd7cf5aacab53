//! The texts of a picture, part by part.
#![tactic(auto, using(crate::proofs::Joining::joining))]

ghost use Rattle.std.specs.Prelude.{◌≡◌, ◌+◌, ◌^◌, ◌<◌, ◌++◌, map, string_bytes, OnOk, IfOk};
ghost use Rattle.picture_svg.specs.Texts.{say};
ghost use Rattle.picture_svg.specs.Words.{picture_words, label_words, row_words, rows_words, head_words, heads_words, again_words, report_words, legend_words};

use crate::classes::Class;
use crate::layout::{LABEL_GAP, LINE, Layout, MARGIN, ROW, STAMPS, heads_above};
use crate::legend::Legend;
use crate::picture::{Actor, Lifeline, Picture, Remarks, Row};
use crate::px::{Px, at};
use crate::texts::Texts;
use lists::NoMemory;
use std::alloc::Global;
use text_lines::Text;

/// All texts of a picture.
pub fn texts_of(
    alloc: Global,
    picture: &Picture,
    layout: &Layout,
    legend: &Legend,
) -> Result<Texts, NoMemory>
    ensures { IfOk result (λ texts. texts ≡ picture_words picture.now ++ legend_words legend.now) }
{
    let mut texts = Texts::new(alloc);
    write_all(&mut texts, picture, layout)?;
    legend.write(&mut texts)?;
    Ok(texts)
}

fn write_all(texts: &mut Texts, picture: &Picture, layout: &Layout) -> Result<(), NoMemory>
    ensures { OnOk result (texts.new ≡ texts.old ++ picture_words picture.now) }
{
    let lifelines = picture.lifelines.as_slice();
    let rows = picture.rows.as_slice();
    write_lines(
        texts,
        Class::Caption,
        picture.caption.as_slice(),
        MARGIN + LINE.half(),
    )?;
    write_heads(texts, layout, lifelines, layout.top - Px(6))?;
    write_rows(texts, layout, rows)?;
    write_heads_again(texts, layout, lifelines, rows.len())?;
    write_report(texts, layout, picture.report.as_slice())
}

/// Writes lines one below the other, the first at this height.
fn write_lines(texts: &mut Texts, class: Class, lines: &[Text], top: Px) -> Result<(), NoMemory>
    ensures { OnOk result (texts.new ≡ texts.old ++ map (say class) lines.now) }
{
    let mut y = top;
    for line in lines {
        texts.add(class, at(MARGIN, y), line.as_slice())?;
        y = y + LINE;
    }
    Ok(())
}

/// Writes the rows.
fn write_rows(texts: &mut Texts, layout: &Layout, rows: &[Row]) -> Result<(), NoMemory>
    ensures { OnOk result (texts.new ≡ texts.old ++ rows_words 1 rows.now) }
{
    for (number, row) in rows.iter().enumerate() {
        let y = layout.y(number) + Px(4);
        write_row(texts, layout, number as u64, row, y)?;
    }
    Ok(())
}

/// Writes a row: its place, its line, and the remarks.
fn write_row(
    texts: &mut Texts,
    layout: &Layout,
    number: u64,
    row: &Row,
    y: Px,
) -> Result<(), NoMemory>
    requires { number < 2 ^ 63 }
    ensures { OnOk result (texts.new ≡ texts.old ++ row_words (number + 1) row.now) }
{
    texts.add_number(Class::Place, at(layout.place, y), number + 1)?;
    texts.add(Class::Line, at(layout.line, y), row.line.as_slice())?;
    write_label(texts, layout, &row.remarks, y)?;
    texts.add_some(Class::Note, at(layout.note, y), row.remarks.note.as_bytes())
}

/// Writes what stands beside a client's bar: one line, or two, above and below the row's text.
fn write_label(texts: &mut Texts, layout: &Layout, remarks: &Remarks, y: Px) -> Result<(), NoMemory>
    ensures { OnOk result (texts.new
        ≡ texts.old ++ label_words (string_bytes remarks.now.first) (string_bytes remarks.now.second)) }
{
    let x = layout.x(Actor::Client(remarks.client)) - LABEL_GAP;
    let shift = if remarks.second.is_empty() {
        Px(0)
    } else {
        Px(7)
    };
    texts.add_some(Class::Label, at(x, y - shift), remarks.first.as_bytes())?;
    texts.add_some(Class::Label, at(x, y + shift), remarks.second.as_bytes())
}

/// Writes the names of those who take part, at this height.
fn write_heads(
    texts: &mut Texts,
    layout: &Layout,
    lifelines: &[Lifeline],
    y: Px,
) -> Result<(), NoMemory>
    ensures { OnOk result (texts.new ≡ texts.old ++ heads_words lifelines.now) }
{
    for lifeline in lifelines {
        write_head(texts, layout, *lifeline, y)?;
    }
    Ok(())
}

/// Writes the name of one who takes part, and above it that it lies.
fn write_head(texts: &mut Texts, layout: &Layout, lifeline: Lifeline, y: Px) -> Result<(), NoMemory>
    ensures { OnOk result (texts.new ≡ texts.old ++ head_words lifeline) }
{
    let x = layout.x(lifeline.actor);
    texts.add_name(Class::Head, at(x, y), lifeline.actor)?;
    if lifeline.is_liar {
        let above = at(x, y - LINE.half() - Px(4));
        texts.add(Class::Lies, above, b"lies")?;
    }
    Ok(())
}

/// Writes the names again where they stand between so many rows.
fn write_heads_again(
    texts: &mut Texts,
    layout: &Layout,
    lifelines: &[Lifeline],
    rows: usize,
) -> Result<(), NoMemory>
    ensures { OnOk result (texts.new ≡ texts.old ++ again_words rows lifelines.now) }
{
    for band in 0..heads_above(rows.saturating_sub(1)) {
        write_heads(texts, layout, lifelines, layout.band(band) - Px(6))?;
    }
    Ok(())
}

/// Writes the report of the run, and what a reader must know of its stamps.
fn write_report(texts: &mut Texts, layout: &Layout, report: &[Text]) -> Result<(), NoMemory>
    ensures { OnOk result (texts.new ≡ texts.old ++ report_words report.now) }
{
    let title = at(MARGIN, layout.report);
    texts.add(Class::Title, title, b"report")?;
    write_lines(texts, Class::Report, report, title.y + LINE)?;
    texts.add(Class::Caption, at(MARGIN, layout.stamps), STAMPS)
}
