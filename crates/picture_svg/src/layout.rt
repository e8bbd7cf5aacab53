//! Where everything stands: columns by the widths of their texts, rows of one height.
ghost use Rattle.std.specs.Prelude.{◌≡◌, ◌≢◌, ◌↔◌, ◌/◌, ◌%◌, IsTrue};

use crate::picture::{Actor, Picture, Remarks};
use crate::px::{Px, width_of};
use lists::NoMemory;
use std::alloc::Global;
use std::collections::BTreeMap;
use text_lines::Text;

/// How high a row is.
pub const ROW: Px = Px(34);

/// How high a line of text is.
pub const LINE: Px = Px(18);

/// How many rows stand below the heads until these are drawn again.
const ROWS: usize = 40;

/// What is left free round the picture, and between its columns.
pub const MARGIN: Px = Px(16);

/// How far a client's label is from its lifeline.
pub const LABEL_GAP: Px = Px(11);

/// What a reader must know of stamps.
pub const STAMPS: &[u8] =
    b"a stamp is TIME.CLIENT.MARK as in the report, or ends with its verifier's first digits where the report hasn't it";

/// How wide a node's column is.
const NODE: Px = Px(58);

/// How far the nodes are from the clients.
const CHANNEL: Px = Px(32);

/// Where the columns of those who take part are.
#[derive(Drop)]
pub struct Columns {
    lifelines: BTreeMap<Actor, Px>,
    /// Where messages leave the clients' columns.
    pub channel: Px,
    /// Where the last column ends.
    end: Px,
}

impl Columns {
    /// The columns of a picture from here on, each client's as wide as its widest label needs.
    fn of(alloc: Global, picture: &Picture, from: Px) -> Result<Columns, NoMemory> {
        let mut columns = Columns {
            lifelines: BTreeMap::new(alloc),
            channel: from,
            end: from,
        };
        columns.add_all(picture, &label_widths(alloc, picture)?)?;
        Ok(columns)
    }

    fn add_all(&mut self, picture: &Picture, labels: &BTreeMap<u32, Px>) -> Result<(), NoMemory> {
        for lifeline in &picture.lifelines {
            match lifeline.actor {
                Actor::Client(client) => {
                    let label = labels.get(&client).copied().unwrap_or(Px(0));
                    self.add_client(lifeline.actor, label)?;
                }
                Actor::Node(_) => self.add_node(lifeline.actor)?,
            }
        }
        Ok(())
    }

    fn add_client(&mut self, client: Actor, label: Px) -> Result<(), NoMemory> {
        let half = Px(44);
        let x = self.end + (label + LABEL_GAP).max(half);
        self.lifelines.insert(client, x)?;
        self.end = x + half;
        self.channel = self.end;
        Ok(())
    }

    fn add_node(&mut self, node: Actor) -> Result<(), NoMemory> {
        let x = self.end + CHANNEL + NODE.half();
        self.lifelines.insert(node, x)?;
        self.end = self.end + NODE;
        Ok(())
    }
}

/// Where the columns and the rows of a picture are.
#[derive(Drop)]
pub struct Layout {
    pub columns: Columns,
    /// Where the numbers of the places end.
    pub place: Px,
    /// Where the lines of the script begin.
    pub line: Px,
    /// Where the notes begin.
    pub note: Px,
    /// Where the lifelines begin.
    pub top: Px,
    /// Where they end.
    pub end: Px,
    /// The height of the report's title.
    pub report: Px,
    /// The height of the line about stamps.
    pub stamps: Px,
    /// How wide the picture is: as wide as the widest of its parts.
    pub width: Px,
}

impl Layout {
    pub fn of(alloc: Global, picture: &Picture) -> Result<Layout, NoMemory> {
        let place = MARGIN + width_of(3);
        let line = place + MARGIN;
        let (lines, notes) = widest_of_rows(picture);
        let columns = Columns::of(alloc, picture, line + lines + MARGIN)?;
        let note = columns.end + CHANNEL + MARGIN;
        let top = MARGIN + LINE.times(picture.caption.len()) + ROW;
        let end = top + ROW.times(rows_with_heads(picture.rows.len())) + MARGIN;
        let report = end + LINE * 2;
        Ok(Layout {
            place,
            line,
            note,
            top,
            end,
            report,
            stamps: report + LINE.times(picture.report.len()) + LINE * 2,
            width: (note + notes + MARGIN).max(width_of_lines(picture)),
            columns,
        })
    }

    /// Where the lifeline of one who takes part is.
    pub fn x(&self, actor: Actor) -> Px {
        match self.columns.lifelines.get(&actor) {
            Some(x) => *x,
            None => self.columns.channel,
        }
    }

    /// Where the ground ends of the heads that stand between rows for this time, from 0.
    pub fn band(&self, band: usize) -> Px {
        self.y(band.saturating_add(1).saturating_mul(ROWS)) - ROW.half()
    }

    /// The middle of a row.
    pub fn y(&self, row: usize) -> Px {
        let above = row.saturating_add(heads_above(row));
        self.top + ROW.times(above) + ROW.half() + MARGIN.half()
    }
}

/// Whether the heads are drawn again right above a row.
pub fn has_heads(row: usize) -> bool
    ensures { IsTrue result ↔ ((row ≢ 0) × (row % ROWS ≡ 0)) }
{
    row != 0 && row % ROWS == 0
}

/// How often the heads are drawn again between the first row and this one.
pub fn heads_above(row: usize) -> usize
    ensures { result ≡ row / ROWS }
{
    row / ROWS
}

/// So many rows, and the heads that are drawn again between them.
fn rows_with_heads(rows: usize) -> usize {
    rows.saturating_add(heads_above(rows.saturating_sub(1)))
}

/// How wide the lines above and below the rows are, with their margins.
fn width_of_lines(picture: &Picture) -> Px {
    let texts = widest(&picture.caption).max(widest(&picture.report));
    texts.max(width_of(STAMPS.len())) + MARGIN * 2
}

/// How wide the widest of these texts is.
fn widest(texts: &[Text]) -> Px {
    let mut width = Px(0);
    for text in texts {
        width = width.max(width_of(text.len()));
    }
    width
}

/// How wide the widest line and the widest note of the rows are.
fn widest_of_rows(picture: &Picture) -> (Px, Px) {
    let mut line = Px(0);
    let mut note = Px(0);
    for row in &picture.rows {
        line = line.max(width_of(row.line.len()));
        note = note.max(width_of(row.remarks.note.len()));
    }
    (line, note)
}

/// How wide the widest text beside each client's bar is.
fn label_widths(alloc: Global, picture: &Picture) -> Result<BTreeMap<u32, Px>, NoMemory> {
    let mut widths = BTreeMap::new(alloc);
    for row in &picture.rows {
        widen(&mut widths, &row.remarks)?;
    }
    Ok(widths)
}

/// Makes room for what is written in a row beside its client's bar.
fn widen(widths: &mut BTreeMap<u32, Px>, remarks: &Remarks) -> Result<(), NoMemory> {
    let before = widths.get(&remarks.client).copied().unwrap_or(Px(0));
    let texts = width_of(remarks.first.len().max(remarks.second.len()));
    widths.insert(remarks.client, before.max(texts))?;
    Ok(())
}
