//! The legend: what the signs of a picture mean, for those that it has.
#![tactic(auto, using(crate::proofs::Joining::joining))]

ghost use Rattle.std.specs.Prelude.{◌≡◌, ◌++◌, OnOk};
ghost use Rattle.picture_svg.specs.Words.{legend_words};

use crate::arrows::{draw_lost, draw_unheard};
use crate::classes::Class;
use crate::layout::{LINE, Layout, MARGIN};
use crate::lives::{class_of_bar, draw_sign};
use crate::picture::{Actor, Arrow, Fate, PhaseKind, Picture, Sign};
use crate::px::{Point, Px, at, width_of};
use crate::shapes::Shapes;
use crate::texts::Texts;
use lists::NoMemory;
use std::alloc::Global;

/// How wide the sample of an item is, with what is left free beside it.
const SAMPLE: Px = Px(44);

/// How far an item is from the next.
const GAP: Px = Px(24);

/// What the legend explains.
#[derive(Clone, Copy)]
enum Item {
    Ask,
    Answer,
    Lie,
    Stale,
    Lost,
    NeverGiven,
    Phase(PhaseKind),
    Unended,
    Sign(Sign),
}

/// The items of a legend in their order, each with its words.
const ITEMS: [(Item, &'static [u8]); 15] = [
    (Item::Ask, b"asks"),
    (Item::Answer, b"answers"),
    (Item::Lie, b"told by a liar"),
    (Item::Stale, b"heard, changes nothing"),
    (Item::Lost, b"lost"),
    (Item::NeverGiven, b"sent, never given or heard"),
    (Item::Phase(PhaseKind::Times), b"a write asks for times"),
    (Item::Phase(PhaseKind::Store), b"a write stores"),
    (Item::Phase(PhaseKind::Round), b"a read asks for versions"),
    (Item::Phase(PhaseKind::Repair), b"a read repairs"),
    (Item::Unended, b"an operation that never ended"),
    (Item::Sign(Sign::Holds), b"holds the version"),
    (Item::Sign(Sign::Prune), b"drops old versions"),
    (Item::Sign(Sign::Crash), b"crashes"),
    (Item::Sign(Sign::Back), b"is back"),
];

/// Whether a picture has what the item explains.
fn is_in(picture: &Picture, item: Item) -> bool {
    match item {
        Item::Phase(work) => picture.deeds.stretches.iter().any(|it| it.work == work),
        Item::Unended => picture.deeds.stretches.iter().any(|it| it.is_open),
        Item::Sign(sign) => picture.deeds.marks.iter().any(|it| it.sign == sign),
        _ => picture.deeds.arrows.iter().any(|it| explains(item, it)),
    }
}

/// Whether an item explains an arrow.
fn explains(item: Item, arrow: &Arrow) -> bool {
    match item {
        Item::Ask => matches!((arrow.fate, arrow.from), (Fate::Arrived, Actor::Client(_))),
        Item::Answer => matches!((arrow.fate, arrow.from), (Fate::Arrived, Actor::Node(_))),
        Item::Lie => arrow.is_lie,
        Item::Stale => matches!(arrow.fate, Fate::Stale),
        Item::Lost => matches!(arrow.fate, Fate::Lost),
        Item::NeverGiven => matches!(arrow.fate, Fate::NeverGiven),
        Item::Phase(_) | Item::Unended | Item::Sign(_) => false,
    }
}

/// Draws what an item looks like, in so much room.
fn draw_sample(shapes: &mut Shapes, item: Item, point: Point) -> Result<(), NoMemory> {
    let Point { x, y } = point;
    let right = at(x + Px(34), y);
    match item {
        Item::Ask => shapes.line(Class::Ask, point, right),
        Item::Answer => shapes.line(Class::Answer, right, point),
        Item::Lie => shapes.line(Class::AnswerLie, right, point),
        Item::Stale => shapes.line(Class::Stale, right, point),
        Item::Lost => draw_lost(shapes, Class::Lost, point, at(right.x - Px(4), y)),
        Item::NeverGiven => draw_unheard(shapes, Class::Never, point, at(right.x - Px(3), y)),
        Item::Phase(work) => draw_bar(shapes, class_of_bar(work, false), point),
        Item::Unended => draw_bar(shapes, Class::StoreOpen, point),
        Item::Sign(sign) => draw_sign(shapes, sign, at(x + Px(17), y)),
    }
}

/// Draws a piece of a bar in the room of a sample.
fn draw_bar(shapes: &mut Shapes, class: Class, point: Point) -> Result<(), NoMemory> {
    let Point { x, y } = point;
    shapes.rect(class, at(x + Px(12), y - Px(6)), at(x + Px(22), y + Px(6)))
}

/// An item where it stands.
#[derive(Clone, Copy)]
struct Entry {
    item: Item,
    words: &'static [u8],
    point: Point,
}

/// The items of a picture.
#[derive(Drop)]
pub struct Legend {
    entries: Vec<Entry>,
    /// Where the next item stands, if the line has room for it.
    next: Point,
}

impl Legend {
    /// The legend of a picture: a line of items below the one about stamps, and more where they don't fit.
    pub fn of(alloc: Global, picture: &Picture, layout: &Layout) -> Result<Legend, NoMemory> {
        let mut legend = Legend {
            entries: Vec::new(alloc),
            next: at(MARGIN, layout.stamps + LINE),
        };
        legend.add_items(picture, layout.width)?;
        Ok(legend)
    }

    /// Adds the items that a picture has, in lines that end before the right.
    fn add_items(&mut self, picture: &Picture, right: Px) -> Result<(), NoMemory> {
        for (item, words) in &ITEMS {
            if is_in(picture, *item) {
                self.add(*item, *words, right)?;
            }
        }
        Ok(())
    }

    fn add(&mut self, item: Item, words: &'static [u8], right: Px) -> Result<(), NoMemory> {
        let width = SAMPLE + width_of(words.len()) + GAP;
        if self.next.x + width > right && self.next.x > MARGIN {
            self.next = at(MARGIN, self.next.y + LINE);
        }
        let point = self.next;
        self.entries.push(Entry { item, words, point })?;
        self.next = at(point.x + width, point.y);
        Ok(())
    }

    /// The height of its last line.
    pub fn end(&self) -> Px {
        self.next.y
    }

    /// Draws what its items look like.
    pub fn draw(&self, shapes: &mut Shapes) -> Result<(), NoMemory> {
        for Entry { item, point, .. } in &self.entries {
            draw_sample(shapes, *item, at(point.x, point.y - Px(4)))?;
        }
        Ok(())
    }

    /// Writes what they mean.
    pub fn write(&self, texts: &mut Texts) -> Result<(), NoMemory>
        ensures { OnOk result (texts.new ≡ texts.old ++ legend_words self.now) }
    {
        for entry in self.entries.as_slice() {
            let point = at(entry.point.x + SAMPLE, entry.point.y);
            texts.add(Class::Legend, point, entry.words)?;
        }
        Ok(())
    }
}
