//! How messages are drawn.
use crate::classes::Class;
use crate::drawing::Drawing;
use crate::layout::Layout;
use crate::picture::{Actor, Arrow, Fate};
use crate::px::{Point, Px, at};
use crate::shapes::Shapes;
use lists::NoMemory;

/// How far the messages of one row are above and below its middle.
const LANE: Px = Px(6);

/// How far below the middle of its row a message leaves that arrives later or never.
const LATER: Px = Px(12);

/// Half the width of a client's bar, and a little more.
const BAR: Px = Px(6);

/// How far before its end a message is lost.
const SHORT: Px = Px(12);

/// How a message looks.
fn class_of(arrow: &Arrow) -> Class {
    let is_ask = matches!(arrow.from, Actor::Client(_));
    match (arrow.fate, arrow.is_lie) {
        (Fate::Arrived, false) if is_ask => Class::Ask,
        (Fate::Arrived, false) => Class::Answer,
        (Fate::Arrived, true) if is_ask => Class::AskLie,
        (Fate::Arrived, true) => Class::AnswerLie,
        (Fate::Stale, false) => Class::Stale,
        (Fate::Stale, true) => Class::StaleLie,
        (Fate::Lost, false) => Class::Lost,
        (Fate::Lost, true) => Class::LostLie,
        (Fate::NeverGiven, false) => Class::Never,
        (Fate::NeverGiven, true) => Class::NeverLie,
    }
}

/// The way of a message: points of its arrow, for each that may become of it.
#[derive(Clone, Copy)]
struct Way {
    /// Where it leaves in the row in which it arrives, and where it arrives.
    start: Point,
    end: Point,
    /// Where it leaves in an earlier row, and where it bends then.
    leave: Point,
    bend: Point,
    /// Where it is lost, and where it ends that is never given or heard.
    lost: Point,
    unheard: Point,
}

/// The way of an ask from its client to its node.
fn way_of_ask(layout: &Layout, arrow: &Arrow) -> Way {
    let client = layout.x(arrow.from) + BAR;
    let node = layout.x(arrow.to);
    let leave = layout.y(arrow.sent) + LATER;
    let got = layout.y(arrow.got) - LANE;
    Way {
        start: at(client, got),
        end: at(node - Px(1), got),
        leave: at(client, leave),
        bend: at(layout.columns.channel, leave),
        lost: at(node - SHORT, got),
        unheard: at(node - SHORT, leave),
    }
}

/// The way of an answer from its node to its client.
fn way_of_answer(layout: &Layout, arrow: &Arrow) -> Way {
    let node = layout.x(arrow.from);
    let client = layout.x(arrow.to) + BAR;
    let leave = layout.y(arrow.sent) + LANE;
    let got = layout.y(arrow.got) + LANE;
    Way {
        start: at(node, got),
        end: at(client, got),
        leave: at(node, leave),
        bend: at(layout.columns.channel, got),
        lost: at(client + SHORT, got),
        unheard: at(node - SHORT - SHORT, leave),
    }
}

impl<'p> Drawing<'p> {
    /// Draws a message.
    pub(crate) fn draw_arrow(&mut self, arrow: &Arrow) -> Result<(), NoMemory> {
        let way = match arrow.from {
            Actor::Client(_) => way_of_ask(self.layout, arrow),
            Actor::Node(_) => way_of_answer(self.layout, arrow),
        };
        let class = class_of(arrow);
        let shapes = &mut self.shapes;
        match arrow.fate {
            Fate::NeverGiven => draw_unheard(shapes, class, way.leave, way.unheard),
            Fate::Lost => draw_lost(shapes, class, way.start, way.lost),
            Fate::Arrived | Fate::Stale if arrow.sent == arrow.got => {
                shapes.line(class, way.start, way.end)
            }
            Fate::Arrived | Fate::Stale => shapes.bend(class, way.leave, way.bend, way.end),
        }
    }
}

/// Draws a message that was lost at a point.
pub fn draw_lost(
    shapes: &mut Shapes,
    class: Class,
    from: Point,
    to: Point,
) -> Result<(), NoMemory> {
    shapes.line(class, from, to)?;
    shapes.cross(Class::Cross, to, Px(4))
}

/// Draws a message that came to a point and was never given or heard.
pub fn draw_unheard(
    shapes: &mut Shapes,
    class: Class,
    from: Point,
    to: Point,
) -> Result<(), NoMemory> {
    shapes.line(class, from, to)?;
    shapes.circle(Class::Ring, to, Px(3))
}
