//! How lifelines, and the bars and the signs on them, are drawn.
use crate::classes::Class;
use crate::drawing::Drawing;
use crate::layout::Layout;
use crate::picture::{Actor, Lifeline, Mark, PhaseKind, Sign, Stretch};
use crate::px::{Point, Px, at};
use crate::shapes::Shapes;
use lists::NoMemory;
use std::alloc::Global;
use std::collections::BTreeMap;

/// Who is alive, and the height from which on.
type Alive = BTreeMap<Actor, Px>;

/// How a stretch looks.
pub fn class_of_bar(work: PhaseKind, is_open: bool) -> Class {
    match (work, is_open) {
        (PhaseKind::Times, false) => Class::Times,
        (PhaseKind::Times, true) => Class::TimesOpen,
        (PhaseKind::Store, false) => Class::Store,
        (PhaseKind::Store, true) => Class::StoreOpen,
        (PhaseKind::Round, false) => Class::Round,
        (PhaseKind::Round, true) => Class::RoundOpen,
        (PhaseKind::Repair, false) => Class::Repair,
        (PhaseKind::Repair, true) => Class::RepairOpen,
    }
}

impl<'p> Drawing<'p> {
    /// Draws the lifelines. Who crashes has none until it is back.
    pub(crate) fn draw_lifelines(&mut self, alloc: Global) -> Result<(), NoMemory> {
        let mut alive = Alive::new(alloc);
        self.draw_lives(&mut alive)
    }

    fn draw_lives(&mut self, alive: &mut Alive) -> Result<(), NoMemory> {
        self.begin_lives(alive)?;
        for mark in &self.picture.deeds.marks {
            self.follow_mark(mark, alive)?;
        }
        let end = self.layout.end;
        for (actor, from) in alive.iter() {
            self.draw_life(Class::Life, *actor, *from, end)?;
        }
        Ok(())
    }

    /// Draws the lifelines of those who lie, and begins the lives of the others.
    fn begin_lives(&mut self, alive: &mut Alive) -> Result<(), NoMemory> {
        let Layout { top, end, .. } = *self.layout;
        for Lifeline { actor, is_liar } in &self.picture.lifelines {
            if *is_liar {
                self.draw_life(Class::Liar, *actor, top, end)?;
            } else {
                alive.insert(*actor, top)?;
            }
        }
        Ok(())
    }

    /// Draws the life that a mark ends, or begins one.
    fn follow_mark(&mut self, mark: &Mark, alive: &mut Alive) -> Result<(), NoMemory> {
        let y = self.layout.y(mark.row);
        match mark.sign {
            Sign::Crash => match alive.remove(&mark.actor) {
                Some(from) => self.draw_life(Class::Life, mark.actor, from, y),
                None => Ok(()),
            },
            Sign::Back => {
                if !alive.contains_key(&mark.actor) {
                    alive.insert(mark.actor, y)?;
                }
                Ok(())
            }
            Sign::Prune | Sign::Holds => Ok(()),
        }
    }

    fn draw_life(&mut self, class: Class, actor: Actor, from: Px, to: Px) -> Result<(), NoMemory> {
        let x = self.layout.x(actor);
        self.shapes.line(class, at(x, from), at(x, to))
    }

    /// Draws a stretch of a client's bar. One that never ended reaches to the end, or to the crash.
    pub(crate) fn draw_stretch(&mut self, stretch: &Stretch) -> Result<(), NoMemory> {
        let layout = self.layout;
        let x = layout.x(Actor::Client(stretch.client)) - Px(5);
        let from = layout.y(stretch.from);
        let to = if stretch.to < self.picture.rows.len() {
            layout.y(stretch.to)
        } else {
            layout.end
        };
        let class = class_of_bar(stretch.work, stretch.is_open);
        self.shapes.rect(class, at(x, from), at(x + Px(10), to))
    }

    /// Draws a sign on its lifeline.
    pub(crate) fn draw_mark(&mut self, mark: &Mark) -> Result<(), NoMemory> {
        let point = at(self.layout.x(mark.actor), self.layout.y(mark.row));
        draw_sign(&mut self.shapes, mark.sign, point)
    }
}

/// Draws a sign at a point.
pub fn draw_sign(shapes: &mut Shapes, sign: Sign, point: Point) -> Result<(), NoMemory> {
    let Point { x, y } = point;
    match sign {
        Sign::Crash => shapes.cross(Class::Crash, point, Px(6)),
        Sign::Back => shapes.circle(Class::Back, point, Px(6)),
        Sign::Prune => {
            let left = x - Px(7);
            shapes.line(Class::Prune, at(left, y - Px(3)), at(x + Px(7), y - Px(3)))?;
            shapes.line(Class::Prune, at(left, y + Px(3)), at(x + Px(7), y + Px(3)))
        }
        Sign::Holds => shapes.rect(
            Class::Holds,
            at(x - Px(3), y - Px(3)),
            at(x + Px(4), y + Px(4)),
        ),
    }
}
