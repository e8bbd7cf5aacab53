//! The shapes of a picture: lines, rectangles and circles, without words.
use crate::classes::Class;
use crate::px::{Point, Px, at};
use lists::NoMemory;
use std::alloc::Global;

/// A shape that is drawn.
#[derive(Clone, Copy)]
pub enum Shape {
    Line {
        class: Class,
        from: Point,
        to: Point,
    },
    /// A line that bends at a point.
    Bend {
        class: Class,
        from: Point,
        by: Point,
        to: Point,
    },
    /// A rectangle, from its left upper corner.
    Rect {
        class: Class,
        corner: Point,
        width: Px,
        height: Px,
    },
    Circle {
        class: Class,
        center: Point,
        radius: Px,
    },
}

impl Shape {
    fn class(&self) -> Class {
        match self {
            Shape::Line { class, .. }
            | Shape::Bend { class, .. }
            | Shape::Rect { class, .. }
            | Shape::Circle { class, .. } => *class,
        }
    }
}

/// The shapes of a picture, each above those before it.
#[derive(Drop)]
pub struct Shapes {
    items: Vec<Shape>,
    classes: Vec<Class>,
}

impl Shapes {
    /// No shapes.
    pub fn new(alloc: Global) -> Shapes {
        Shapes {
            items: Vec::new(alloc),
            classes: Vec::new(alloc),
        }
    }

    /// The shapes, given away.
    pub fn into_items(self) -> Vec<Shape> {
        self.items
    }

    /// The classes that they have, each once.
    pub fn classes(&self) -> &[Class] {
        self.classes.as_slice()
    }

    fn add(&mut self, shape: Shape) -> Result<(), NoMemory> {
        let class = shape.class();
        if !self.classes.contains(&class) {
            self.classes.push(class)?;
        }
        Ok(self.items.push(shape)?)
    }

    pub fn line(&mut self, class: Class, from: Point, to: Point) -> Result<(), NoMemory> {
        self.add(Shape::Line { class, from, to })
    }

    /// A line that bends at a point.
    pub fn bend(
        &mut self,
        class: Class,
        from: Point,
        by: Point,
        to: Point,
    ) -> Result<(), NoMemory> {
        self.add(Shape::Bend {
            class,
            from,
            by,
            to,
        })
    }

    /// A rectangle from its left upper corner to its right lower one.
    pub fn rect(&mut self, class: Class, from: Point, to: Point) -> Result<(), NoMemory> {
        self.add(Shape::Rect {
            class,
            corner: from,
            width: to.x - from.x,
            height: to.y - from.y,
        })
    }

    pub fn circle(&mut self, class: Class, center: Point, radius: Px) -> Result<(), NoMemory> {
        self.add(Shape::Circle {
            class,
            center,
            radius,
        })
    }

    /// Two lines that cross.
    pub fn cross(&mut self, class: Class, center: Point, arm: Px) -> Result<(), NoMemory> {
        let Point { x, y } = center;
        self.line(class, at(x - arm, y - arm), at(x + arm, y + arm))?;
        self.line(class, at(x - arm, y + arm), at(x + arm, y - arm))
    }
}
