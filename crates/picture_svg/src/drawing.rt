//! The shapes of a picture.
use crate::classes::Class;
use crate::layout::{Layout, ROW, has_heads};
use crate::legend::Legend;
use crate::picture::Picture;
use crate::px::{Px, at};
use crate::shapes::Shapes;
use lists::NoMemory;
use std::alloc::Global;

/// All shapes of a picture: stripes behind its rows, lifelines, what takes place between them, grounds of the heads that stand
/// between rows, which hide what passes below, and samples for the legend.
pub fn shapes_of(
    alloc: Global,
    picture: &Picture,
    layout: &Layout,
    legend: &Legend,
) -> Result<Shapes, NoMemory> {
    let mut drawing = Drawing {
        picture,
        layout,
        shapes: Shapes::new(alloc),
    };
    drawing.draw(alloc)?;
    let mut shapes = drawing.shapes;
    legend.draw(&mut shapes)?;
    Ok(shapes)
}

/// A picture of which a part is drawn.
#[derive(Drop)]
pub struct Drawing<'p> {
    pub picture: &'p Picture,
    pub layout: &'p Layout,
    pub shapes: Shapes,
}

impl<'p> Drawing<'p> {
    fn draw(&mut self, alloc: Global) -> Result<(), NoMemory> {
        self.draw_stripes()?;
        self.draw_lifelines(alloc)?;
        self.draw_between()?;
        self.draw_bands()
    }

    /// Draws a stripe behind every second row.
    fn draw_stripes(&mut self) -> Result<(), NoMemory> {
        for number in 0..self.picture.rows.len() {
            if number % 2 == 0 {
                let y = self.layout.y(number);
                let right = at(self.layout.width, y + ROW.half());
                self.shapes
                    .rect(Class::Stripe, at(Px(0), y - ROW.half()), right)?;
            }
        }
        Ok(())
    }

    /// Draws what takes place between those who take part.
    fn draw_between(&mut self) -> Result<(), NoMemory> {
        let deeds = &self.picture.deeds;
        for stretch in &deeds.stretches {
            self.draw_stretch(stretch)?;
        }
        for arrow in &deeds.arrows {
            self.draw_arrow(arrow)?;
        }
        for mark in &deeds.marks {
            self.draw_mark(mark)?;
        }
        Ok(())
    }

    /// Draws the ground of the heads above each row that has them.
    fn draw_bands(&mut self) -> Result<(), NoMemory> {
        for number in 0..self.picture.rows.len() {
            if has_heads(number) {
                let end = self.layout.y(number) - ROW.half();
                let right = at(self.layout.width, end);
                self.shapes.rect(Class::Band, at(Px(0), end - ROW), right)?;
            }
        }
        Ok(())
    }
}
