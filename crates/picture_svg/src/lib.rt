//! Pictures of runs as data, and as SVG: who takes part, the places, what goes between them, and where it all stands.
#![tactic(auto)]

mod arrows;
mod classes;
mod document;
mod drawing;
mod elements;
mod layout;
mod legend;
mod lives;
mod markers;
pub mod picture;
mod px;
mod shapes;
mod texts;
mod titles;
mod writing;

pub use document::svg_of;
pub use picture::{
    Actor, Arrow, Deeds, Fate, Lifeline, Mark, Outcomes, PhaseKind, Picture, Remarks, Row, Sign,
    Stretch,
};
