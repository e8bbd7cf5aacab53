//! Where the parts of a slab stand, and what their bytes tell.
#![tactic(auto)]

pub mod head;
pub mod laws;
pub mod shape;

pub use head::Head;
pub use shape::Shape;
