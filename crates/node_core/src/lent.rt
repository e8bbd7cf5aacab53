use cross_sum::{Bytes, CrossSum};
use stamp_order::Stamp;

/// A version that a node keeps, lent.
#[derive(Clone, Copy)]
pub struct LentVersion<'a> {
    pub stamp: &'a Stamp,
    pub sum: &'a CrossSum,
    pub fragment: &'a Bytes,
}
