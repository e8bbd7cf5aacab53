//! The erasure code: a block to `n` fragments, any `m` of which give it back.
//!
//! A block is padded with zeros and cut in `m` rows of one length. At each place one polynomial of
//! degree below `m` has at `k` the byte of row `k`, and the fragment of number `i` has its value at
//! `i`. So the first `m` fragments are the rows.
//!
//! A code is [`CodeShape`] with one way to compute products, a [`Products`]: all but the products themselves stands here, once
//! for every code. [`Code`] computes them by shifts.
#![tactic(auto)]

mod code;
mod points;
mod products;
mod rows;
mod shape;
mod shifts;
mod strings;

pub use code::Code;
pub use cross_sum::{Part, Shares};
pub use products::Products;
pub use shape::CodeShape;
