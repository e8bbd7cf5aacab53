//! How a line is told to be wrong: causes, forms of fields, and the two head lines of a script.
//!
//! A text is refused with the first line that has a cause, and with that line's first cause. The
//! causes of a line are tests on its fields and on the lines before it, in one order.
#![tactic(auto)]

mod cause;
mod cluster;
mod fields;
mod head;
pub mod laws;
mod lines;
mod number;
mod refusal;

pub use cause::{Cause, DeviceFault};
pub use fields::{any_value, has_empty, two_values, value_of_len};
pub use head::{add_head, read_head};
pub use lines::needed_line;
pub use refusal::{LineRefusal, ScriptFault, ScriptRefusal, refused};
