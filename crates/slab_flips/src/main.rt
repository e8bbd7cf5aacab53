//! Flips each single bit of a header, of a head, and of a slot's data, one at a time, and tells how many of the flips were
//! found: their bytes don't fit their check any more. tools/slab_model gives the same numbers.
#![tactic(auto)]

mod flips;

use flips::{in_data, in_head, in_header};
use std::io;

fn main(rt: HostRuntime) -> io::Result<()> {
    let alloc = rt.alloc();
    match (in_header(alloc), in_head(alloc), in_data(alloc)) {
        (Ok(header), Ok(head), Ok(data)) => println!(rt; "flips {header} {head} {data}"),
        _ => println!(rt; "no memory"),
    }
}
