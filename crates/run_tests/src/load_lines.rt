//! Operations as the lines of a plan's text.

use cross_sum::{Hash, sha};
use lists::NoMemory;
use plan_words::Job;
use std::alloc::Global;
use text_lines::Text;
use wire_forms::Op;

/// The digest of the lines of a plan's operations.
pub fn work_digest(alloc: Global, work: &[Job]) -> Result<Hash, NoMemory> {
    let mut lines = Text::new(alloc);
    for job in work {
        add_line(&mut lines, job)?;
    }
    Ok(sha(lines.as_slice()))
}

fn add_line(text: &mut Text, job: &Job) -> Result<(), NoMemory> {
    add_job(text, job)?;
    text.add_newline()
}

fn add_job(text: &mut Text, job: &Job) -> Result<(), NoMemory> {
    match job {
        Job::Block {
            client,
            op: Op::Read { block },
        } => add_operation(text, b"read ", *client, *block),
        Job::Block {
            client,
            op: Op::Write { block, value },
        } => {
            add_operation(text, b"write ", *client, *block)?;
            text.add_space()?;
            text.add_value(value.as_slice())
        }
        _ => text.add(b"other"),
    }
}

fn add_operation(text: &mut Text, word: &[u8], client: u32, block: u32) -> Result<(), NoMemory> {
    text.add(word)?;
    text.add_number(u64::from(client))?;
    text.add_space()?;
    text.add_number(u64::from(block))
}
