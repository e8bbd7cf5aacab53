//! Real files, opened, made, written, read and opened anew. Each line tells a case and how it ended.
#![tactic(auto)]

mod bytes;
mod openings;

use std::process::ExitCode;
use std::{fs, io};

/// The folder of all files here.
const ROOM: &str = "system_file_room";

fn main(rt: HostRuntime) -> io::Result<ExitCode> {
    let _ = fs::remove_dir_all(&rt, ROOM);
    fs::create_dir(&rt, ROOM)?;
    openings::try_openings(&rt)?;
    bytes::try_bytes(&rt)?;
    fs::remove_dir_all(&rt, ROOM)?;
    Ok(ExitCode::SUCCESS)
}
