//! What is opened, and what is refused.
use std::io;
use system_file::{OpenRefusal, SystemFile, UnknownContents, create, open};

type File = SystemFile<UnknownContents>;

/// What is done at a path.
#[derive(Clone, Copy)]
enum Step {
    Open(&'static str),
    Create(&'static str),
    /// The file that was opened last is dropped.
    Close,
}

// The first three paths are a folder, a missing folder's file and a device.
const STEPS: [Step; 12] = [
    Step::Open("system_file_room"),
    Step::Open("system_file_room/none/a"),
    Step::Open("/dev/null"),
    Step::Open("system_file_room/a"),
    Step::Create("system_file_room/none/a"),
    Step::Create("system_file_room"),
    Step::Create("system_file_room/a"),
    Step::Open("system_file_room/a"),
    Step::Create("system_file_room/a"),
    Step::Close,
    Step::Open("system_file_room/a"),
    Step::Open("system_file_room/a/b"),
];

/// Takes each step in turn, and tells how it ended. What is opened stays open until it is closed.
pub fn try_openings(rt: &HostRuntime) -> io::Result<()> {
    let mut held = None;
    for step in STEPS.iter() {
        match step {
            Step::Open(path) => {
                let found = open(rt, path, 0, &UnknownContents);
                keep(rt, "open", path, found, &mut held)?;
            }
            Step::Create(path) => {
                let found = create(rt, path, 0, &UnknownContents);
                keep(rt, "create", path, found, &mut held)?;
            }
            Step::Close => {
                held = None;
                println!(rt; "close")?;
            }
        }
    }
    Ok(())
}

// Tells how a file was opened, and keeps it open.
fn keep(
    rt: &HostRuntime,
    what: &str,
    path: &str,
    found: Result<File, OpenRefusal>,
    held: &mut Option<File>,
) -> io::Result<()> {
    match found {
        Ok(file) => {
            *held = Some(file);
            println!(rt; "{what} {path}: opened")
        }
        Err(refusal) => println!(rt; "{what} {path}: {refusal}"),
    }
}
