//! The program that draws runs: a replay script on standard input, one SVG picture of its run on standard output. It takes no
//! words.
#![tactic(auto)]

use command_texts::Status;
use outside_io::{StdSink, StdSource};
use run_pictures::{PictureStatus, draw};
use std::env;
use std::io::ErrorKind;
use std::process::ExitCode;

// The arguments after the program's name. Those that are no text are bad words.
fn words_of(rt: &HostRuntime) -> Result<Vec<String>, PictureStatus> {
    let mut arguments = match env::args(rt) {
        Ok(arguments) => arguments,
        Err(error) if error.kind() == ErrorKind::OutOfMemory => {
            return Err(PictureStatus::Replay(Status::NoMemory));
        }
        Err(_) => return Err(PictureStatus::Replay(Status::BadWords)),
    };
    let _name = arguments.next();
    match arguments.collect(rt.alloc()) {
        Ok(words) => Ok(words),
        Err(_) => Err(PictureStatus::Replay(Status::NoMemory)),
    }
}

fn status_of(rt: &HostRuntime) -> PictureStatus {
    match words_of(rt) {
        Ok(words) => {
            let mut source = StdSource::new(rt.stdin());
            let mut sink = StdSink::new(rt.stdout());
            draw(rt.alloc(), words.as_slice(), &mut source, &mut sink)
        }
        Err(status) => status,
    }
}

fn main(rt: HostRuntime) -> ExitCode {
    let status = status_of(&rt);
    if !status.is_done() {
        // a line that can't be printed changes nothing of the exit status
        let _ = eprintln!(rt; "{status}");
    }
    ExitCode::from(status.number())
}
