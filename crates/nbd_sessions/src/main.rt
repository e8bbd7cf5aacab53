//! Sessions of `pasis nbd` through the program's top call, as data. The file sessions.cases in the folder that this program runs in
//! has them, in the form that `session` says. Each is played by a client that waits for what it was promised before it goes on,
//! in whole pieces and byte by byte, and by one that sends all at once. Writes a line for each session: its status and how many
//! bytes the client heard, if all is as it must be, or what is otherwise.
#![tactic(auto)]

mod client;
mod played;
mod session;

use played::difference;
use session::{Session, sessions_of};
use std::sync::Wait;
use std::thread::Threads;
use std::{fs, io};

fn tell<R: Print + AllocGlobal + Threads + Wait + Sync>(
    rt: &R,
    session: &Session,
) -> io::Result<()> {
    let name = session.name.as_str();
    match difference(rt, rt.alloc(), session)? {
        None => {
            let count = session.output.len();
            println!(rt; "{name}: status {}, {count} bytes", session.status)
        }
        Some(what) => println!(rt; "{name}: {what}"),
    }
}

fn main(rt: HostRuntime) -> io::Result<()> {
    let text = fs::read_to_string(&rt, "sessions.cases")?;
    for session in &sessions_of(rt.alloc(), text.as_str())? {
        tell(&rt, session)?;
    }
    Ok(())
}
