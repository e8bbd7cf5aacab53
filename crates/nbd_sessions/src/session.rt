//! Sessions as they are written down: a line `# NAME` begins one, and these lines follow. Lines before the first session are a
//! comment, and empty lines are nothing.
//!
//! | Line | Meaning |
//! |---|---|
//! | `words WORD..` | the words of the command line |
//! | `< DIGITS` | what the client sends, as digits in base 16 with spaces among them. A client that waits sends it when all that is written above was flushed |
//! | `> DIGITS` | what is written |
//! | `<N DIGITS`, `>N DIGITS` | that N times |
//! | `! TEXT` | the line on standard error |
//! | `status N` | the exit status, if it isn't 0 |

use crate::client::Turn;
use std::alloc::Global;
use std::io;
use std::io::ErrorKind;

/// What a session is given, and what must come of it.
#[derive(Drop)]
pub struct Session {
    pub name: String,
    pub words: Vec<String>,
    pub input: Vec<u8>,
    pub output: Vec<u8>,
    pub turns: Vec<Turn>,
    pub told: Vec<u8>,
    pub status: u8,
    /// Each line is one of those that sessions have.
    pub is_readable: bool,
}

impl Session {
    fn new(alloc: Global, name: &str) -> io::Result<Session> {
        Ok(Session {
            name: String::from_str(alloc, name)?,
            words: Vec::new(alloc),
            input: Vec::new(alloc),
            output: Vec::new(alloc),
            turns: Vec::new(alloc),
            told: Vec::new(alloc),
            status: 0,
            is_readable: true,
        })
    }

    // Up to here the client sends when it has heard all that is written so far.
    fn add_turn(&mut self) -> io::Result<()> {
        self.turns.push(Turn {
            sent: self.input.len(),
            heard: self.output.len(),
        })?;
        Ok(())
    }

    fn add_words(&mut self, alloc: Global, words: &str) -> io::Result<()> {
        for word in words.split(' ') {
            self.words.push(String::from_str(alloc, word)?)?;
        }
        Ok(())
    }

    fn add(&mut self, alloc: Global, line: &str) -> io::Result<()> {
        let (mark, text) = line.split_once(' ').unwrap_or((line, ""));
        match mark {
            "" => Ok(()),
            "words" => self.add_words(alloc, text),
            "!" => add_line(&mut self.told, text),
            "status" => {
                self.status = text.parse().unwrap_or(u8::MAX);
                Ok(())
            }
            _ => self.add_bytes(alloc, mark, text),
        }
    }

    // What the client sends, or what is written.
    fn add_bytes(&mut self, alloc: Global, mark: &str, digits: &str) -> io::Result<()> {
        if let Some(times) = mark.strip_prefix("<") {
            add_digits(alloc, &mut self.input, times, digits)?;
            self.add_turn()
        } else if let Some(times) = mark.strip_prefix(">") {
            add_digits(alloc, &mut self.output, times, digits)
        } else {
            self.is_readable = false;
            Ok(())
        }
    }
}

fn add_line(bytes: &mut Vec<u8>, line: &str) -> io::Result<()> {
    bytes.extend_from_slice(line.as_bytes())?;
    bytes.push(b'\n')?;
    Ok(())
}

// Bytes by their digits, so many times; once where no number is written.
fn add_digits(alloc: Global, bytes: &mut Vec<u8>, times: &str, digits: &str) -> io::Result<()> {
    for _ in 0..times.parse().unwrap_or(1u32) {
        for word in digits.split(' ') {
            match hex::decode(alloc, word) {
                Ok(piece) => bytes.extend_from_slice(&piece)?,
                Err(_) => return Err(io::Error::from(ErrorKind::InvalidData)),
            }
        }
    }
    Ok(())
}

// A line of the file, which begins a session or is one of the last session's.
fn add_to(sessions: &mut Vec<Session>, alloc: Global, line: &str) -> io::Result<()> {
    if let Some(name) = line.strip_prefix("# ") {
        sessions.push(Session::new(alloc, name)?)?;
    } else if let Some(session) = sessions.last_mut() {
        session.add(alloc, line)?;
    }
    Ok(())
}

// The end of each session is a turn of its own.
fn add_ends(sessions: &mut Vec<Session>) -> io::Result<()> {
    for session in sessions.iter_mut() {
        session.add_turn()?;
    }
    Ok(())
}

/// The sessions of a file.
pub fn sessions_of(alloc: Global, text: &str) -> io::Result<Vec<Session>> {
    let mut sessions = Vec::new(alloc);
    for line in text.lines() {
        add_to(&mut sessions, alloc, line)?;
    }
    add_ends(&mut sessions)?;
    Ok(sessions)
}
