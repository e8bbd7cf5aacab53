//! Sessions of a server as they are written down: a line `# NAME` begins one, and these lines follow. Lines before the
//! first are a comment, and empty lines are nothing.
//!
//! | Line | Meaning |
//! |---|---|
//! | `device A B` | two numbers that say what is served |
//! | `< DIGITS` | what the client sends, as digits in base 16 with spaces among them |
//! | `> DIGITS` | what the server sends |
//! | `<N DIGITS`, `>N DIGITS` | that N times |
//! | `left DIGITS` | what stands behind what the server reads |
//! | `end TEXT` | how it ends |
#![tactic(auto)]

use std::alloc::Global;
use std::io;
use std::io::ErrorKind;

/// What a session is given, and what must come of it.
#[derive(Drop)]
pub struct Case {
    pub name: String,
    /// What is served.
    pub device: (u64, u64),
    pub input: Vec<u8>,
    pub left: usize,
    pub output: Vec<u8>,
    pub end: String,
}

impl Case {
    fn new(alloc: Global, name: &str) -> io::Result<Case> {
        Ok(Case {
            name: String::from_str(alloc, name)?,
            device: (0, 0),
            input: Vec::new(alloc),
            left: 0,
            output: Vec::new(alloc),
            end: String::new(alloc),
        })
    }

    fn add(&mut self, alloc: Global, line: &str) -> io::Result<()> {
        let (mark, text) = line.split_once(' ').unwrap_or((line, ""));
        match mark {
            "" => Ok(()),
            "device" => {
                let (first, last) = text.split_once(' ').unwrap_or((text, ""));
                self.device = (first.parse().unwrap_or(0), last.parse().unwrap_or(0));
                Ok(())
            }
            "left" => {
                let before = self.input.len();
                add_digits(alloc, &mut self.input, "", text)?;
                self.left = self.input.len().saturating_sub(before);
                Ok(())
            }
            "end" => {
                self.end = String::from_str(alloc, text)?;
                Ok(())
            }
            _ => self.add_bytes(alloc, mark, text),
        }
    }

    // What the client sends, or the server.
    fn add_bytes(&mut self, alloc: Global, mark: &str, digits: &str) -> io::Result<()> {
        if let Some(times) = mark.strip_prefix("<") {
            add_digits(alloc, &mut self.input, times, digits)
        } else if let Some(times) = mark.strip_prefix(">") {
            add_digits(alloc, &mut self.output, times, digits)
        } else {
            Err(io::Error::from(ErrorKind::InvalidData))
        }
    }
}

// Bytes by their digits, so many times; once where no number is written.
fn add_digits(alloc: Global, bytes: &mut Vec<u8>, times: &str, digits: &str) -> io::Result<()> {
    for _ in 0..times.parse().unwrap_or(1u32) {
        for word in digits.split(' ') {
            match hex::decode(alloc, word) {
                Ok(piece) => bytes.extend_from_slice(&piece)?,
                Err(_) => return Err(io::Error::from(ErrorKind::InvalidData)),
            }
        }
    }
    Ok(())
}

/// The sessions of a file.
pub fn cases_of(alloc: Global, text: &str) -> io::Result<Vec<Case>> {
    let mut cases: Vec<Case> = Vec::new(alloc);
    for line in text.lines() {
        if let Some(name) = line.strip_prefix("# ") {
            cases.push(Case::new(alloc, name)?)?;
        } else if let Some(case) = cases.last_mut() {
            case.add(alloc, line)?;
        }
    }
    Ok(cases)
}
