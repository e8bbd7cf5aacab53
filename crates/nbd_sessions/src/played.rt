//! What comes of a session.

use crate::client::{Hearing, Sending, Turn};
use crate::session::Session;
use pasis_shell::{OpenGate, Status, pasis};
use std::alloc::Global;
use std::cell::Cell;
use std::io;
use std::sync::Wait;
use std::thread::Threads;

/// How a client behaves: when it sends, and how many bytes it sends and hears at once.
#[derive(Clone, Copy)]
struct Pace<'a> {
    turns: &'a [Turn],
    most: usize,
}

// Whether a status stands on standard error as the session says.
fn is_told(alloc: Global, session: &Session, status: &Status) -> io::Result<bool> {
    let mut told = Vec::new(alloc);
    status.tell(&mut told)?;
    Ok(told.as_slice() == session.told.as_slice())
}

// What is otherwise where a client behaves so, if anything is.
fn difference_at<R: Threads + Wait + Sync>(
    rt: &R,
    alloc: Global,
    session: &Session,
    pace: Pace<'_>,
) -> io::Result<Option<&'static str>> {
    let heard = Cell::new(0usize);
    let words = session.words.as_slice();
    let mut source = Sending::new(session.input.as_slice(), pace.turns, pace.most, &heard);
    let mut sink = Hearing::new(alloc, pace.most, &heard);
    let status = pasis(rt, alloc, words, &mut source, &mut sink, &OpenGate);
    if status.number() != session.status {
        Ok(Some("the status differs"))
    } else if !is_told(alloc, session, &status)? {
        Ok(Some("the line on standard error differs"))
    } else if sink.bytes() != session.output.as_slice() {
        Ok(Some("the output differs"))
    } else if heard.get() < session.output.len() {
        Ok(Some("not all of the output was flushed"))
    } else {
        Ok(None)
    }
}

/// What is otherwise than the session says, if anything is: with a client that waits, whose bytes come in whole pieces or one by
/// one, or with one that doesn't wait.
pub fn difference<R: Threads + Wait + Sync>(
    rt: &R,
    alloc: Global,
    session: &Session,
) -> io::Result<Option<&'static str>> {
    if !session.is_readable {
        return Ok(Some("a line of the session differs"));
    }
    let turns = session.turns.as_slice();
    let paces = [
        Pace { turns, most: 4096 },
        Pace { turns, most: 1 },
        Pace {
            turns: &[],
            most: 4096,
        },
    ];
    for pace in paces {
        if let Some(what) = difference_at(rt, alloc, session, pace)? {
            return Ok(Some(what));
        }
    }
    Ok(None)
}
