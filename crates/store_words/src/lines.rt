ghost use Rattle.std.specs.Prelude.{Some, OnOk};
ghost use Rattle.std.specs.List.{flat_map};
ghost use Rattle.std.specs.Io.KnownBytes.{Appends};
ghost use Rattle.store_words.specs.Lines.{node_line, scrub_line, node_text, found_text, bytes_text, scrub_text};

use crate::down::Down;
use std::io::Write;
use std::{fmt, io};

/// What `status` says of a node, counted from 0.
#[derive(Clone, Copy, Debug, PartialEq, Eq)]
pub enum NodeLine {
    /// It is up, keeps so many versions beside the first ones, and has a journal of so many bytes.
    Up {
        node: usize,
        versions: u64,
        bytes: u64,
    },
    /// It is down.
    Down {
        node: usize,
        why: Down,
    },
}

impl fmt::Display for NodeLine {
    ghost output = { λ line. Some (node_text line) };

    fn fmt<W: fmt::Write>(&self, f: &mut fmt::Formatter<W>) -> fmt::Result {
        match self {
            NodeLine::Up {
                node,
                versions,
                bytes,
            } => write!(f, "node {node} up {versions} versions, {bytes} bytes"),
            NodeLine::Down { node, why } => write!(f, "node {node} down: {why}"),
        }
    }
}

/// Of how many blocks a node didn't hold what a read gave, before that read: it held an older version, a false one, or a newer one that was
/// never finished; and how many of these it holds since then.
#[derive(Clone, Copy, Debug, PartialEq, Eq)]
pub struct Found {
    pub stale: u64,
    pub wrong: u64,
    pub unfinished: u64,
    pub restored: u64,
}

impl fmt::Display for Found {
    ghost output = { λ found. Some (found_text found) };

    fn fmt<W: fmt::Write>(&self, f: &mut fmt::Formatter<W>) -> fmt::Result {
        let Found {
            stale,
            wrong,
            unfinished,
            restored,
        } = self;
        write!(
            f,
            "{stale} stale, {wrong} false, {unfinished} unfinished, {restored} restored"
        )
    }
}

/// How many bytes a journal had, and has.
#[derive(Clone, Copy, Debug, PartialEq, Eq)]
pub struct JournalBytes {
    pub was: u64,
    pub is: u64,
}

impl fmt::Display for JournalBytes {
    ghost output = { λ bytes. Some (bytes_text bytes) };

    fn fmt<W: fmt::Write>(&self, f: &mut fmt::Formatter<W>) -> fmt::Result {
        write!(f, "{} bytes before, {} after", self.was, self.is)
    }
}

/// What `scrub` says of a node, counted from 0.
#[derive(Clone, Copy, Debug, PartialEq, Eq)]
pub enum ScrubLine {
    /// It is up.
    Up {
        node: usize,
        found: Found,
        bytes: JournalBytes,
    },
    /// It is down.
    Down {
        node: usize,
    },
}

impl fmt::Display for ScrubLine {
    ghost output = { λ line. Some (scrub_text line) };

    fn fmt<W: fmt::Write>(&self, f: &mut fmt::Formatter<W>) -> fmt::Result {
        match self {
            ScrubLine::Up { node, found, bytes } => write!(f, "node {node} up {found}, {bytes}"),
            ScrubLine::Down { node } => write!(f, "node {node} down"),
        }
    }
}

/// Writes the lines of `status`.
pub fn write_nodes<W: Write>(to: &mut W, lines: &[NodeLine]) -> io::Result<()>
    ensures { OnOk result (Appends (W.contents to.old) (W.contents to.new) (flat_map node_line lines.now)) }
{
    for line in lines {
        writeln!(to, "{line}")?;
    }
    Ok(())
}

/// Writes the lines of `scrub`.
pub fn write_scrubbed<W: Write>(to: &mut W, lines: &[ScrubLine]) -> io::Result<()>
    ensures { OnOk result (Appends (W.contents to.old) (W.contents to.new) (flat_map scrub_line lines.now)) }
{
    for line in lines {
        writeln!(to, "{line}")?;
    }
    Ok(())
}
