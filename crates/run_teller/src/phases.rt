//! The phases of operations: the stretches of a client's bar, and what is written beside them.
use crate::run::{Run, block_of};
use crate::teller::{Step, Teller};
use crate::words::{add_value, add_words};
use lists::NoMemory;
use picture_svg::{PhaseKind, Remarks, Stretch};
use run_words::{How, Outcome, Record};
use stamp_order::Bound;
use std::collections::BTreeMap;
use std::fmt::Write;
use wire_forms::{Ask, Body, Liars, Message, Op, Reply, Request, Tag};

/// A phase of a client's operation that is under way.
#[derive(Clone, Copy)]
pub struct Phase<'a> {
    pub tag: Tag,
    pub work: PhaseKind,
    /// The operation.
    pub record: &'a Record,
    /// The row in which the phase began.
    pub row: usize,
}

impl<'a> Phase<'a> {
    /// Whether an answer is of the kind that the phase asks for.
    pub(crate) fn is_answered_by(&self, reply: &Reply) -> bool {
        match self.work {
            PhaseKind::Times => matches!(reply, Reply::TimeIs(_)),
            PhaseKind::Round => matches!(reply, Reply::Found(_) | Reply::Nothing),
            PhaseKind::Store | PhaseKind::Repair => matches!(reply, Reply::Ack),
        }
    }

    /// The stretch of the client's bar that the phase is.
    fn stretch(&self, client: u32, to: usize, is_open: bool) -> Stretch {
        Stretch {
            client,
            work: self.work,
            from: self.row,
            to,
            is_open,
        }
    }
}

/// What a phase of an operation does, by what it asks for.
fn work_of(op: &Op, request: &Request) -> PhaseKind {
    match (request, op) {
        (Request::Time, _) => PhaseKind::Times,
        (Request::Read(_), _) => PhaseKind::Round,
        (Request::Write(_), Op::Write { .. }) => PhaseKind::Store,
        (Request::Write(_), Op::Read { .. }) => PhaseKind::Repair,
    }
}

/// The first message with an ask of a client that isn't declared lying.
fn first_ask<'m>(sent: &'m [Message], liars: &Liars) -> Option<(&'m Message, &'m Ask)> {
    for message in sent {
        if let Body::Ask(ask) = &message.body {
            if !liars.client(message.client) {
                return Some((message, ask));
            }
        }
    }
    None
}

impl<'a> Teller<'a> {
    /// Begins the phase whose asks a line sends, and tells in its row what the phase does. Asks that are sent again begin none.
    pub(crate) fn begin_phase(
        &mut self,
        remarks: &mut Remarks,
        step: &Step<'_>,
    ) -> Result<(), NoMemory> {
        let Some((message, ask)) = first_ask(step.sent(), self.run.liars) else {
            return Ok(());
        };
        let Some(phase) = self.begun(message, ask, step) else {
            return Ok(());
        };
        remarks.client = message.client;
        self.run.tell_phase(remarks, &phase, ask)?;
        self.leave(message.client, phase.row, false)?;
        self.phases.insert(message.client, phase)?;
        Ok(())
    }

    /// The phase that an ask begins.
    fn begun(&self, message: &Message, ask: &Ask, step: &Step<'_>) -> Option<Phase<'a>> {
        let tag = message.tag;
        let record = match self.phases.get(&message.client) {
            Some(phase) if phase.tag == tag => return None,
            Some(phase) => phase.record,
            None => self.run.started_at(step.place)?,
        };
        Some(Phase {
            tag,
            work: work_of(&record.op, &ask.request),
            record,
            row: step.row(),
        })
    }

    /// Ends the phase of a client that was under way, if there is one.
    fn leave(&mut self, client: u32, row: usize, is_open: bool) -> Result<(), NoMemory> {
        if let Some(phase) = self.phases.remove(&client) {
            let stretch = phase.stretch(client, row, is_open);
            self.deeds.stretches.push(stretch)?;
        }
        Ok(())
    }

    /// Ends the operation that a line ends, and tells how in its row.
    pub(crate) fn end_phase(
        &mut self,
        remarks: &mut Remarks,
        step: &Step<'_>,
    ) -> Result<(), NoMemory> {
        let Some(record) = self.run.ended_at(step.place) else {
            return Ok(());
        };
        self.leave(record.client, step.row(), false)?;
        remarks.client = record.client;
        remarks.first.clear();
        remarks.second.clear();
        self.run.tell_end(remarks, record)
    }

    /// Breaks off a client's operation, if one is under way.
    pub(crate) fn break_off(&mut self, client: u32, row: usize) -> Result<(), NoMemory> {
        self.leave(client, row, true)
    }

    /// Adds the stretches of the phases that are still under way.
    pub(crate) fn add_open_phases(&mut self) -> Result<(), NoMemory> {
        let last = self.rows;
        add_open_stretches(&mut self.deeds.stretches, &self.phases, last)
    }
}

/// Adds the stretches of phases that are still under way in the last row.
fn add_open_stretches(
    stretches: &mut Vec<Stretch>,
    phases: &BTreeMap<u32, Phase<'_>>,
    last: usize,
) -> Result<(), NoMemory> {
    for (client, phase) in phases.iter() {
        stretches.push(phase.stretch(*client, last, true))?;
    }
    Ok(())
}

impl<'a> Run<'a> {
    /// Tells what a phase that an ask begins does: the operation, for its first one.
    fn tell_phase(
        &self,
        remarks: &mut Remarks,
        phase: &Phase<'_>,
        ask: &Ask,
    ) -> Result<(), NoMemory> {
        let op = &phase.record.op;
        match &ask.request {
            Request::Read(bound) if phase.tag.phase > 1 => {
                let round = phase.tag.phase;
                write!(remarks.first, "round {round}")?;
                self.add_bound(&mut remarks.second, ask.block, bound)
            }
            Request::Write(version) => {
                add_words(&mut remarks.first, store_words(op))?;
                self.add_name(&mut remarks.second, ask.block, &version.stamp)
            }
            Request::Time | Request::Read(_) => self.tell_op(remarks, op),
        }
    }

    /// Tells an operation, with its value, and its block where the cluster has several.
    fn tell_op(&self, remarks: &mut Remarks, op: &Op) -> Result<(), NoMemory> {
        add_op(&mut remarks.first, op)?;
        if self.config.blocks() > 1 {
            let block = block_of(op);
            write!(remarks.second, "block {block}")?;
        }
        Ok(())
    }

    /// Adds which stamps of a block a later round of a read asks for.
    fn add_bound(&self, words: &mut String, block: u32, bound: &Bound) -> Result<(), NoMemory> {
        let (word, stamp) = match bound {
            Bound::All => return Ok(()),
            Bound::AtMost(stamp) => ("up to ", stamp),
            Bound::Below(stamp) => ("below ", stamp),
        };
        add_words(words, word)?;
        self.add_name(words, block, stamp)
    }

    /// Tells how an operation ended, under which stamp, and whether it repaired.
    fn tell_end(&self, remarks: &mut Remarks, record: &Record) -> Result<(), NoMemory> {
        let block = block_of(&record.op);
        let Some(outcome) = &record.outcome else {
            return Ok(());
        };
        match outcome {
            Outcome::Wrote(stamp) => {
                add_words(&mut remarks.first, "wrote")?;
                self.add_name(&mut remarks.second, block, stamp)
            }
            Outcome::Gave {
                stamp,
                value,
                how,
                ..
            } => {
                add_words(&mut remarks.first, "gives ")?;
                add_value(&mut remarks.first, value.as_slice())?;
                self.add_name(&mut remarks.second, block, stamp)?;
                add_words(&mut remarks.second, how_words(*how))
            }
            Outcome::Spent => {
                add_words(&mut remarks.first, "spent")?;
                add_words(&mut remarks.second, "no time is left")
            }
            Outcome::Outvoted(_) => add_words(&mut remarks.first, "outvoted"),
        }
    }
}

/// What an operation does when it stores a version.
fn store_words(op: &Op) -> &'static str {
    match op {
        Op::Write { .. } => "stores as",
        Op::Read { .. } => "repairs",
    }
}

/// Adds an operation, with its value.
fn add_op(words: &mut String, op: &Op) -> Result<(), NoMemory> {
    match op {
        Op::Read { .. } => add_words(words, "read"),
        Op::Write { value, .. } => {
            add_words(words, "write ")?;
            add_value(words, value.as_slice())
        }
    }
}

/// What is told beside the stamp that a read gave.
fn how_words(how: How) -> &'static str {
    match how {
        How::Plain => "",
        How::Repaired => ", repaired",
    }
}
