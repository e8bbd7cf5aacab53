//! A run, told line by line.
use crate::answers::is_store;
use crate::phases::Phase;
use crate::run::Run;
use crate::sent::{Pair, SentMessages, pair_of};
use crate::words::add_words;
use lists::NoMemory;
use picture_svg::{Actor, Arrow, Deeds, Fate, Mark, Remarks, Sign};
use run_words::{Line, Record};
use std::collections::BTreeMap;
use std::fmt::Write;
use std::mem::replace;
use wire_forms::{Body, Message, Reply, Tag};

/// A line that took place.
#[derive(Clone, Copy)]
pub struct Step<'s> {
    /// The place at which it took place.
    pub place: u64,
    /// What took place; none for a command of the device.
    pub line: Option<&'s Line>,
    /// Every message that was sent, up to the line.
    pub pool: &'s [Message],
    /// How many of them were sent before it.
    pub before: usize,
}

impl<'s> Step<'s> {
    /// The row of the line.
    pub(crate) fn row(&self) -> usize {
        (self.place as usize).saturating_sub(1)
    }

    /// The message of this number.
    pub(crate) fn message(&self, number: usize) -> Option<&'s Message> {
        self.pool.get(number)
    }

    /// The messages that the line sends.
    pub(crate) fn sent(&self) -> &'s [Message] {
        self.pool.get(self.before..).unwrap_or(&[])
    }
}

/// What was told so far.
pub struct Teller<'a> {
    pub(crate) run: Run<'a>,
    pub(crate) sent_messages: SentMessages,
    /// The phases that are under way, by client.
    pub(crate) phases: BTreeMap<u32, Phase<'a>>,
    /// The phase in which the last answer counted, by client and node.
    pub(crate) counted: BTreeMap<Pair, Tag>,
    /// How many lines were told.
    pub(crate) rows: usize,
    pub(crate) deeds: Deeds,
}

// By hand, since a derived drop is proved anew wherever a teller is let go.
impl<'a> Drop for Teller<'a> {
    fn drop(self) {
        let Teller {
            run: _run,
            sent_messages: _post,
            phases: _phases,
            counted: _counted,
            rows: _rows,
            deeds: _deeds,
        } = self;
    }
}

impl<'a> Teller<'a> {
    /// Nothing told.
    pub fn new(run: Run<'a>) -> Teller<'a> {
        let alloc = run.alloc;
        Teller {
            run,
            sent_messages: SentMessages::new(alloc),
            phases: BTreeMap::new(alloc),
            counted: BTreeMap::new(alloc),
            rows: 0,
            deeds: Deeds::none(alloc),
        }
    }

    /// The operation that starts at a place, whatever line starts it.
    pub fn started_at(&self, place: u64) -> Option<&'a Record> {
        self.run.started_at(place)
    }

    /// Tells the next line of the script: what is written beside it.
    pub fn tell(&mut self, step: &Step<'_>) -> Result<Remarks, NoMemory> {
        let mut remarks = Remarks::none(self.run.alloc);
        self.add_remarks(&mut remarks, step)?;
        self.rows = self.rows.saturating_add(1);
        Ok(remarks)
    }

    /// Tells what a line does and what came of it.
    fn add_remarks(&mut self, remarks: &mut Remarks, step: &Step<'_>) -> Result<(), NoMemory> {
        self.add_sent(step)?;
        if let Some(line) = step.line {
            self.add_note(&mut remarks.note, step, line)?;
        }
        self.begin_phase(remarks, step)?;
        self.end_phase(remarks, step)
    }

    /// All that took place between those who take part, when all lines are told.
    pub fn end(mut self) -> Result<Deeds, NoMemory> {
        self.finish()
    }

    /// Adds what is known only when all lines are told, and gives it all away.
    fn finish(&mut self) -> Result<Deeds, NoMemory> {
        self.add_open_phases()?;
        self.sent_messages.add_rest(&mut self.deeds.arrows)?;
        self.deeds.outcomes = self.run.outcomes();
        Ok(replace(&mut self.deeds, Deeds::none(self.run.alloc)))
    }

    /// Adds the messages that a line sends.
    fn add_sent(&mut self, step: &Step<'_>) -> Result<(), NoMemory> {
        for message in step.sent() {
            self.sent_messages.add(message, step.row(), self.run.liars)?;
        }
        Ok(())
    }

    /// Adds what a line does between those who take part, and tells in the note what came of it.
    fn add_note(
        &mut self,
        note: &mut String,
        step: &Step<'_>,
        line: &Line,
    ) -> Result<(), NoMemory> {
        let first = step.before;
        match line {
            Line::Write { .. } | Line::Read { .. } => Ok(()),
            Line::Resend { .. } => add_words(note, "asks again"),
            Line::Lie { .. } => add_words(note, "told, and not given yet"),
            Line::Call { .. } | Line::False { .. } => self.call(note, step),
            Line::Give { message, .. } => self.give(note, step, *message as usize, first),
            Line::Poke { .. } | Line::Sound { .. } | Line::Mix { .. } => {
                self.give(note, step, first, first.saturating_add(1))
            }
            Line::Hear { message, .. } => self.hear(note, step, *message as usize),
            Line::Tell { .. } => self.hear(note, step, first),
            Line::Lost { client, node } => self.lose(note, step, *client, *node),
            Line::CrashClient { client } => self.crash_client(note, step, *client),
            Line::CrashNode { node } => self.mark(note, step, Actor::Node(*node), Sign::Crash),
            Line::Prune { node, .. } => self.mark(note, step, Actor::Node(*node), Sign::Prune),
            Line::Back { client } => self.mark(note, step, Actor::Client(*client), Sign::Back),
            Line::Restart { node } => self.mark(note, step, Actor::Node(*node), Sign::Back),
        }
    }

    /// A client's ask to a node and the node's answer, which the client hears.
    fn call(&mut self, note: &mut String, step: &Step<'_>) -> Result<(), NoMemory> {
        let answer = step.before;
        let ask = match step.message(answer) {
            Some(message) => self.sent_messages.ask_of(message),
            None => None,
        };
        if let Some(ask) = ask {
            let arrow = self.sent_messages.settle_call(ask, step.row());
            add_arrow(&mut self.deeds.arrows, arrow)?;
            self.hold(step, ask, answer)?;
        }
        self.hear(note, step, answer)
    }

    /// An ask that a node is given, and the node's answer, which nobody hears yet.
    fn give(
        &mut self,
        note: &mut String,
        step: &Step<'_>,
        ask: usize,
        answer: usize,
    ) -> Result<(), NoMemory> {
        let arrow = self.sent_messages.settle(ask, step.row(), Fate::Arrived);
        add_arrow(&mut self.deeds.arrows, arrow)?;
        self.hold(step, ask, answer)?;
        match step.message(answer) {
            Some(message) => self.add_answer(note, step, message, true),
            None => Ok(()),
        }
    }

    /// An answer that a client hears.
    fn hear(&mut self, note: &mut String, step: &Step<'_>, answer: usize) -> Result<(), NoMemory> {
        let Some(message) = step.message(answer) else {
            return Ok(());
        };
        let counts = self.counts(message);
        if counts {
            self.counted.insert(pair_of(message), message.tag)?;
        }
        let fate = if counts { Fate::Arrived } else { Fate::Stale };
        let arrow = self.sent_messages.settle(answer, step.row(), fate);
        add_arrow(&mut self.deeds.arrows, arrow)?;
        self.add_answer(note, step, message, counts)
    }

    /// Whether an answer is the first of its node to the client's phase under way, and of the kind that this asks for.
    fn counts(&self, message: &Message) -> bool {
        let Body::Answer(reply) = &message.body else {
            return false;
        };
        let Some(phase) = self.phases.get(&message.client) else {
            return false;
        };
        phase.tag == message.tag
            && phase.is_answered_by(reply)
            && self.counted.get(&pair_of(message)).copied() != Some(message.tag)
    }

    /// Marks a correct node that acknowledges the version of an ask.
    fn hold(&mut self, step: &Step<'_>, ask: usize, answer: usize) -> Result<(), NoMemory> {
        let Some(Message { node, body, .. }) = step.message(answer) else {
            return Ok(());
        };
        let is_ack = matches!(body, Body::Answer(Reply::Ack));
        if is_ack && is_store(step, ask) && !self.run.liars.node(*node) {
            return self.add_mark(step, Actor::Node(*node), Sign::Holds);
        }
        Ok(())
    }

    fn lose(
        &mut self,
        note: &mut String,
        step: &Step<'_>,
        client: u32,
        node: u8,
    ) -> Result<(), NoMemory> {
        let arrow = self.sent_messages.lose(Pair { client, node }, step.row());
        self.deeds.arrows.push(arrow)?;
        add_words(note, "lost")
    }

    /// Marks one who takes part, and tells what happens to it.
    fn mark(
        &mut self,
        note: &mut String,
        step: &Step<'_>,
        actor: Actor,
        sign: Sign,
    ) -> Result<(), NoMemory> {
        self.add_mark(step, actor, sign)?;
        let what = sign_words(sign);
        Ok(write!(note, "{actor} {what}")?)
    }

    fn add_mark(&mut self, step: &Step<'_>, actor: Actor, sign: Sign) -> Result<(), NoMemory> {
        let row = step.row();
        self.deeds.marks.push(Mark { actor, row, sign })?;
        Ok(())
    }

    fn crash_client(
        &mut self,
        note: &mut String,
        step: &Step<'_>,
        client: u32,
    ) -> Result<(), NoMemory> {
        self.break_off(client, step.row())?;
        self.mark(note, step, Actor::Client(client), Sign::Crash)
    }
}

/// Adds an arrow, if there is one.
fn add_arrow(arrows: &mut Vec<Arrow>, arrow: Option<Arrow>) -> Result<(), NoMemory> {
    if let Some(arrow) = arrow {
        arrows.push(arrow)?;
    }
    Ok(())
}

/// What happens to one who has a sign.
fn sign_words(sign: Sign) -> &'static str {
    match sign {
        Sign::Crash => "crashes",
        Sign::Back => "is back",
        Sign::Prune => "drops old versions",
        Sign::Holds => "holds a version",
    }
}
