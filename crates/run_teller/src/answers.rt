//! What nodes answer, in words.
use crate::teller::{Step, Teller};
use crate::words::add_words;
use lists::NoMemory;
use std::fmt::Write;
use wire_forms::{Ask, Body, Message, Reason, Reply, Request};

/// Why a node refuses, in a word of the formats.
fn reason_word(reason: Reason) -> &'static str {
    match reason {
        Reason::BadBlock => "BadBlock",
        Reason::BadLength => "BadLength",
        Reason::TimeZero => "TimeZero",
        Reason::BadVerifier => "BadVerifier",
        Reason::BadDigest => "BadDigest",
    }
}

/// The ask of this number.
fn ask<'s>(step: &Step<'s>, number: usize) -> Option<&'s Ask> {
    match &step.message(number)?.body {
        Body::Ask(ask) => Some(ask),
        Body::Answer(_) => None,
    }
}

/// Whether the message of this number asks to store a version.
pub fn is_store(step: &Step<'_>, number: usize) -> bool {
    match ask(step, number) {
        Some(ask) => matches!(ask.request, Request::Write(_)),
        None => false,
    }
}

impl<'a> Teller<'a> {
    /// Adds what a message answers, and whether it counted.
    pub(crate) fn add_answer(
        &self,
        note: &mut String,
        step: &Step<'_>,
        message: &Message,
        counts: bool,
    ) -> Result<(), NoMemory> {
        let Body::Answer(reply) = &message.body else {
            return Ok(());
        };
        let node = message.node;
        write!(note, "node {node}")?;
        if self.run.liars.node(node) {
            add_words(note, " lies")?;
        }
        add_words(note, ": ")?;
        self.add_reply(note, self.asked(step, message), reply)?;
        if !counts {
            add_words(note, ", which changes nothing")?;
        }
        Ok(())
    }

    /// The ask that an answer may belong to.
    fn asked<'s>(&self, step: &Step<'s>, answer: &Message) -> Option<&'s Ask> {
        ask(step, self.sent_messages.ask_of(answer)?)
    }

    /// Adds what a node replies to an ask.
    fn add_reply(
        &self,
        note: &mut String,
        ask: Option<&Ask>,
        reply: &Reply,
    ) -> Result<(), NoMemory> {
        match reply {
            Reply::TimeIs(time) => Ok(write!(note, "time {time}")?),
            Reply::Found(version) => {
                add_words(note, "found ")?;
                let block = match ask {
                    Some(ask) => ask.block,
                    None => 0,
                };
                self.run.add_name(note, block, &version.stamp)
            }
            Reply::Nothing => add_words(note, "found nothing"),
            Reply::Ack => self.add_ack(note, ask),
            Reply::Refused(reason) => {
                add_words(note, "refused, ")?;
                add_words(note, reason_word(*reason))
            }
        }
    }

    fn add_ack(&self, note: &mut String, ask: Option<&Ask>) -> Result<(), NoMemory> {
        if let Some(ask) = ask {
            if let Request::Write(version) = &ask.request {
                add_words(note, "holds ")?;
                return self.run.add_name(note, ask.block, &version.stamp);
            }
        }
        add_words(note, "ack")
    }
}
