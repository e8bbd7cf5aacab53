//! The lines whose words are followed by the text of a message.

ghost use Rattle.std.specs.Prelude.{◌≡◌, ◌∷◌, ◌++◌};
ghost use Rattle.line_forms.specs.Tables.{Gives};
ghost use Rattle.message_texts.specs.Texts.{IsMessage, message_fields};
ghost use Rattle.event_lines.specs.Forms.{message_cause, messages_of};
ghost use Rattle.event_lines.specs.Lines.{IsSpelled};
ghost use Rattle.event_lines.specs.Messages.{ask_forms, answer_forms};
ghost use Rattle.event_lines.specs.Rests.{fields_after};
ghost use Rattle.event_lines.specs.Words.{speech_text};
ghost use Rattle.quorum_rules.specs.Limits.{Numbers};

use crate::line::ReplayLine;
use crate::word::Speech;
use line_forms::{Cause, LineRefusal};
use message_texts::{TextRefusal, read};
use run_words::{BoxedMessage, Line};
use std::alloc::Global;
use wire_forms::{Body, Message};

/// The line of a message, from what follows the space behind its word, if there is one.
pub fn read_speech(
    alloc: Global,
    speech: Speech,
    rest: Option<&[u8]>,
) -> Result<ReplayLine, LineRefusal>
    ensures { (c : Numbers) → Gives (IsSpelled c (speech_text speech ∷ fields_after rest.entry))
        (message_cause (messages_of speech) (fields_after rest.entry)) result }
{
    let message = read_any(alloc, rest)?;
    let message = BoxedMessage::new(alloc, message)?;
    match (speech, &message.get().body) {
        (Speech::Lie, _) => Ok(ReplayLine::Plain(Line::Lie { message })),
        (Speech::Tell, Body::Answer(_)) => Ok(ReplayLine::Plain(Line::Tell { message })),
        (Speech::Poke, Body::Ask(_)) => Ok(ReplayLine::Plain(Line::Poke { message })),
        _ => Err(LineRefusal::Cause(Cause::BadMessage)),
    }
}

/// The message, an ask or an answer.
fn read_any(alloc: Global, rest: Option<&[u8]>) -> Result<Message, LineRefusal>
    ensures { Gives (λ m. IsMessage m × (message_fields m ≡ fields_after rest.entry))
        (message_cause (ask_forms ++ answer_forms) (fields_after rest.entry)) result }
{
    let Some(text) = rest else {
        return Err(LineRefusal::Cause(Cause::WrongCount));
    };
    match read(alloc, text) {
        Ok(message) => Ok(message),
        Err(TextRefusal::NoMemory) => Err(LineRefusal::NoMemory),
        Err(TextRefusal::At(_)) => Err(LineRefusal::Cause(Cause::BadMessage)),
    }
}
