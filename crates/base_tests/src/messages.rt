ghost use Rattle.std.specs.Prelude.{IsTrue};
ghost use Rattle.message_texts.specs.Texts.{HasShort, HasLimits};

use cross_sum::Bytes;
use message_texts::{TextRefusal, print, read};
use std::alloc::Global;
use std::test::Fail;
use wire_forms::{Ask, Body, Message, Reply, Request, Version};

fn is_short(body: &Body) -> bool
    ensures { IsTrue result → HasLimits body.now }
{
    match body {
        Body::Ask(
            Ask {
                request: Request::Write(version),
                ..
            },
        ) => has_short(version),
        Body::Answer(Reply::Found(version)) => has_short(version),
        _ => true,
    }
}

fn has_short(version: &Version) -> bool
    ensures { IsTrue result → HasShort version.now }
{
    version.sum.len() <= 32 && version.fragment.len() <= 16384
}

fn printed(alloc: Global, message: &Message) -> Result<Bytes, Fail> {
    if !is_short(&message.body) {
        return Err(Fail::from("the message is within the limits"));
    }
    Ok(print(alloc, message)?)
}

/// Whether a text is a message's, which has it again.
fn reads_back(alloc: Global, text: &str) -> Result<bool, Fail> {
    let message = read(alloc, text.as_bytes())?;
    Ok(printed(alloc, &message)?.as_slice() == text.as_bytes())
}

#[test]
fn messages_have_their_texts(rt: HostRuntime) -> Result<(), Fail> {
    for text in [
        "ask 1000 15 1 2 9 time",
        "ask 1000 15 1 2 9 read all",
        "ask 1000 15 1 2 9 read atmost 7.3.abababababababababababababababababababababababababababababababab",
        "ask 1000 15 1 2 9 read below 7.3.abababababababababababababababababababababababababababababababab",
        "ask 1000 15 1 2 9 write 7.3.abababababababababababababababababababababababababababababababab x0f0f0f0f0f0f0f0f0f0f0f0f0f0f0f0f0f0f0f0f0f0f0f0f0f0f0f0f0f0f0f0f x00ff",
        "answer 1000 15 1 2 time 18446744073709551615",
        "answer 1000 15 1 2 found 7.3.abababababababababababababababababababababababababababababababab x0f0f0f0f0f0f0f0f0f0f0f0f0f0f0f0f0f0f0f0f0f0f0f0f0f0f0f0f0f0f0f0f x00ff",
        "answer 1000 15 1 2 nothing",
        "answer 1000 15 1 2 ack",
        "answer 1000 15 1 2 refused 3",
        "answer 1000 15 1 2 refused 5",
    ] {
        assert!(rt; reads_back(rt.alloc(), text)?, "{text}");
    }
    Ok(())
}

#[test]
fn a_refusal_tells_how_far_a_text_begins_a_message(rt: HostRuntime) {
    for (text, place) in [
        ("", 0),
        ("ask 1 0 1 1 0 tim", 17),
        ("ask 1 0 1 1 0 time ", 18),
        ("ask 01 0 1 1 0 time", 5),
        ("ask 4294967296 0 1 1 0 time", 13),
        ("ask 1 256 1 1 0 time", 8),
        ("ask 1 0 1 1 0 read below 1.2.0aB", 31),
        ("ask 1 0 1 1 0 write 1.2.", 24),
        ("answer 1 0 1 1 refused 6", 23),
        ("answer 1 0 1 1 x", 15),
    ] {
        let refused = read(rt.alloc(), text.as_bytes()).err();
        assert_eq!(rt; refused, Some(TextRefusal::At(place)), "{text}");
    }
}
