//! The ends of arrows, which the styles of classes name.
ghost use Rattle.std.specs.Prelude.{◌≡◌};
ghost use Rattle.picture_svg.specs.Documents.{marker_text};

use crate::classes::Class;
use lists::NoMemory;
use std::alloc::Global;

pub const ASK: &[u8] =
    b"<marker id=\"ask\" markerUnits=\"userSpaceOnUse\" markerWidth=\"10\" markerHeight=\"10\" refX=\"9\" refY=\"5\" orient=\"auto\"><path d=\"M0 1L10 5L0 9Z\" fill=\"#4682b4\"/></marker>
";

pub const ASK_LIE: &[u8] =
    b"<marker id=\"ask-lie\" markerUnits=\"userSpaceOnUse\" markerWidth=\"10\" markerHeight=\"10\" refX=\"9\" refY=\"5\" orient=\"auto\"><path d=\"M0 1L10 5L0 9Z\" fill=\"#d1495b\"/></marker>
";

pub const ANSWER: &[u8] =
    b"<marker id=\"answer\" markerUnits=\"userSpaceOnUse\" markerWidth=\"10\" markerHeight=\"10\" refX=\"9\" refY=\"5\" orient=\"auto\"><path d=\"M1 1L9 5L1 9\" fill=\"none\" stroke=\"#4682b4\"/></marker>
";

pub const ANSWER_LIE: &[u8] =
    b"<marker id=\"answer-lie\" markerUnits=\"userSpaceOnUse\" markerWidth=\"10\" markerHeight=\"10\" refX=\"9\" refY=\"5\" orient=\"auto\"><path d=\"M1 1L9 5L1 9\" fill=\"none\" stroke=\"#d1495b\"/></marker>
";

pub const STALE: &[u8] =
    b"<marker id=\"stale\" markerUnits=\"userSpaceOnUse\" markerWidth=\"6\" markerHeight=\"14\" refX=\"3\" refY=\"7\" orient=\"auto\"><path d=\"M3 1L3 13\" fill=\"none\" stroke=\"#8c959f\" stroke-width=\"2\"/></marker>
";

pub const STALE_LIE: &[u8] =
    b"<marker id=\"stale-lie\" markerUnits=\"userSpaceOnUse\" markerWidth=\"6\" markerHeight=\"14\" refX=\"3\" refY=\"7\" orient=\"auto\"><path d=\"M3 1L3 13\" fill=\"none\" stroke=\"#d1495b\" stroke-width=\"2\"/></marker>
";

pub const DIAMOND: &[u8] =
    b"<marker id=\"lie\" markerUnits=\"userSpaceOnUse\" markerWidth=\"11\" markerHeight=\"11\" refX=\"5.5\" refY=\"5.5\" orient=\"auto\"><path d=\"M5.5 0L11 5.5L5.5 11L0 5.5Z\" fill=\"#d1495b\"/></marker>
";

/// The end of an arrow; or its beginning, which is a diamond where a liar told it.
#[derive(Clone, Copy, PartialEq, Eq)]
pub enum Marker {
    Ask,
    AskLie,
    Answer,
    AnswerLie,
    Stale,
    StaleLie,
    Diamond,
}

impl Marker {
    /// Its text.
    pub fn text(self) -> &'static [u8]
        ensures { result.now ≡ marker_text self }
    {
        match self {
            Marker::Ask => ASK,
            Marker::AskLie => ASK_LIE,
            Marker::Answer => ANSWER,
            Marker::AnswerLie => ANSWER_LIE,
            Marker::Stale => STALE,
            Marker::StaleLie => STALE_LIE,
            Marker::Diamond => DIAMOND,
        }
    }
}

/// The markers of each class that has some.
const USES: [(Class, Marker); 11] = [
    (Class::Ask, Marker::Ask),
    (Class::AskLie, Marker::AskLie),
    (Class::Answer, Marker::Answer),
    (Class::AnswerLie, Marker::AnswerLie),
    (Class::Stale, Marker::Stale),
    (Class::StaleLie, Marker::StaleLie),
    (Class::AskLie, Marker::Diamond),
    (Class::AnswerLie, Marker::Diamond),
    (Class::StaleLie, Marker::Diamond),
    (Class::LostLie, Marker::Diamond),
    (Class::NeverLie, Marker::Diamond),
];

/// The markers that the styles of these classes name, each once.
pub fn markers_of(alloc: Global, used: &[Class]) -> Result<Vec<Marker>, NoMemory> {
    let mut markers = Vec::new(alloc);
    for (class, marker) in &USES {
        if used.contains(class) && !markers.contains(marker) {
            markers.push(*marker)?;
        }
    }
    Ok(markers)
}
