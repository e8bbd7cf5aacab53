//! What a node answers a client.
ghost use Rattle.std.specs.Prelude.{◌≡◌, ◌↔◌, IsTrue};
ghost use Rattle.client_endpoints.specs.Mail.{IsAnswerTo};

use event_clock::{Clock, Note};
use inboxes::InboxItem;
use journals::Way;
use locked_nodes::{CellRefusal, Told};
use std::snapshot::Snapshot;
use wire_forms::Message;

/// Where the answers to one client lie: by which clock, and the client's number.
#[derive(Drop)]
pub struct ClientPlace {
    pub clock: Snapshot<Clock>,
    pub client: u32,
}

/// A node's answer on its way to a client: what the node's cell told or refused, and the ask itself, with the way that it went.
pub struct Answered {
    pub way: Way,
    pub ask: Message,
    pub told: Result<Told, CellRefusal>,
    /// What the client's pass has seen, and the number of what was told.
    pub note: Note,
}

// By hand, since a derived drop is proved anew wherever one is let go.
impl Drop for Answered {
    fn drop(self) {
        let Answered {
            way: _way,
            ask: _ask,
            told: _told,
            note: _note,
        } = self;
    }
}

impl InboxItem for Answered {
    type Place = ClientPlace;

    ghost fits = { IsAnswerTo };
}

impl Answered {
    /// Whether it is the answer to this ask, which went this way.
    pub fn is_to(&self, way: Way, ask: &Message) -> bool
        ensures { IsTrue result ↔ ((self.now.way ≡ way) × (self.now.ask ≡ ask.now)) }
    {
        self.way == way && self.ask.same(ask)
    }

    /// What was told or refused, and the note that has seen it.
    pub fn into_told(self) -> (Result<Told, CellRefusal>, Note)
        ensures told { result.0 ≡ self.told }
        ensures note { result.1 ≡ self.note }
    {
        let Answered {
            way: _way,
            ask: _ask,
            told,
            note,
        } = self;
        (told, note)
    }
}
