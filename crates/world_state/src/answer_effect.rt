ghost use Rattle.std.specs.Prelude.{false, ◌≡◌, ◌≤◌};
ghost use Rattle.world_state.specs.Worlds.{world_in};
ghost use Rattle.world_state.specs.Changes.{HasBecome, client_in};
ghost use Rattle.world_state.specs.AnswerEffects.{MayApply, applied};

use crate::state::State;
use operation_core::Stage;
use run_words::Outcome;
use wire_forms::{Reply, Tag};

/// What a heard answer does to a client. What it needs is at hand, so doing it takes no memory.
pub(crate) enum AnswerEffect {
    /// Nothing changes.
    Same,
    /// Its operation counts an answer, and goes on in the present phase.
    Counts { node: u8, tag: Tag, reply: Reply },
    /// Its operation goes on with a next phase, in this stage.
    Goes(Stage),
    /// Its operation ends.
    Ends(Outcome),
}

impl Drop for AnswerEffect {
    fn drop(self) {
        match self {
            AnswerEffect::Same => {}
            AnswerEffect::Counts {
                node: _node,
                tag: _tag,
                reply: _reply,
            } => {}
            AnswerEffect::Goes(_stage) => {}
            AnswerEffect::Ends(_outcome) => {}
        }
    }
}

impl AnswerEffect {
    /// Does the effect to the client of this number, and tells in its record what came of it.
    pub(crate) fn apply(self, state: &mut State, client: u32)
        requires client { client ≤ 1000 }
        requires awake { (world_in state.now).client_crashed client ≡ false }
        requires effect { MayApply state.now client self }
        ensures { HasBecome state.old state.new (applied (world_in state.old)
            (client_in state.old client) ((world_in state.old).task client) self) }
    {
        match self {
            AnswerEffect::Same => {}
            AnswerEffect::Counts { node, tag, reply } => state.count(client, node, tag, reply),
            AnswerEffect::Goes(stage) => state.go_on(client, stage),
            AnswerEffect::Ends(outcome) => state.end(client, outcome),
        }
    }
}
