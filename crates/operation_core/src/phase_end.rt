use crate::stage::Stage;
use run_words::Outcome;
use wire_forms::Mail;

/// What a phase comes to with the last answer that it waits for.
#[derive(Drop)]
pub enum PhaseEnd {
    /// The next phase begins, in this stage and with these messages.
    Begins(Stage, Mail),
    /// The operation ends.
    Ends(Outcome),
}
