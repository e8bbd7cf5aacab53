use run_words::Outcome;
use wire_forms::Mail;

/// What a message did to a client.
#[derive(Drop)]
pub enum Heard {
    /// Nothing: the client is idle, or the message isn't an answer that its present phase counts.
    Unchanged,
    /// The answer was counted, and the phase goes on.
    More,
    /// The phase has ended, and these messages of the next one are to be sent.
    Send(Mail),
    /// The operation has ended.
    Ended(Outcome),
}
