ghost use Rattle.std.specs.Prelude.{◌≡◌, ◌↔◌, [], ◌∷◌, IsTrue, IfSome, IfNone, codes};
ghost use Rattle.command_texts.specs.Words.{texts, AreOfForm, AreOfNoForm, AreOfCommand, IsCommand, RunsThreads, words_of, IsNamed};

use crate::nbd::nbd_of;
use quorum_rules::Config;
use text_lines::number;

/// How the nodes of a run serve its clients.
#[derive(Clone, Copy, Debug, PartialEq, Eq)]
pub enum Serving {
    /// Under locks, which the clients' threads take.
    ByLocks,
    /// By workers: each node is a thread of its own, which takes asks from an inbox.
    ByWorkers,
}

/// A command that writes a text.
#[derive(Clone, Copy, Debug, PartialEq, Eq)]
pub enum Command {
    /// Replays a script, and writes the report of its history.
    Replay,
    /// Runs a plan with threads, and writes the report of its history; `workers` after its word has nodes be threads too.
    Run(Serving),
    /// The same, and writes the script of what took place before the report.
    Trace(Serving),
    /// Judges a report.
    Check,
    /// Writes the fragments and digests of a value.
    Sum,
    /// Runs the plan that the number makes, and writes a digest of its history.
    Soak(u64),
}

impl Command {
    /// Whether the command runs threads.
    pub fn runs_threads(&self) -> bool
        ensures { IsTrue result ↔ RunsThreads self.now }
    {
        matches!(self, Command::Run(_) | Command::Trace(_) | Command::Soak(_))
    }
}

/// What the program's words ask for.
#[derive(Clone, Copy)]
pub enum Form {
    /// A text, which is made of the whole input and then written.
    Text(Command),
    /// `nbd`: a session of requests to a device of this configuration, each answered before the next is read.
    Session(Config),
}

/// The form that the words are of.
pub fn form_of(words: &[String]) -> Option<Form>
    ensures some { IfSome result (AreOfForm (texts words.now)) }
    ensures none { IfNone result (AreOfNoForm (texts words.now)) }
{
    if let Some(config) = nbd_of(words) {
        return Some(Form::Session(config));
    }
    Some(Form::Text(command_of(words)?))
}

// The command of a single word.
fn named(word: &str) -> Option<Command>
    ensures some { IfSome result (λ command. words_of command ≡ word.now ∷ []) }
    ensures none { IfNone result (IsNamed word.now → ⊥) }
{
    match word {
        "replay" => Some(Command::Replay),
        "run" => Some(Command::Run(Serving::ByLocks)),
        "trace" => Some(Command::Trace(Serving::ByLocks)),
        "check" => Some(Command::Check),
        "sum" => Some(Command::Sum),
        _ => None,
    }
}

// The command of a word and `workers`.
fn with_workers(word: &str) -> Option<Command>
    ensures some { IfSome result (λ command.
        IsCommand command × (words_of command ≡ word.now ∷ codes "workers" ∷ [])) }
    ensures none { IfNone result (AreOfCommand (word.now ∷ codes "workers" ∷ []) → ⊥) }
{
    match word {
        "run" => Some(Command::Run(Serving::ByWorkers)),
        "trace" => Some(Command::Trace(Serving::ByWorkers)),
        _ => None,
    }
}

// The command of two words.
fn paired(word: &str, second: &str) -> Option<Command>
    ensures some { IfSome result (λ command.
        IsCommand command × (words_of command ≡ word.now ∷ second.now ∷ [])) }
    ensures none { IfNone result (AreOfCommand (word.now ∷ second.now ∷ []) → ⊥) }
{
    if second == "workers" {
        return with_workers(word);
    }
    if word != "soak" {
        return None;
    }
    Some(Command::Soak(number(second.as_bytes())?))
}

// The command that the words are those of.
fn command_of(words: &[String]) -> Option<Command>
    ensures some { IfSome result (λ command.
        IsCommand command × (texts words.now ≡ words_of command)) }
    ensures none { IfNone result (AreOfCommand (texts words.now) → ⊥) }
{
    match words {
        [word] => named(word.as_str()),
        [word, second] => paired(word.as_str(), second.as_str()),
        _ => None,
    }
}
