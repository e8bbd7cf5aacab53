/// The word that a plan's line begins with, and what follows it.
#[derive(Clone, Copy)]
pub enum PlanWord {
    /// `node`, a node and a rule, or `client` and what the client sends.
    Liar,
    /// `node` and a node, or `client` and a client, and a count.
    Crash,
    /// `drop`, a client, a node and a count.
    Lose,
    /// A client, a node and a count.
    Hold,
    /// A client, a block and a value.
    Write,
    /// A client and a block.
    Read,
    /// A client, a place and a value of any length.
    Put,
    /// A client, a place and a length.
    Get,
    /// Nothing.
    Phase,
}

/// Each word, in the order of their declaration.
const WORDS: [PlanWord; 9] = [
    PlanWord::Liar,
    PlanWord::Crash,
    PlanWord::Lose,
    PlanWord::Hold,
    PlanWord::Write,
    PlanWord::Read,
    PlanWord::Put,
    PlanWord::Get,
    PlanWord::Phase,
];

impl PlanWord {
    ghost use Rattle.std.specs.Prelude.{◌≡◌};
    ghost use Rattle.plan_words.specs.Forms.{word_of, word_text};

    /// The word that a field spells.
    pub fn of(field: &[u8]) -> Option<PlanWord>
        ensures { result ≡ word_of field.now }
    {
        WORDS.iter().find(|word| field == word.text()).copied()
    }

    /// How the word is spelled.
    fn text(self) -> &'static [u8]
        ensures { result.now ≡ word_text self }
    {
        match self {
            PlanWord::Liar => b"liar",
            PlanWord::Crash => b"crash",
            PlanWord::Lose => b"drop",
            PlanWord::Hold => b"hold",
            PlanWord::Write => b"write",
            PlanWord::Read => b"read",
            PlanWord::Put => b"put",
            PlanWord::Get => b"get",
            PlanWord::Phase => b"phase",
        }
    }
}
