/// The words of messages' texts.
#[derive(Clone, Copy)]
pub enum MessageWord {
    Ask,
    Answer,
    Time,
    Read,
    Write,
    All,
    AtMost,
    Below,
    Found,
    Nothing,
    Ack,
    Refused,
}

/// Each word, in the order of their declaration.
const WORDS: [MessageWord; 12] = [
    MessageWord::Ask,
    MessageWord::Answer,
    MessageWord::Time,
    MessageWord::Read,
    MessageWord::Write,
    MessageWord::All,
    MessageWord::AtMost,
    MessageWord::Below,
    MessageWord::Found,
    MessageWord::Nothing,
    MessageWord::Ack,
    MessageWord::Refused,
];

impl MessageWord {
    ghost use Rattle.std.specs.Prelude.{◌≡◌};
    ghost use Rattle.message_texts.specs.Words.{word_of, word_text};

    /// The word that a field spells.
    pub fn of(field: &[u8]) -> Option<MessageWord>
        ensures { result ≡ word_of field.now }
    {
        WORDS.iter().find(|word| field == word.text()).copied()
    }

    /// How the word is spelled.
    fn text(self) -> &'static [u8]
        ensures { result.now ≡ word_text self }
    {
        match self {
            MessageWord::Ask => b"ask",
            MessageWord::Answer => b"answer",
            MessageWord::Time => b"time",
            MessageWord::Read => b"read",
            MessageWord::Write => b"write",
            MessageWord::All => b"all",
            MessageWord::AtMost => b"atmost",
            MessageWord::Below => b"below",
            MessageWord::Found => b"found",
            MessageWord::Nothing => b"nothing",
            MessageWord::Ack => b"ack",
            MessageWord::Refused => b"refused",
        }
    }
}
