/// The lines whose words are followed by fields, and what these are.
#[derive(Clone, Copy)]
pub enum Form {
    /// A client, a block and a value.
    Write,
    /// A client and a block.
    Read,
    /// A client.
    Resend,
    /// A client and a node.
    Call,
    /// A node and a message of the pool.
    Give,
    /// A client and a message of the pool.
    Hear,
    /// A client and a node.
    Lost,
    /// `node` and a node, or `client` and a client.
    Crash,
    /// A client, a node and a rule.
    False,
    /// A client, a node, a block, a time and a value.
    Sound,
    /// A client, a node, a block, a time and two values.
    Mix,
    /// A node and a block.
    Prune,
    /// `client` and a client.
    Back,
    /// `node` and a node.
    Restart,
    /// A client, a place and a value of any length.
    Put,
    /// A client, a place and a length.
    Get,
    /// A client.
    Next,
}

impl Form {
    ghost use Rattle.std.specs.Prelude.{◌≡◌};
    ghost use Rattle.event_lines.specs.Rests.{field_count};
    ghost use Rattle.event_lines.specs.Words.{form_text};

    /// How many fields follow the word.
    pub fn count(self) -> usize
        ensures { result ≡ field_count self }
    {
        match self {
            Form::Resend | Form::Next => 1,
            Form::Read | Form::Call | Form::Give | Form::Hear => 2,
            Form::Lost | Form::Crash | Form::Prune | Form::Back | Form::Restart => 2,
            Form::Write | Form::False | Form::Put | Form::Get => 3,
            Form::Sound => 5,
            Form::Mix => 6,
        }
    }

    /// How the word is spelled.
    fn text(self) -> &'static [u8]
        ensures { result.now ≡ form_text self }
    {
        match self {
            Form::Write => b"write",
            Form::Read => b"read",
            Form::Resend => b"resend",
            Form::Call => b"call",
            Form::Give => b"give",
            Form::Hear => b"hear",
            Form::Lost => b"lost",
            Form::Crash => b"crash",
            Form::False => b"false",
            Form::Sound => b"sound",
            Form::Mix => b"mix",
            Form::Prune => b"prune",
            Form::Back => b"back",
            Form::Restart => b"restart",
            Form::Put => b"put",
            Form::Get => b"get",
            Form::Next => b"next",
        }
    }
}

/// The lines whose words are followed by the text of a message.
#[derive(Clone, Copy)]
pub enum Speech {
    /// Any message.
    Lie,
    /// An answer.
    Tell,
    /// An ask.
    Poke,
}

impl Speech {
    ghost use Rattle.std.specs.Prelude.{◌≡◌};
    ghost use Rattle.event_lines.specs.Words.{speech_text};

    /// How the word is spelled.
    fn text(self) -> &'static [u8]
        ensures { result.now ≡ speech_text self }
    {
        match self {
            Speech::Lie => b"lie",
            Speech::Tell => b"tell",
            Speech::Poke => b"poke",
        }
    }
}

/// The word that an event line begins with.
#[derive(Clone, Copy)]
pub enum LineWord {
    Form(Form),
    Speech(Speech),
}

/// Each word, in the order of their declaration.
const WORDS: [LineWord; 20] = [
    LineWord::Form(Form::Write),
    LineWord::Form(Form::Read),
    LineWord::Form(Form::Resend),
    LineWord::Form(Form::Call),
    LineWord::Form(Form::Give),
    LineWord::Form(Form::Hear),
    LineWord::Form(Form::Lost),
    LineWord::Form(Form::Crash),
    LineWord::Form(Form::False),
    LineWord::Form(Form::Sound),
    LineWord::Form(Form::Mix),
    LineWord::Form(Form::Prune),
    LineWord::Form(Form::Back),
    LineWord::Form(Form::Restart),
    LineWord::Form(Form::Put),
    LineWord::Form(Form::Get),
    LineWord::Form(Form::Next),
    LineWord::Speech(Speech::Lie),
    LineWord::Speech(Speech::Tell),
    LineWord::Speech(Speech::Poke),
];

impl LineWord {
    ghost use Rattle.std.specs.Prelude.{◌≡◌};
    ghost use Rattle.event_lines.specs.Words.{word_of, word_text};

    /// The word that a field spells.
    pub fn of(field: &[u8]) -> Option<LineWord>
        ensures { result ≡ word_of field.now }
    {
        WORDS.iter().find(|word| field == word.text()).copied()
    }

    /// How the word is spelled.
    fn text(self) -> &'static [u8]
        ensures { result.now ≡ word_text self }
    {
        match self {
            LineWord::Form(form) => form.text(),
            LineWord::Speech(speech) => speech.text(),
        }
    }
}
