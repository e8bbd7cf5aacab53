//! The forms of messages' texts, piece by piece.
ghost use Rattle.std.specs.Prelude.{◌≡◌, ◌↔◌, ◌<◌, ◌≤◌, length, take, slice_index, IsTrue, true, false};
ghost use Rattle.std.specs.List.{AllPass};
ghost use Rattle.text_lines.specs.Lines.{texts};
ghost use Rattle.message_texts.specs.Longest.{Begins, IsLongest};
ghost use Rattle.message_texts.specs.Pieces.{IsPiece, is_fillable, is_low_digit, is_sound, are_sound, IsForm, IsOfForms};
ghost use Rattle.message_texts.specs.Texts.{IsText};

use text_lines::number;

/// A piece of a text.
#[derive(Clone, Copy)]
pub enum Piece {
    Byte(u8),
    /// A number up to this one.
    Number(u64),
    /// Hexadecimal digits in lower case: at least and at most so many, and a multiple of a group.
    Digits {
        group: usize,
        least: usize,
        most: usize,
    },
}

impl Piece {
    ghost use Rattle.message_texts.specs.Pieces.{piece_of, IsPiece, is_fillable};

    /// The piece that a letter of a form stands for. Any other byte stands for itself.
    pub fn of(letter: u8) -> Piece
        ensures { result ≡ piece_of letter }
    {
        match letter {
            b'C' => Piece::Number(4294967295),
            b'I' => Piece::Number(255),
            b'N' => Piece::Number(18446744073709551615),
            b'H' => Piece::Digits {
                group: 64,
                least: 64,
                most: 64,
            },
            b'S' => Piece::Digits {
                group: 64,
                least: 0,
                most: 2048,
            },
            b'F' => Piece::Digits {
                group: 2,
                least: 0,
                most: 32768,
            },
            byte => Piece::Byte(byte),
        }
    }

    /// How many bytes of the text begin a text of this piece.
    pub fn front(self, text: &[u8]) -> usize
        requires { is_fillable self ≡ true }
        ensures { IsLongest (IsPiece self) text.now result }
    {
        match self {
            Piece::Byte(byte) => byte_front(byte, text),
            Piece::Number(most) => number_front(most, text),
            Piece::Digits { most, .. } => digits_front(most, text),
        }
    }

    /// Whether the front is a text of this piece.
    pub fn is_whole(self, front: &[u8]) -> bool
        requires filled { is_fillable self ≡ true }
        requires begins { Begins (IsPiece self) front.now }
        ensures { IsTrue result ↔ IsPiece self front.now }
    {
        match self {
            Piece::Byte(_) => !front.is_empty(),
            Piece::Number(most) => is_number(most, front),
            Piece::Digits { group, least, .. } => {
                front.len() >= least && front.len() % group == 0
            }
        }
    }
}

fn byte_front(byte: u8, text: &[u8]) -> usize
    ensures { IsLongest (IsPiece (Piece.Byte byte)) text.now result }
{
    match text {
        [first, ..] if *first == byte => 1,
        _ => 0,
    }
}

/// Whether the field is a number up to this one.
fn is_number(most: u64, field: &[u8]) -> bool
    ensures { IsTrue result ↔ IsPiece (Piece.Number most) field.now }
{
    match number(field) {
        Some(n) => n <= most,
        None => false,
    }
}

fn number_front(most: u64, text: &[u8]) -> usize
    ensures { IsLongest (IsPiece (Piece.Number most)) text.now result }
{
    let mut end = 0;
    while end < text.len() && is_number(most, &text[..end + 1]) {
        end += 1;
    }
    end
}

fn is_low_digit(byte: u8) -> bool
    ensures { result ≡ is_low_digit byte }
{
    matches!(byte, b'0'..=b'9' | b'a'..=b'f')
}

/// How many digits the text begins with, up to the most.
fn digits_front(most: usize, text: &[u8]) -> usize
    ensures few { result ≤ most }
    ensures within { result ≤ length text.now }
    ensures low { AllPass is_low_digit (take result text.now) }
    ensures stops { result < most → result < length text.now
        → is_low_digit (slice_index text.now result) ≡ false }
{
    let mut end = 0;
    while end < most && end < text.len() && is_low_digit(text[end]) {
        end += 1;
    }
    end
}

/// How many bytes of the text begin a text of the form.
fn reach(form: &[u8], text: &[u8]) -> usize
    requires { is_sound form.now ≡ true }
    ensures { IsLongest (IsForm form.now) text.now result }
{
    let Some((letter, rest)) = form.split_first() else {
        return 0;
    };
    let piece = Piece::of(*letter);
    let end = piece.front(text);
    if !piece.is_whole(&text[..end]) {
        return end;
    }
    end + reach(rest, &text[end..])
}

/// How many bytes of the text begin a text of one of the forms.
fn furthest(forms: &[&[u8]], text: &[u8]) -> usize
    requires sound { are_sound (texts forms.now) ≡ true }
    ensures some { 0 < length forms.now → IsLongest (IsOfForms (texts forms.now)) text.now result }
    ensures none { length forms.now ≡ 0 → result ≡ 0 }
{
    let Some((form, rest)) = forms.split_first() else {
        return 0;
    };
    reach(form, text).max(furthest(rest, text))
}

/// The forms of messages' texts. A letter stands for a piece.
const FORMS: [&[u8]; 14] = [
    b"ask C I N N C time",
    b"ask C I N N C read all",
    b"ask C I N N C read atmost N.C.H",
    b"ask C I N N C read below N.C.H",
    b"ask C I N N C write N.C.H xS xF",
    b"answer C I N N time N",
    b"answer C I N N found N.C.H xS xF",
    b"answer C I N N nothing",
    b"answer C I N N ack",
    b"answer C I N N refused 1",
    b"answer C I N N refused 2",
    b"answer C I N N refused 3",
    b"answer C I N N refused 4",
    b"answer C I N N refused 5",
];

/// How many bytes of the text begin some message's text.
pub fn longest(text: &[u8]) -> usize
    ensures { IsLongest IsText text.now result }
{
    furthest(&FORMS, text)
}
