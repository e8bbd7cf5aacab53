ghost use Rattle.std.specs.Prelude.{◌≡◌, ◌↔◌, IsTrue, [], ◌∷◌, ◌++◌, length, decimal, IfOk, OnOk, OnErr};
ghost use Rattle.hex.specs.Hex.{encode_lower};
ghost use Rattle.text_lines.specs.Fields.{value_text};

use cross_sum::Bytes;
use itoa::Buffer;
use lists::NoMemory;
use std::alloc::Global;
use std::marker::Model;

/// A text that is written from its front to its end.
///
/// Each call that writes adds its piece whole, or answers `NoMemory` and leaves the text as it was.
#[derive(Drop)]
pub struct Text {
    bytes: Vec<u8>,
}

impl Model for Text {
    ghost use Rattle.std.specs.Prelude.{List, ℕ};

    ghost Value = { List ℕ };

    ghost view = { λ t. t.bytes.items };
}

impl Text {
    /// A text with nothing in it.
    pub fn new(alloc: Global) -> Text
        ensures { result ≡ [] }
    {
        Text {
            bytes: Vec::new(alloc),
        }
    }

    /// Adds a piece as it is.
    pub fn add(&mut self, piece: &[u8]) -> Result<(), NoMemory>
        ensures ok { OnOk result (self.new ≡ self.old ++ piece.now) }
        ensures err { OnErr result (self.new ≡ self.old) }
    {
        self.bytes.extend_from_slice(piece)?;
        Ok(())
    }

    /// Adds one byte.
    pub fn add_byte(&mut self, byte: u8) -> Result<(), NoMemory>
        ensures ok { OnOk result (self.new ≡ self.old ++ byte ∷ []) }
        ensures err { OnErr result (self.new ≡ self.old) }
    {
        self.bytes.push(byte)?;
        Ok(())
    }

    /// Adds the space between two fields.
    pub fn add_space(&mut self) -> Result<(), NoMemory>
        ensures ok { OnOk result (self.new ≡ self.old ++ 32 ∷ []) }
        ensures err { OnErr result (self.new ≡ self.old) }
    {
        self.add_byte(b' ')
    }

    /// Adds the newline at a line's end.
    pub fn add_newline(&mut self) -> Result<(), NoMemory>
        ensures ok { OnOk result (self.new ≡ self.old ++ 10 ∷ []) }
        ensures err { OnErr result (self.new ≡ self.old) }
    {
        self.add_byte(b'\n')
    }

    /// Adds a number in decimal digits, without a leading zero.
    pub fn add_number(&mut self, number: u64) -> Result<(), NoMemory>
        ensures ok { OnOk result (self.new ≡ self.old ++ decimal number) }
        ensures err { OnErr result (self.new ≡ self.old) }
    {
        let mut buffer = Buffer::new();
        self.add(buffer.format(number).as_bytes())
    }

    /// Adds two hexadecimal digits in lower case for each byte.
    pub fn add_hex(&mut self, bytes: &[u8]) -> Result<(), NoMemory>
        ensures ok { OnOk result (self.new ≡ self.old ++ encode_lower bytes.now) }
        ensures err { OnErr result (self.new ≡ self.old) }
    {
        let from = self.bytes.len();
        let digits = bytes.len().checked_mul(2).ok_or(NoMemory)?;
        let end = from.checked_add(digits).ok_or(NoMemory)?;
        self.bytes.resize(end, 0)?;
        // The room is just that of the digits, so this is never refused.
        let _ = hex::encode_to_slice(bytes, &mut self.bytes[from..]);
        Ok(())
    }

    /// Adds the text of a value: `x`, and two hexadecimal digits for each byte.
    pub fn add_value(&mut self, bytes: &[u8]) -> Result<(), NoMemory>
        ensures ok { OnOk result (self.new ≡ self.old ++ value_text bytes.now) }
        ensures err { OnErr result (self.new ≡ self.old) }
    {
        self.add_byte(b'x')?;
        let added = self.add_hex(bytes);
        if added.is_err() {
            self.bytes.pop();
        }
        added
    }

    /// What was written so far.
    pub fn as_slice(&self) -> &[u8]
        ensures { result.now ≡ self.now }
    {
        self.bytes.as_slice()
    }

    /// How many bytes were written so far.
    pub fn len(&self) -> usize
        ensures { result ≡ length self.now }
    {
        self.bytes.len()
    }

    /// Whether nothing was written so far.
    pub fn is_empty(&self) -> bool
        ensures { IsTrue result ↔ (self.now ≡ []) }
    {
        self.bytes.is_empty()
    }

    /// The text, given away.
    pub fn into_bytes(self) -> Result<Bytes, NoMemory>
        ensures { IfOk result (λ bytes. bytes ≡ self) }
    {
        Bytes::shared(self.bytes)
    }
}
