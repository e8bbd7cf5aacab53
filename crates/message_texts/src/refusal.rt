use lists::NoMemory;

/// Why no message is read.
#[derive(Clone, Copy, Debug, PartialEq, Eq)]
pub enum TextRefusal {
    /// No memory was found.
    NoMemory,
    /// The text isn't that of any message. So many bytes of it, and no more, begin the text of some message.
    At(usize),
}

impl From<NoMemory> for TextRefusal {
    ghost use Rattle.std.specs.Prelude.{◌≡◌};
    ghost use Rattle.message_texts.specs.declared.refusal.TextRefusal.TheVariants as refusals;

    ghost from_gives = { λ _ e. e ≡ refusals.NoMemory };

    fn from(_: NoMemory) -> TextRefusal {
        TextRefusal::NoMemory
    }
}
