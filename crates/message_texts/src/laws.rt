//! Laws of the texts of messages. Each law is a function with nothing to do.
ghost use Rattle.std.specs.Prelude.{◌≡◌};
ghost use Rattle.wire_forms.specs.declared.message.Message.{Message};
ghost use Rattle.message_texts.specs.Texts.{IsMessage, text_of};

/// No two messages share a text.
pub fn texts_are_unique()
    ensures { (m n : Message) → IsMessage m → IsMessage n → text_of m ≡ text_of n → m ≡ n }
{}
