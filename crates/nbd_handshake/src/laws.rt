//! Laws of handshakes, each the contract of a function that does nothing.
ghost use Rattle.std.specs.Prelude.{◌≡◌, ℕ, List};
ghost use Rattle.nbd_handshake.specs.Handshakes.{End, EndsSo};

/// Each input has one end, by its bytes alone.
pub fn each_input_has_one_end()
    ensures some { (input : List ℕ) → (end : End) × EndsSo end input }
    ensures one { (input : List ℕ) (a b : End) → EndsSo a input → EndsSo b input → a ≡ b }
{}
