ghost use Rattle.std.specs.Prelude.{◌≡◌, ◌≤◌, ◌<◌, List, ℕ, Option, length, take, IfOk, OnOk, OnErr};
ghost use Rattle.outside_io.specs.Causes.{HasCause};
ghost use Rattle.outside_io.specs.Written.{Adds, AllFlushed};

use crate::source::Failed;

/// What bytes are written to.
pub trait Sink {
    // the bytes taken so far, where the sink tells them
    ghost taken: { Self → Option (List ℕ) };

    // how many of them were flushed
    ghost flushed: { Self → ℕ };

    // how many writes and flushes have failed
    ghost faults: { Self → ℕ };

    // the last value that the count can have, if there is one: there it cannot rise
    ghost last: { Option ℕ };

    /// Takes the first bytes of the piece, and answers how many: at least one of a piece that isn't empty. A write that
    /// fails takes nothing, and is counted; one that succeeds isn't.
    fn write(&mut self, piece: &[u8]) -> Result<usize, Failed>
        ensures bound { IfOk result (λ count. count ≤ length piece.now) }
        ensures some { 0 < length piece.now → IfOk result (λ count. 0 < count) }
        ensures bytes { IfOk result (λ count. Adds (taken self.old) (taken self.new)
            (take count piece.now)) }
        ensures nothing { OnErr result (taken self.new ≡ taken self.old) }
        ensures unflushed { flushed self.new ≡ flushed self.old }
        ensures cause { HasCause last (faults self.old) (faults self.new) result };

    /// Hands on all bytes taken so far. A flush that fails changes nothing, and is counted; one that succeeds isn't.
    fn flush(&mut self) -> Result<(), Failed>
        ensures all { OnOk result (AllFlushed (taken self.new) (flushed self.new)) }
        ensures bytes { taken self.new ≡ taken self.old }
        ensures unflushed { OnErr result (flushed self.new ≡ flushed self.old) }
        ensures cause { HasCause last (faults self.old) (faults self.new) result };
}
