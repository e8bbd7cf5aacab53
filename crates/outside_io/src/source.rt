ghost use Rattle.std.specs.Prelude.{◌≡◌, List, ℕ, Bool, Option, is_err, OnErr};
ghost use Rattle.std.specs.Io.{ReadsAtMost};
ghost use Rattle.std.specs.Io.KnownBytes.{ReadConsumes};
ghost use Rattle.outside_io.specs.Causes.{HasCause, RoseByOne};

/// A read, a write or a flush failed.
#[derive(Clone, Copy, Debug, PartialEq, Eq)]
pub struct Failed;

/// What bytes are read from.
pub trait Source {
    // the bytes that are left, where the source tells them
    ghost left: { Self → Option (List ℕ) };

    // how many reads have failed
    ghost faults: { Self → ℕ };

    // the last value that the count can have, if there is one: there it cannot rise
    ghost last: { Option ℕ };

    // whether the last read failed
    ghost failed: { Self → Bool };

    /// Puts the next bytes into the room, and answers how many. None for a room that isn't empty is the end of the input.
    /// A read that fails takes nothing, and is counted once; one that succeeds isn't.
    fn read(&mut self, room: &mut [u8]) -> Result<usize, Failed>
        ensures bound { ReadsAtMost result room.new }
        ensures bytes { ReadConsumes (left self.old) (left self.new) result room.new }
        ensures cause { HasCause last (faults self.old) (faults self.new) result }
        ensures counted { OnErr result (RoseByOne last (faults self.old) (faults self.new)) }
        ensures failed { failed self.new ≡ is_err result };
}
