ghost use Rattle.std.specs.Prelude.{◌<◌};

/// Numbers that are drawn by a rule, so that the model draws the same.
#[derive(Clone, Copy)]
pub struct Draws {
    state: u64,
}

impl Draws {
    pub fn new(seed: u64) -> Draws {
        Draws { state: seed }
    }

    /// The next number.
    pub fn next(&mut self) -> u64 {
        self.state = self
            .state
            .wrapping_mul(6364136223846793005)
            .wrapping_add(1442695040888963407);
        self.state
    }

    /// The next number, below a limit.
    pub fn below(&mut self, limit: u64) -> u64
        requires { 0 < limit }
        ensures { result < limit }
    {
        (self.next() >> 33) % limit
    }
}
