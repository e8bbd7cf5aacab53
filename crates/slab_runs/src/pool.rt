ghost use Rattle.std.specs.Prelude.{◌<◌};

/// How many slots the sequences use.
pub const PLACES: usize = 8;

/// What is known of a slot.
#[derive(Clone, Copy, PartialEq, Eq)]
pub enum State {
    Free,
    Marked,
    /// Its mark was taken away, and that isn't safe yet.
    Going,
}

/// The slots that the sequences use, the last one first.
#[derive(Drop)]
pub struct Pool {
    states: [State; PLACES],
}

impl Pool {
    /// Slots of which these are free.
    pub fn of(free: &[bool]) -> Pool {
        let mut states = [State::Marked; PLACES];
        for place in 0..PLACES {
            if free.get(slot_of(place) as usize) == Some(&true) {
                states[place] = State::Free;
            }
        }
        Pool { states }
    }

    /// The state of the slot at a place.
    pub fn state(&self, place: usize) -> State
        requires { place < 8 }
    {
        self.states[place]
    }

    /// Changes the state of the slot at a place.
    pub fn set(&mut self, place: usize, state: State)
        requires { place < 8 }
    {
        self.states[place] = state;
    }

    /// How many slots are free.
    pub fn free_count(&self) -> u64 {
        let mut count = 0u64;
        for state in &self.states {
            if *state == State::Free {
                count = count.saturating_add(1);
            }
        }
        count
    }

    /// Makes each slot of one state one of another.
    pub fn turn(&mut self, from: State, to: State) {
        for place in 0..PLACES {
            if self.states[place] == from {
                self.states[place] = to;
            }
        }
    }
}

/// The slot at a place.
pub fn slot_of(place: usize) -> u64
    requires { place < 8 }
    ensures { result < 70 }
{
    69 - 5 * place as u64
}
