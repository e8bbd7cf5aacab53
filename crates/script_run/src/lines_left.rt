//! Lines that are taken one by one, and their memory with them.
ghost use Rattle.std.specs.Prelude.{◌≡◌, ◌++◌, [], IfNone, option_to_list};

use script_text::{ReplayLine, ReplayLines};
use std::marker::Model;

/// The lines of a script that are still to be played. Contracts see the list of them, in order.
#[derive(Drop)]
pub struct LinesLeft {
    /// The last line first, so that the next one is taken from the end.
    lines: Vec<ReplayLine>,
}

impl Model for LinesLeft {
    ghost use Rattle.std.specs.Prelude.{List, reverse};
    ghost use Rattle.event_lines.specs.declared.line.ReplayLine.{ReplayLine};

    ghost Value = { List ReplayLine };

    ghost view = { λ l. reverse l.lines.items };
}

impl LinesLeft {
    /// All lines of a script.
    pub fn of(lines: ReplayLines) -> LinesLeft
        ensures { result ≡ lines }
    {
        let mut lines = lines.into_vec();
        lines.reverse();
        LinesLeft { lines }
    }

    /// Takes the next line, if there is one. Where half of the room is free, it is given back: so a
    /// line is moved less than twice on average.
    pub fn next(&mut self) -> Option<ReplayLine>
        ensures parts { self.old ≡ option_to_list result ++ self.new }
        ensures none { IfNone result (self.old ≡ []) }
    {
        let line = self.lines.pop();
        if self.lines.len() <= self.lines.capacity() / 2 {
            self.lines.shrink_to_fit();
        }
        line
    }
}
