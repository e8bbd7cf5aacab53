ghost use Rattle.std.specs.Prelude.{◌≡◌, ◌+◌, ◌^◌, ◌<◌, ◌≤◌, [], ◌∷◌, length, map, All, Some, IfOk};
ghost use Rattle.event_clock.specs.Views.{IsDrawnOnce, IsEachPass, drawn_count, first_view, only, other_shares, with_shares};
ghost use Rattle.event_clock.specs.Passes.{clock_id, unused, IsUnused, left_of, drew, met, heeded, sight_of, sight_at, IsNote, share_of, holder};

use crate::rule::{CutNote, Draw, FirstPass, Look, Numbering, TakeIn, View};
use atomic_table::{Seat, Table};
use lists::{ItemList, NoMemory};
use std::alloc::Global;
use std::cmp::max;
use std::marker::Model;

/// How many numbers one pass may draw.
const DRAWS: u64 = 1 << 40;

type Ticker = Table<(), View, u64, Numbering, Global>;

/// Gives out the numbers 0, 1, 2 and so on, each once, to the passes that draw them. Threads share it by reference.
/// Contracts see which clock it is, and how many passes it has.
pub struct Clock {
    table: Ticker,
}

// By hand, as for passes and notes: a derived drop is proved anew wherever one is let go.
impl Drop for Clock {
    fn drop(self) {
        let Clock { table: _table } = self;
    }
}

impl Model for Clock {
    ghost use Rattle.std.specs.Prelude.{◌≡◌, ◌≤◌};
    ghost use Rattle.event_clock.specs.Passes.{ClockId};

    ghost Value = { ClockId };

    ghost view = { λ c. record { table = c.table.shared.table_id; passes = c.table.shared.key } };

    ghost invariant = { λ c. (c.table.shared.table_id.words ≡ 1)
        × (1 ≤ c.table.shared.key) × (c.table.shared.key ≤ 65536) };
}

/// The right to draw numbers from one clock. Contracts see its clock, its pass number, the least number that it may draw
/// next (`seen`), and the list of the numbers that it drew. Of these `seen` and how many it may still draw are kept at run
/// time.
pub struct Pass {
    seat: Seat<(), View>,
    left: u64,
    seen: u64,
}

impl Drop for Pass {
    fn drop(self) {
        let Pass {
            seat: _seat,
            left: _left,
            seen: _seen,
        } = self;
    }
}

impl Model for Pass {
    ghost use Rattle.event_clock.specs.Passes.{Holder, holder, IsPass};

    ghost Value = { Holder };

    ghost view = { λ p. holder p.seat.table_id p.seat.me.0 };

    ghost invariant = { λ p. IsPass p.seat.me p.left p.seen };
}

/// What a pass has seen, to be taken to another thread: the pass that heeds it there draws above that. Contracts see its
/// clock, and the least number that such a pass may draw next (`seen`). It may be let go.
pub struct Note {
    seat: Seat<(), View>,
    seen: u64,
}

impl Drop for Note {
    fn drop(self) {
        let Note {
            seat: _seat,
            seen: _seen,
        } = self;
    }
}

impl Model for Note {
    ghost use Rattle.event_clock.specs.Passes.{Sight, sight_at, IsNote};

    ghost Value = { Sight };

    ghost view = { λ n. sight_at n.seat.table_id n.seat.me.0 };

    ghost invariant = { λ n. IsNote n.seat.me n.seen };
}

/// The passes of a clock. A pass's number is its place in the list that `Clock::start` gives, counted from 0.
pub type Passes = ItemList<Pass>;

/// What a closed clock gave out. Contracts also see which pass drew which numbers. Only `Clock::close` makes one.
pub struct Drawn {
    count: u64,
    keeper: Seat<(), View>,
}

impl Drop for Drawn {
    fn drop(self) {
        let Drawn {
            count: _count,
            keeper: _keeper,
        } = self;
    }
}

impl Model for Drawn {
    ghost use Rattle.std.specs.Prelude.{◌≡◌, ◌≤◌, ◌^◌};
    ghost use Rattle.event_clock.specs.Views.{IsDrawnOnce, drawn_count};
    ghost use Rattle.event_clock.specs.Passes.{Tally};

    ghost Value = { Tally };

    ghost view = { λ d. record { count = d.count; shares = d.keeper.me.0.shares } };

    ghost invariant = { λ d. IsDrawnOnce d.count d.keeper.me.0.shares
        × (drawn_count d.keeper.me.0.shares ≡ d.count) × (d.count ≤ 2 ^ 56) };
}

impl Pass {
    /// How many numbers it may still draw, of the 2^40 that it has at first.
    pub fn left(&self) -> u64
        ensures left { result ≡ left_of self.now }
        ensures drawn { length self.now.drawn + result ≡ 2 ^ 40 }
    {
        self.left
    }

    /// The least number that it may draw next.
    pub fn seen(&self) -> u64
        ensures { result ≡ self.now.seen }
    {
        self.seen
    }

    // Its seat, with what it knows.
    fn into_seat(self) -> Seat<(), View>
        ensures table { result.table_id ≡ self.clock.table }
        ensures bare { result.me.1 ≡ [] }
        ensures passes { result.me.0.passes ≡ self.clock.passes }
        ensures shares { result.me.0.shares ≡ share_of self ∷ [] }
        ensures seen { result.me.0.seen ≡ self.seen }
    {
        let Pass {
            seat,
            left: _,
            seen: _,
        } = self;
        seat
    }
}

impl Note {
    // Its seat, with what it knows, and what it has seen.
    fn into_parts(self) -> (Seat<(), View>, u64)
        ensures sight { sight_at result.0.table_id result.0.me.0 ≡ self }
        ensures note { IsNote result.0.me result.1 }
    {
        let Note { seat, seen } = self;
        (seat, seen)
    }
}

impl Clock {
    /// A clock with so many passes, from 1 to 65,536, each of which has drawn and seen nothing.
    pub fn start(alloc: Global, passes: u32) -> Result<(Clock, Passes), NoMemory>
        requires { (1 ≤ passes) × (passes ≤ 65536) }
        ensures clock { IfOk result (λ r. r.0.passes ≡ passes) }
        ensures all { IfOk result (λ r. length r.1 ≡ passes) }
        ensures each { IfOk result (λ r. IsUnused r.0 r.1 passes) }
    {
        let (table, seat) = Table::of_words(alloc, &[0], &u64::from(passes))?;
        let list = hand_out(alloc, &table, seat, passes)?;
        Ok((Clock { table }, list))
    }

    /// Draws the next number, which is not below any that the pass has seen. It takes no memory and waits for nobody.
    pub fn draw(&self, pass: &mut Pass) -> u64
        requires own { pass.old.clock ≡ self.now }
        requires left { 0 < left_of pass.old }
        ensures later { pass.old.seen ≤ result }
        ensures small { result < 2 ^ 56 }
        ensures drawn { pass.new ≡ drew pass.old result }
    {
        let number = self.table.shared.fetch_add::<Draw>(&mut pass.seat, 0, 1);
        pass.left -= 1;
        pass.seen = number + 1;
        number
    }

    /// Lets two passes see what the other has seen: whatever either draws from now on is above what both had seen. It takes
    /// no memory and waits for nobody.
    pub fn meet(&self, one: &mut Pass, other: &mut Pass)
        requires one { one.old.clock ≡ self.now }
        requires other { other.old.clock ≡ self.now }
        ensures one { one.new ≡ met one.old other.old }
        ensures other { other.new ≡ met other.old one.old }
    {
        let brought = self.note(other);
        self.heed(one, brought);
        let told = self.note(one);
        self.heed(other, told);
    }

    /// A note of what a pass has seen. It takes no memory and waits for nobody.
    pub fn note(&self, pass: &mut Pass) -> Note
        requires own { pass.old.clock ≡ self.now }
        ensures pass { pass.new ≡ pass.old }
        ensures note { result ≡ sight_of pass.old }
    {
        Note {
            seat: self.table.shared.split_seat::<CutNote>(&mut pass.seat),
            seen: pass.seen,
        }
    }

    /// Lets a pass see what a note has seen: whatever it draws from now on is above that. It takes no memory and waits for
    /// nobody.
    pub fn heed(&self, pass: &mut Pass, note: Note)
        requires own { pass.old.clock ≡ self.now }
        requires note { note.clock ≡ self.now }
        ensures { pass.new ≡ heeded pass.old note.seen }
    {
        let (seat, seen) = note.into_parts();
        self.table.shared.join_seat::<TakeIn>(&mut pass.seat, seat);
        pass.seen = max(pass.seen, seen);
    }

    /// Ends the clock, given all its passes. The numbers drawn are those below the count, each once over all passes.
    pub fn close(self, passes: Passes) -> Drawn
        requires own { All (λ p. p.clock ≡ self) passes }
        requires all { length passes ≡ self.passes }
        ensures shares { result.shares ≡ map share_of passes }
        ensures once { IsDrawnOnce result.count result.shares }
        ensures count { drawn_count result.shares ≡ result.count }
        ensures passes { IsEachPass self.passes result.shares }
        ensures seen { All (λ p. p.seen ≤ result.count) passes }
    {
        let mut keeper = join_all(&self.table, passes);
        let count = self.table.shared.load::<Look>(&mut keeper, 0);
        Drawn { count, keeper }
    }
}

impl Drawn {
    /// How many numbers were drawn. They are those below it, each once over all passes.
    pub fn count(&self) -> u64
        ensures count { result ≡ self.now.count }
        ensures once { IsDrawnOnce self.now.count self.now.shares }
        ensures total { drawn_count self.now.shares ≡ self.now.count }
        ensures small { result ≤ 2 ^ 56 }
    {
        self.count
    }
}

// Each pass of the first seat, in a seat of its own.
fn hand_out(
    alloc: Global,
    table: &Ticker,
    mut seat: Seat<(), View>,
    passes: u32,
) -> Result<Passes, NoMemory>
    requires word { table.now.shared.table_id.words ≡ 1 }
    requires own { seat.table_id ≡ table.now.shared.table_id }
    requires first { seat.me.0 ≡ first_view passes }
    ensures all { IfOk result (λ list. length list ≡ passes) }
    ensures each { IfOk result (λ list. IsUnused (clock_id seat.table_id passes) list passes) }
{
    let mut list = ItemList::new(alloc);
    for _ in 0..passes {
        list.push(cut_first(table, &mut seat))?;
    }
    Ok(list)
}

// The first pass of a seat, which has drawn nothing.
fn cut_first(table: &Ticker, seat: &mut Seat<(), View>) -> Pass
    requires word { table.now.shared.table_id.words ≡ 1 }
    requires own { seat.old.table_id ≡ table.now.shared.table_id }
    requires some { 0 < length seat.old.me.0.shares }
    requires unused { (only seat.old.me.0.shares).drawn ≡ [] }
    requires unseen { seat.old.me.0.seen ≡ 0 }
    ensures own { seat.new.table_id ≡ seat.old.table_id }
    ensures others { seat.new.me.0 ≡ with_shares seat.old.me.0 (other_shares seat.old.me.0.shares) }
    ensures first { result ≡ holder seat.old.table_id seat.old.me.0 }
{
    Pass {
        seat: table.shared.split_seat::<FirstPass>(seat),
        left: DRAWS,
        seen: 0,
    }
}

// One seat with all passes, in their order.
fn join_all(table: &Ticker, mut passes: Passes) -> Seat<(), View>
    requires word { table.now.shared.table_id.words ≡ 1 }
    requires own { All (λ p.
        p.clock ≡ clock_id table.now.shared.table_id table.now.shared.key) passes }
    requires some { 0 < length passes }
    ensures own { result.table_id ≡ table.now.shared.table_id }
    ensures passes { result.me.0.passes ≡ table.now.shared.key }
    ensures shares { result.me.0.shares ≡ map share_of passes }
    ensures seen { All (λ p. p.seen ≤ result.me.0.seen) passes }
{
    let Some(last) = passes.pop() else {
        unreachable!()
    };
    let mut keeper = last.into_seat();
    while let Some(pass) = passes.pop() {
        table
            .shared
            .join_seat::<TakeIn>(&mut keeper, pass.into_seat());
    }
    keeper
}
