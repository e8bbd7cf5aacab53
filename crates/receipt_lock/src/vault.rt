ghost use Rattle.std.specs.Prelude.{◌≡◌, ◌+◌, ◌^◌, ◌<◌, ◌≤◌, [], ◌∷◌, length, All, None, Some, IsSome, IfOk};
ghost use Rattle.receipt_lock.specs.Tickets.{Begins, AllStand, HasTurn, times_held, known_of, with_entries, with_turn, without_one, fresh};
ghost use Rattle.receipt_lock.specs.Chits.{vault_id, new_chit, AreNew, took, gave, found_list, all_mine, TookOut};
ghost use Rattle.receipt_lock.specs.Receipts.{IsSettled};

use crate::Kept;
use crate::rule::{
    AddEntries, Call, ChitState, OneChit, Queue, Serve, Start, TakeIn, Tickets, View,
};
use atomic_table::{Seat, Table};
use lists::{ItemList, NoMemory};
use std::alloc::Global;
use std::marker::Model;
use std::snapshot::Snapshot;
use std::sync::Wait;

// How often one chit may take the value.
const TAKES: u64 = 1 << 41;

// The words of the table: the next ticket, the ticket served, and the number of entries.
const NEXT: usize = 0;

const SERVED: usize = 1;

const ENTRIES: usize = 2;

// The slot in which the value lies while no chit holds it.
const HOME: usize = 0;

type Ticker<T> = Table<Option<T>, View<<T as Kept>::Entry>, Start<T>, Tickets, Global>;

type Holding<T> = Seat<Option<T>, View<<T as Kept>::Entry>>;

/// A value that threads take out in turn and give back. Threads share the vault by reference. Contracts see which vault it
/// is, the entries that its value had at first, and how many chits it has.
pub struct Vault<T: Kept> {
    table: Ticker<T>,
}

// By hand, as for chits: a derived drop is proved anew wherever one is let go.
impl<T: Kept> Drop for Vault<T> {
    fn drop(self) {
        let Vault { table: _table } = self;
    }
}

impl<T: Kept> Model for Vault<T> {
    ghost use Rattle.std.specs.Prelude.{◌≡◌, ◌≤◌};
    ghost use Rattle.receipt_lock.specs.Chits.{Deposit, vault_id};

    ghost Value = { Deposit T.Entry };

    ghost view = { λ v. record {
      id = vault_id v.table.shared.table_id (T.list v.table.shared.key.value.value);
      chits = v.table.shared.key.chits;
    } };

    ghost invariant = { λ v. (v.table.shared.table_id.words ≡ 3) × (v.table.shared.table_id.slots ≡ 1)
        × (1 ≤ v.table.shared.key.chits) × (v.table.shared.key.chits ≤ 65536) };
}

/// The right to take the value of a vault, and the receipts for what was left in it. Contracts see its vault, how often it
/// may still take, the entries that it left, each with its place in the value's list, and, while it holds the value, the list
/// as it was taken. The entries are kept in proofs alone.
pub struct Chit<T: Kept> {
    seat: Holding<T>,
    left: u64,
    found: u64,
}

impl<T: Kept> Drop for Chit<T> {
    fn drop(self) {
        let Chit {
            seat: _seat,
            left: _left,
            found: _found,
        } = self;
    }
}

impl<T: Kept> Model for Chit<T> {
    ghost use Rattle.receipt_lock.specs.Chits.{Holder, holder, IsChit};

    ghost Value = { Holder T.Entry };

    ghost view = { λ c. holder c.seat.table_id c.seat.me.0 };

    ghost invariant = { λ c. IsChit c.seat.me c.left c.found };
}

/// The chits of a vault.
pub type Chits<T> = ItemList<Chit<T>>;

impl<T: Kept> Chit<T> {
    /// How often it may still take the value, of the 2^41 times that it may at first.
    pub fn left(&self) -> u64
        ensures { result ≡ self.now.left }
    {
        self.left
    }

    // Its seat, with what it knows.
    fn into_seat(self) -> Holding<T>
        requires { self.holds ≡ None }
        ensures table { result.table_id ≡ self.vault.table }
        ensures one { result.me.0.chits ≡ 1 }
        ensures idle { result.me.0.turn ≡ ChitState.Idle }
        ensures bare { result.me.1 ≡ [] }
        ensures mine { result.me.0.mine ≡ self.mine }
    {
        let Chit {
            seat,
            left: _,
            found: _,
        } = self;
        seat
    }
}

impl<T: Kept> Vault<T> {
    /// A vault with so many chits, from 1 to 65,536, each of which has taken and left nothing. Where no memory is found the
    /// value is let go.
    pub fn new(alloc: Global, value: T, chits: u32) -> Result<(Vault<T>, Chits<T>), NoMemory>
        requires { (1 ≤ chits) × (chits ≤ 65536) }
        ensures begun { IfOk result (λ r. r.0.id.begun ≡ T.list value) }
        ensures count { IfOk result (λ r. r.0.chits ≡ chits) }
        ensures all { IfOk result (λ r. length r.1 ≡ chits) }
        ensures each { IfOk result (λ r. AreNew r.0.id r.1 chits) }
    {
        let start = Start {
            chits: u64::from(chits),
            value: Snapshot::of(&value),
        };
        let words = [0, 0, value.entries()];
        let mut slots = Vec::new(alloc);
        slots.push(Some(value))?;
        let Ok((table, seat)) = Table::new(alloc, &words, slots, &start) else {
            return Err(NoMemory);
        };
        let list = hand_out(alloc, &table, seat, chits)?;
        Ok((Vault { table }, list))
    }

    /// Waits for the chit's turn, and takes the value out. It has the entries that it had at first, and those that this chit
    /// left, at their places.
    pub fn take(&self, rt: &impl Wait, chit: &mut Chit<T>) -> T
        requires own { chit.old.vault ≡ self.now.id }
        requires rests { chit.old.holds ≡ None }
        requires left { 0 < chit.old.left }
        ensures chit { chit.new ≡ took chit.old (T.list result) }
        ensures begun { Begins self.now.id.begun (T.list result) }
        ensures mine { AllStand (T.list result) chit.old.mine }
    {
        let value = take_out(rt, &self.table, &mut chit.seat);
        chit.left -= 1;
        chit.found = value.entries();
        value
    }

    /// Gives the value back with entries added, or with none. The chit has them from then on, each with its place, counted
    /// from 0. It waits for nobody.
    pub fn give(&self, chit: &mut Chit<T>, value: T)
        requires own { chit.old.vault ≡ self.now.id }
        requires holds { IsSome chit.old.holds }
        requires grew { Begins (found_list chit.old.holds) (T.list value) }
        ensures { chit.new ≡ gave chit.old (T.list value) }
    {
        let added = value.entries() - chit.found;
        put_back(&self.table, &mut chit.seat, value, added);
    }

    /// Ends the vault, given all its chits, and gives the value back. Its list begins with the entries that it had at first,
    /// each chit's entries stand in it at their places, and each further place stands in exactly one chit, once.
    pub fn close(self, chits: Chits<T>) -> T
        requires own { All (λ c. c.vault ≡ self.id) chits }
        requires rest { All (λ c. c.holds ≡ None) chits }
        requires all { length chits ≡ self.chits }
        ensures { IsSettled self.id.begun (T.list result) chits }
    {
        let Vault { table } = self;
        let keeper = join_all(&table, chits);
        let mut closed = table.close_with(keeper);
        let value = closed.take(HOME);
        closed.free();
        let Some(value) = value else { unreachable!() };
        value
    }
}

// Each chit of the first seat, in a seat of its own.
fn hand_out<T: Kept>(
    alloc: Global,
    table: &Ticker<T>,
    mut seat: Holding<T>,
    chits: u32,
) -> Result<Chits<T>, NoMemory>
    requires words { table.now.shared.table_id.words ≡ 3 }
    requires own { seat.table_id ≡ table.now.shared.table_id }
    requires first { seat.me.0 ≡ fresh chits seat.me.0.begun }
    ensures all { IfOk result (λ list. length list ≡ chits) }
    ensures each { IfOk result (λ list.
        AreNew (vault_id seat.table_id seat.me.0.begun) list chits) }
{
    let mut list = ItemList::new(alloc);
    for _ in 0..chits {
        list.push(cut_one(table, &mut seat))?;
    }
    Ok(list)
}

// One chit of a seat whose chits have taken nothing.
fn cut_one<T: Kept>(table: &Ticker<T>, seat: &mut Holding<T>) -> Chit<T>
    requires words { table.now.shared.table_id.words ≡ 3 }
    requires own { seat.old.table_id ≡ table.now.shared.table_id }
    requires some { 0 < seat.old.me.0.chits }
    requires fresh { seat.old.me.0 ≡ fresh seat.old.me.0.chits seat.old.me.0.begun }
    ensures own { seat.new.table_id ≡ seat.old.table_id }
    ensures others { seat.new.me.0 ≡ without_one seat.old.me.0 }
    ensures chit { result ≡ new_chit (vault_id seat.old.table_id seat.old.me.0.begun) }
{
    Chit {
        seat: table.shared.split_seat::<OneChit>(seat),
        left: TAKES,
        found: 0,
    }
}

// Draws a ticket, waits for its turn, and takes the value out.
fn take_out<T: Kept>(rt: &impl Wait, table: &Ticker<T>, seat: &mut Holding<T>) -> T
    requires words { table.now.shared.table_id.words ≡ 3 }
    requires chits { table.now.shared.key.chits ≤ 65536 }
    requires own { seat.old.table_id ≡ table.now.shared.table_id }
    requires one { seat.old.me.0.chits ≡ 1 }
    requires idle { seat.old.me.0.turn ≡ ChitState.Idle }
    requires bare { seat.old.me.1 ≡ [] }
    requires left { seat.old.me.0.takes < 2 ^ 41 }
    ensures own { seat.new.table_id ≡ seat.old.table_id }
    ensures holds { TookOut seat.old.me.0 (T.list result) seat.new.me }
    ensures begun { Begins seat.old.me.0.begun (T.list result) }
    ensures mine { AllStand (T.list result) seat.old.me.0.mine }
{
    let ticket = table.shared.fetch_add::<Queue>(seat, NEXT, 1);
    await_turn(rt, table, seat, ticket);
    let Some(value) = table.shared.exchange(seat, HOME, None) else {
        unreachable!()
    };
    value
}

// Waits until the ticket is served.
fn await_turn<T: Kept>(rt: &impl Wait, table: &Ticker<T>, seat: &mut Holding<T>, ticket: u64)
    requires words { table.now.shared.table_id.words ≡ 3 }
    requires own { seat.old.table_id ≡ table.now.shared.table_id }
    requires one { seat.old.me.0.chits ≡ 1 }
    requires waits { seat.old.me.0.turn ≡ ChitState.Waits ticket }
    requires bare { seat.old.me.1 ≡ [] }
    ensures own { seat.new.table_id ≡ seat.old.table_id }
    ensures turn { HasTurn T.list seat.old.me.0 seat.new.me }
{
    for _ in rt.forever() {
        let served = table.shared.load::<Call>(seat, SERVED);
        if served == ticket {
            return;
        }
        table.shared.park(rt, SERVED, low_half(served));
    }
    unreachable!()
}

fn low_half(word: u64) -> u32 {
    (word & 0xffff_ffff) as u32
}

// Puts the value back, says how many entries were added, and serves the next ticket.
fn put_back<T: Kept>(table: &Ticker<T>, seat: &mut Holding<T>, value: T, added: u64)
    requires words { table.now.shared.table_id.words ≡ 3 }
    requires chits { table.now.shared.key.chits ≤ 65536 }
    requires own { seat.old.table_id ≡ table.now.shared.table_id }
    requires one { seat.old.me.0.chits ≡ 1 }
    requires holds { times_held seat.old.me.0.turn ≡ 1 }
    requires slot { seat.old.me.1 ≡ (0, None) ∷ [] }
    requires grew { Begins (known_of seat.old.me.0.turn) (T.list value) }
    requires added { length (known_of seat.old.me.0.turn) + added ≡ length (T.list value) }
    requires small { length (T.list value) < 2 ^ 64 }
    ensures own { seat.new.table_id ≡ seat.old.table_id }
    ensures gave { seat.new.me
        ≡ (with_turn (with_entries seat.old.me.0 (T.list value)) ChitState.Idle, []) }
{
    let None = table.shared.exchange(seat, HOME, Some(value)) else {
        unreachable!()
    };
    table.shared.fetch_add::<AddEntries>(seat, ENTRIES, added);
    table.shared.fetch_add::<Serve>(seat, SERVED, 1);
    if is_awaited(table) {
        table.shared.wake_all(SERVED);
    }
}

// Whether a ticket that was drawn is not served yet. Who draws one later finds its turn without being woken.
fn is_awaited<T: Kept>(table: &Ticker<T>) -> bool
    requires { table.now.shared.table_id.words ≡ 3 }
{
    table.shared.peek(NEXT) != table.shared.peek(SERVED)
}

// One seat with all chits, in their order.
fn join_all<T: Kept>(table: &Ticker<T>, mut chits: Chits<T>) -> Holding<T>
    requires words { table.now.shared.table_id.words ≡ 3 }
    requires own { All (λ c. c.vault.table ≡ table.now.shared.table_id) chits }
    requires rest { All (λ c. c.holds ≡ None) chits }
    requires some { 0 < length chits }
    ensures own { result.table_id ≡ table.now.shared.table_id }
    ensures all { result.me.0.chits ≡ length chits }
    ensures idle { result.me.0.turn ≡ ChitState.Idle }
    ensures mine { result.me.0.mine ≡ all_mine chits }
{
    let Some(last) = chits.pop() else {
        unreachable!()
    };
    let mut keeper = last.into_seat();
    while let Some(chit) = chits.pop() {
        table
            .shared
            .join_seat::<TakeIn>(&mut keeper, chit.into_seat());
    }
    keeper
}
