//! Whether a history is one of plain registers.

ghost use Rattle.std.specs.Prelude.{◌≡◌, ◌≢◌, ◌↔◌, ◌⊎◌, ℕ, ◌+◌, ◌-◌, ◌<◌, ◌≤◌, ◌^◌, List, length, replicate, slice_get, IsTrue, IfNone, IfSome, MatchOption};
ghost use Rattle.history_making.specs.declared.entry.Entry.{Entry};
ghost use Rattle.history_book.specs.declared.judging.FlawKind.TheVariants.{Value, Time};
ghost use Rattle.history_book.specs.Judging.{IsLegal, IsInTime, IsValueFlaw, IsTimeFlaw, IsLeastFlaw, HasNoFlaw, TellsFirstFlaw, zeros_of};
ghost use Rattle.history_book.specs.Sweeps.{IsSweep, IsPlaceOfWrite, IsStartUpTo, StartsAfter};

use history_making::{Entry, History, Kind};

/// What is wrong between two entries of a history.
#[derive(Clone, Copy, Debug, PartialEq, Eq)]
pub enum FlawKind {
    /// The second is a read that doesn't give its block's value. The first is the last write or foreign write of the block
    /// before it, or the read itself where there is none.
    Value,
    /// The first stands before the second, an entry of the same block, which ended before the first began.
    Time,
}

/// Two entries of a history that show that it is none of plain registers. Entries are numbered from 1.
#[derive(Clone, Copy, Debug, PartialEq, Eq)]
pub struct Flaw {
    pub kind: FlawKind,
    pub first: u32,
    pub second: u32,
}

/// What is known of a block's entries so far.
#[derive(Clone, Copy)]
struct Sweep {
    block: u32,
    /// The place of the last write or foreign write.
    last_write: Option<usize>,
    /// The greatest of the starts.
    latest_start: Option<u64>,
}

/// The history's first flaw: the one with the least second entry, of these one of the value before one of the time, and of
/// these the one with the least first entry. None exactly where the history is legal and in time.
pub fn judge(history: &History) -> Option<Flaw>
    ensures none { IfNone result (IsLegal history.now.entries × IsInTime history.now.entries) }
    ensures flaw { IfSome result (TellsFirstFlaw history.now.entries) }
    ensures illegal { IfSome result
        (λ _. IsLegal history.now.entries × IsInTime history.now.entries → ⊥) }
{
    let entries = history.entries();
    let mut sweep = Sweep::of(0);
    for (place, entry) in entries.iter().enumerate() {
        sweep = sweep.at(entry.block);
        let flaw = flaw_at(entries, place, entry, sweep);
        if flaw.is_some() {
            return flaw;
        }
        sweep = sweep.with(place, entry);
    }
    None
}

impl Sweep {
    /// A block with no entry yet.
    fn of(block: u32) -> Sweep
        ensures { result ≡ record { block = block; last_write = None; latest_start = None } }
    {
        Sweep {
            block,
            last_write: None,
            latest_start: None,
        }
    }

    /// The same where the block is the same, and else one with no entry yet.
    fn at(self, block: u32) -> Sweep
        ensures same { self.block ≡ block → result ≡ self }
        ensures other { self.block ≢ block
            → result ≡ record { block = block; last_write = None; latest_start = None } }
    {
        if self.block == block {
            self
        } else {
            Sweep::of(block)
        }
    }

    /// With one more entry of the block.
    fn with(self, place: usize, entry: &Entry) -> Sweep
        ensures sweep { (entries : List Entry) → slice_get entries place ≡ Some entry.now
            → entry.now.block ≡ self.block → IsSweep entries place self
            → IsSweep entries (place + 1) result }
        ensures block { result.block ≡ self.block }
    {
        Sweep {
            block: self.block,
            last_write: self.write_with(place, entry),
            latest_start: later(self.latest_start, entry.start),
        }
    }

    /// The place of the last write, with one more entry.
    fn write_with(self, place: usize, entry: &Entry) -> Option<usize>
        ensures read { entry.now.kind ≡ Kind.Read → result ≡ self.last_write }
        ensures write { entry.now.kind ≢ Kind.Read → result ≡ Some place }
    {
        match entry.kind {
            Kind::Read => self.last_write,
            Kind::Write | Kind::Foreign => Some(place),
        }
    }
}

/// The greater of two places, where no place is the least.
fn later(one: Option<u64>, other: Option<u64>) -> Option<u64>
    ensures { (start : ℕ)
        → IsStartUpTo one start ⊎ (other ≡ Some start) → IsStartUpTo result start }
{
    match (one, other) {
        (Some(a), Some(b)) => Some(a.max(b)),
        (Some(a), None) => Some(a),
        (None, b) => b,
    }
}

/// The first flaw with this entry as its second.
fn flaw_at(entries: &[Entry], place: usize, entry: &Entry, sweep: Sweep) -> Option<Flaw>
    requires few { length entries.now < 2 ^ 32 }
    requires there { slice_get entries.now place ≡ Some entry.now }
    requires block { entry.now.block ≡ sweep.block }
    requires sweep { IsSweep entries.now place sweep }
    requires none_before { HasNoFlaw entries.now place }
    ensures none { IfNone result (HasNoFlaw entries.now (place + 1)) }
    ensures flaw { IfSome result (TellsFirstFlaw entries.now) }
{
    match value_flaw(entries, place, entry, sweep.last_write) {
        Some(first) => Some(flaw_between(FlawKind::Value, first, place)),
        None => {
            let first = time_flaw(entries, place, entry, sweep.latest_start)?;
            Some(flaw_between(FlawKind::Time, first, place))
        }
    }
}

/// The flaw of the entries at two places.
fn flaw_between(kind: FlawKind, first: usize, second: usize) -> Flaw
    requires first { first < 2 ^ 32 - 1 }
    requires second { second < 2 ^ 32 - 1 }
    ensures { result ≡ record { kind = kind; first = first + 1; second = second + 1 } }
{
    Flaw {
        kind,
        first: first as u32 + 1,
        second: second as u32 + 1,
    }
}

/// The first place of the value's flaws with this entry as their second. There is one at most.
fn value_flaw(
    entries: &[Entry],
    place: usize,
    entry: &Entry,
    last_write: Option<usize>,
) -> Option<usize>
    requires there { slice_get entries.now place ≡ Some entry.now }
    requires write { IsPlaceOfWrite entries.now entry.now.block place last_write }
    ensures none { IfNone result ((i : ℕ) → IsValueFlaw entries.now i place → ⊥) }
    ensures flaw { IfSome result (λ first. IsLeastFlaw Value entries.now first place) }
    ensures within { IfSome result (λ first. first ≤ place) }
{
    match entry.kind {
        Kind::Read if !gives_value(entries, entry, last_write) => Some(last_write.unwrap_or(place)),
        _ => None,
    }
}

/// Whether a read gives the value of its block's last write, or zeros where there is none.
fn gives_value(entries: &[Entry], read: &Entry, last_write: Option<usize>) -> bool
    requires some { 0 < length entries.now }
    requires within { IfSome last_write (λ at. at < length entries.now) }
    ensures { MatchOption last_write (IsTrue result ↔ (read.now.value ≡ zeros_of entries.now))
        (λ at. (write : Entry) → slice_get entries.now at ≡ Some write
        → IsTrue result ↔ (read.now.value ≡ write.value)) }
{
    match last_write {
        Some(at) => read.value.same(&entries[at].value),
        None => are_zeros(read.value.as_slice(), entries[0].value.len()),
    }
}

/// Whether a value is so many zeros.
fn are_zeros(value: &[u8], len: usize) -> bool
    ensures { IsTrue result ↔ (value.now ≡ replicate len 0) }
{
    value.len() == len && value.iter().all(|byte| *byte == 0)
}

/// The least first place of the time's flaws with this entry as their second.
fn time_flaw(
    entries: &[Entry],
    place: usize,
    entry: &Entry,
    latest_start: Option<u64>,
) -> Option<usize>
    requires there { slice_get entries.now place ≡ Some entry.now }
    requires starts { (k : ℕ) (e : Entry) (start : ℕ) → k < place → slice_get entries.now k ≡ Some e
        → e.block ≡ entry.now.block → e.start ≡ Some start → IsStartUpTo latest_start start }
    ensures none { IfNone result ((i : ℕ) → IsTimeFlaw entries.now i place → ⊥) }
    ensures flaw { IfSome result (λ first. IsLeastFlaw Time entries.now first place) }
    ensures within { IfSome result (λ first. first < place) }
{
    let Some(end) = entry.end else {
        return None;
    };
    let Some(latest) = latest_start else {
        return None;
    };
    if latest <= end {
        return None;
    }
    first_after(&entries[..place], entry.block, end)
}

/// The place of the first entry of the block that starts after the place `end`.
fn first_after(entries: &[Entry], block: u32, end: u64) -> Option<usize>
    ensures none { IfNone result ((k : ℕ) (e : Entry)
        → slice_get entries.now k ≡ Some e → StartsAfter block end e → ⊥) }
    ensures first { IfSome result (λ i. (k : ℕ) (e : Entry)
        → k < i → slice_get entries.now k ≡ Some e → StartsAfter block end e → ⊥) }
    ensures there { IfSome result (λ i. (e : Entry)
        × (slice_get entries.now i ≡ Some e) × StartsAfter block end e) }
{
    for (i, entry) in entries.iter().enumerate() {
        if entry.block == block && starts_after(entry.start, end) {
            return Some(i);
        }
    }
    None
}

fn starts_after(start: Option<u64>, end: u64) -> bool
    ensures { IsTrue result ↔ ((place : ℕ) × (start ≡ Some place) × (end < place)) }
{
    match start {
        Some(start) => start > end,
        None => false,
    }
}
