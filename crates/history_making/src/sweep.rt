ghost use Rattle.std.specs.Prelude.{◌≡◌, ◌≤◌, ◌*◌, ◌-◌, ◌<◌, ◌^◌, ◌++◌, ◌&&◌, not, List, length, map, reverse, slice_get, IfOk, IfSome, MatchOption, OnOk, Some, if◌then◌else◌, option_map, option_copied, All};
ghost use Rattle.std.specs.List.Sorted.{IsPermutation};
ghost use Rattle.stamp_order.specs.Stamps.{same_stamp};
ghost use Rattle.protocol.specs.Seen.{record_of};
ghost use Rattle.protocol.specs.History.{Entry as FullEntry, IsSorted};
ghost use Rattle.protocol.specs.Report.{Ascend};
ghost use Rattle.history_making.specs.Books.{IsBook};
ghost use Rattle.history_making.specs.Numbers.{HasNumbers};
ghost use Rattle.history_making.specs.Tellings.{AreRecords, IsHistoryOf, told_entry};
ghost use Rattle.history_making.specs.Drafts.{entry_of, entries_of, entries_at, candidates, HaveStarts, AreCandidates, AreKept, IsNextMark, is_reading, is_of_some};

use crate::Entry;
use crate::draft::Draft;
use lists::{ItemList, NoMemory};
use run_words::Record;
use stamp_order::Stamp;
use std::alloc::Global;

/// The entries of a run's history, under their marks.
pub fn entries(
    alloc: Global,
    records: &[Record],
    first: &Stamp,
) -> Result<ItemList<Entry>, NoMemory>
    requires { AreRecords (map record_of records.now) first.now }
    ensures history { IfOk result (λ entries. (h : List FullEntry)
        × IsHistoryOf (map record_of records.now) first.now h × (entries ≡ map (told_entry h) h)) }
    ensures book { IfOk result (λ entries. IsBook entries) }
    ensures numbers { IfOk result (λ entries. All HasNumbers entries) }
{
    let drafts = sorted_drafts(alloc, records)?;
    let kept = kept(alloc, drafts.as_slice(), first)?;
    marked(alloc, kept.as_slice())
}

/// The drafts of records in the order of entries.
fn sorted_drafts(alloc: Global, records: &[Record]) -> Result<Vec<Draft<'_>>, NoMemory>
    requires { Ascend (map (λ r. r.start) (map record_of records.now)) }
    ensures sorted { IfOk result (λ drafts. IsSorted (entries_of drafts.items)) }
    ensures candidates { IfOk result (λ drafts.
        IsPermutation (candidates (map record_of records.now)) (entries_of drafts.items)) }
{
    let mut drafts = drafts(alloc, records)?;
    sort(drafts.as_mut_slice());
    Ok(drafts)
}

/// A draft of each completed read, and of each write that has chosen its stamp.
fn drafts(alloc: Global, records: &[Record]) -> Result<Vec<Draft<'_>>, NoMemory>
    ensures { IfOk result (λ drafts.
        entries_of drafts.items ≡ candidates (map record_of records.now)) }
{
    let mut drafts = Vec::new(alloc);
    for operation in records {
        if let Some(draft) = Draft::of(operation) {
            drafts.push(draft)?;
        }
    }
    Ok(drafts)
}

fn sort(drafts: &mut [Draft<'_>])
    requires { HaveStarts (entries_of drafts.old) }
    ensures sorted { IsSorted (entries_of drafts.new) }
    ensures permutation { IsPermutation (entries_of drafts.old) (entries_of drafts.new) }
{
    drafts.sort_unstable_by(|a, b| a.compare(b));
}

/// The drafts that stand in the history, and before the first read of a stamp that no write has a foreign one.
fn kept<'a>(alloc: Global, drafts: &[Draft<'a>], first: &Stamp) -> Result<Vec<Draft<'a>>, NoMemory>
    requires sorted { IsSorted (entries_of drafts.now) }
    requires candidates { AreCandidates (entries_of drafts.now) }
    ensures kept { IfOk result (λ kept.
        AreKept first.now (entries_of drafts.now) (entries_of kept.items)) }
    ensures few { IfOk result (λ kept. length kept.items ≤ 2 * length drafts.now) }
{
    let mut kept = Vec::new(alloc);
    let mut read: Option<Draft<'a>> = None;
    let mut left = drafts.len();
    while left > 0 {
        left -= 1;
        let draft = &drafts[left];
        let foreign = saw_foreign(draft, &drafts[..left], first);
        let was_read = shares_version(draft, read.as_ref());
        keep(&mut kept, draft, foreign, was_read)?;
        read = nearest_read(draft, read);
    }
    kept.reverse();
    Ok(kept)
}

/// Whether the draft has a stamp other than the first one, and the last before it isn't of its block and stamp.
fn saw_foreign(draft: &Draft<'_>, before: &[Draft<'_>], first: &Stamp) -> bool
    ensures { result ≡ (not (is_of_some (entry_of draft.now)
        (option_map entry_of (slice_get before.now (length before.now - 1))))
        && not (same_stamp draft.now.stamp.now first.now)) }
{
    !shares_version(draft, before.last()) && !draft.has_stamp(first)
}

/// The draft itself where it is a read, else the nearest read after it.
fn nearest_read<'a>(draft: &Draft<'a>, later: Option<Draft<'a>>) -> Option<Draft<'a>>
    ensures { option_map entry_of result ≡ (if is_reading (entry_of draft.now)
        then Some (entry_of draft.now) else option_map entry_of later.entry) }
{
    if draft.is_read() { Some(*draft) } else { later }
}

/// Whether there is another draft, of the same block and stamp.
fn shares_version(draft: &Draft<'_>, other: Option<&Draft<'_>>) -> bool
    ensures { result
        ≡ is_of_some (entry_of draft.now) (option_map entry_of (option_copied other.entry)) }
{
    match other {
        Some(other) => draft.is_of_version(other),
        None => false,
    }
}

/// Adds what stands in the history for a draft, the last of it first.
fn keep<'a>(
    kept: &mut Vec<Draft<'a>>,
    draft: &Draft<'a>,
    saw_foreign: bool,
    was_read: bool,
) -> Result<(), NoMemory>
    ensures { OnOk result (reverse (entries_of kept.new.items)
        ≡ entries_at saw_foreign was_read (entry_of draft.now)
        ++ reverse (entries_of kept.old.items)) }
{
    if draft.is_read() {
        kept.push(*draft)?;
        if saw_foreign {
            kept.push(draft.foreign())?;
        }
    } else if draft.end.is_some() || was_read {
        kept.push(*draft)?;
    }
    Ok(())
}

/// The entries of sorted drafts, with the verifiers of each block, time and writer numbered from 1.
fn marked(alloc: Global, drafts: &[Draft<'_>]) -> Result<ItemList<Entry>, NoMemory>
    requires sorted { IsSorted (entries_of drafts.now) }
    requires few { length drafts.now < 2 ^ 32 }
    ensures entries { IfOk result (λ entries.
        entries ≡ map (told_entry (entries_of drafts.now)) (entries_of drafts.now)) }
    ensures numbers { IfOk result (λ entries. All HasNumbers entries) }
{
    let mut entries = ItemList::new(alloc);
    let mut last: Option<(&Draft<'_>, u32)> = None;
    for draft in drafts {
        let mark = next_mark(last, draft);
        entries.push(draft.entry(mark)?)?;
        last = Some((draft, mark));
    }
    Ok(entries)
}

/// The mark of a draft after the last one, which has its own mark.
fn next_mark(last: Option<(&Draft<'_>, u32)>, draft: &Draft<'_>) -> u32
    requires { IfSome last (λ l. l.1 < 2 ^ 32 - 1) }
    ensures { MatchOption last.entry (result ≡ 1)
        (λ l. IsNextMark (entry_of l.0.now) l.1 (entry_of draft.now) result) }
{
    match last {
        Some((last, mark)) if last.is_rival(draft) => {
            if draft.has_stamp(last.stamp) {
                mark
            } else {
                mark + 1
            }
        }
        _ => 1,
    }
}
