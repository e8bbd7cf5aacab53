//! What holds of disks and of their lives. Each law is a function with nothing to do.

ghost use Rattle.std.specs.Prelude.{ℕ, List};
ghost use Rattle.quorum_rules.specs.Limits.{Numbers};
ghost use Rattle.version_disk.specs.Compacted.{AnswersAlike};
ghost use Rattle.version_disk.specs.Lives.{Moment, IsThere, IsNeverDamaged, OnlyGrows};

/// After any list of calls and crashes, what was acknowledged is there: an empty disk that `open`, `handle`, `handle_all`, `prune` and
/// `prune_all` alone have written, with one configuration and number, holds a node that has done each acknowledged deed, each deed in
/// which it was stopped or not, and of many deeds in which it was stopped the first few, in their order. None of its slots is ever bad,
/// so `open` never answers `Damaged`; and the slots that were there at some moment stay the first ones.
pub fn acknowledged_is_there()
    ensures there { (c : Numbers) (number : ℕ) (life : List Moment) → IsThere c number life }
    ensures never_damaged { (c : Numbers) (number : ℕ) (life : List Moment)
        → IsNeverDamaged c number life }
    ensures only_grows { (c : Numbers) (number : ℕ) (bytes : List ℕ) (life : List Moment)
        → OnlyGrows c number bytes life }
{}

/// Compaction changes no answer: bytes whose slots are the versions that a disk's node keeps, block by block in their order, hold
/// that node, so a node that is opened on either disk answers any asks alike. A prune needs no slot then, since a node remembers
/// nothing of what it dropped.
pub fn compacted_answers_alike()
    ensures { (c : Numbers) (number : ℕ) (old new : List ℕ) → AnswersAlike c number old new }
{}
