//! The laws of every run, each the contract of a function that does nothing.
//!
//! A law speaks of every cluster: any valid configuration, at most `b` of its nodes lying and any of its clients, with the real
//! code and SHA-256; and of the last world of every run of it, whatever lines it has. A run's beginning is a run, so what is
//! said of the last world holds in every world of the run.
ghost use Rattle.std.specs.Prelude.{List};
ghost use Rattle.protocol.specs.Setting.{Setting, IsValid};
ghost use Rattle.protocol.specs.Instance.{InEachRun};
ghost use Rattle.protocol.specs.World.{World, Record};
ghost use Rattle.protocol.specs.History.{Entry};
ghost use Rattle.protocol.specs.Bounds.{IsBounded, IsLow};
ghost use Rattle.protocol.specs.Laws.{InEachCluster, HistoriesAreLegal, HistoriesAreInTime};
ghost use Rattle.protocol.specs.Laws.{ReadsAreSound, NoneIsOutvoted};
ghost use Rattle.protocol.specs.Laws.{HasHistory, HistoriesAreOne, KeysAreOne, ValuesAreBlocks};
ghost use Rattle.protocol.specs.Laws.{StampsHaveOneValue, ReadsAreOfWrites};
ghost use Rattle.protocol.specs.Laws.{ReadsAskedFew, ForeignWritesWereLied};
ghost use Rattle.protocol.specs.Laws.{BegunStay, EndedStay, CrashedNeverEnd, EndsAreAtLines};
ghost use Rattle.protocol.specs.Laws.{RefusesExactly, TakesTheAllowed, RunsComeApart};
ghost use Rattle.protocol.specs.Laws.{LinesExtendPool, RunsExtendPool};
ghost use Rattle.protocol.specs.Laws.{TasksAreTold, SeenBegins, SeenHears, BeginsFull, StaysFull};
ghost use Rattle.protocol.specs.Laws.{GivenIsGreatest, NoneIsGiven, OneIsReplaced, FalseIsFormed};
ghost use Rattle.protocol.specs.Laws.{AnswersAreHosted, KeptWasAccepted, AcceptedIsReached};
ghost use Rattle.protocol.specs.Laws.{AcceptedIsKnown, AskedIsKnown};
ghost use Rattle.protocol.specs.Laws.{CompletedIsHeld, CompletedWasHeld};
ghost use Rattle.protocol.specs.Laws.{AnswersAreFresh, OperationsHearFresh};
ghost use Rattle.protocol.specs.Laws.{ReadsAskUp, WritesDrawAbove, ReadsGiveUp};
ghost use Rattle.protocol.specs.Laws.{StartsAscend, RecordsAreTold, RecordsAreFew};
ghost use Rattle.protocol.specs.Laws.{MarksAreOne, MarksAscend, MarksFollow, LinesStandAlike};
ghost use Rattle.protocol.specs.Laws.{DoneHaveEnded, SpentAreWrites, AllAreCounted, SpentAreThese, SpentAscend};
ghost use Rattle.protocol.specs.Laws.{SpentWereLied, NoneIsSpent};

/// The code and the digest of a cluster keep what the proofs ask of them: lengths, bytes, digests, and that any `m` fragments
/// of a block decode to it.
pub fn cluster()
    ensures { InEachCluster IsValid }
{}

/// Whatever starts, deliveries, losses, repeats, prunes, crashes, returns and lies the lines of a script make: where no two
/// different strings that were seen share a digest, the history is that of plain registers and in time. No read gives a
/// poisonous value, and none is outvoted.
pub fn safety()
    ensures legal { InEachRun HistoriesAreLegal }
    ensures in_time { InEachRun HistoriesAreInTime }
    ensures sound { InEachRun ReadsAreSound }
    ensures never_outvoted { InEachRun NoneIsOutvoted }
{}

/// A run has exactly one history. No two of its entries have one key, and each value is a block. A read's stamp is the first, or
/// that of an entry of its block that is no read; and where no two different strings that were seen share a digest, entries of
/// one stamp have one value.
pub fn one_history()
    ensures some { InEachRun HasHistory }
    ensures one { InEachRun HistoriesAreOne }
    ensures keys { InEachRun KeysAreOne }
    ensures blocks { InEachRun ValuesAreBlocks }
    ensures of_writes { InEachRun ReadsAreOfWrites }
    ensures values { InEachRun StampsHaveOneValue }
{}

/// Reads ask few rounds, by what was accepted by now and, of a read that has ended, by its end. Times rise by no more than one a
/// write. A write that no correct client made and a read gave was lied before the line at which that read ended.
pub fn bounds()
    ensures rounds { InEachRun (λ s w. IsBounded w) }
    ensures rounds_at_end { InEachRun ReadsAskedFew }
    ensures times { InEachRun IsLow }
    ensures foreign { InEachRun ForeignWritesWereLied }
{}

/// What the later worlds of a run keep of this one, whatever lines follow: its operations; what has ended stays as it ended; and
/// what a crash of its client cut off never ends, not even where the client comes back. Each end is at a line: so what a law
/// says of each world in which an operation has ended it says of the one that this line makes.
pub fn later_worlds()
    ensures begun { InEachRun BegunStay }
    ensures ended { InEachRun EndedStay }
    ensures cut_off { InEachRun CrashedNeverEnd }
    ensures at_ends { InEachRun EndsAreAtLines }
{}

/// A line is refused exactly where its events aren't allowed one after the other. That it isn't refused where they are holds
/// in any world.
pub fn refusals()
    ensures exact { InEachRun RefusesExactly }
    ensures taken { (s : Setting) (w : World) → TakesTheAllowed s w }
{}

/// A run of lines and further lines is a run of the lines and then one of the further lines.
pub fn runs()
    ensures { (s : Setting) (w : World) → RunsComeApart s w }
{}

/// Messages are added at the end of the pool alone.
pub fn pools()
    ensures lines { (s : Setting) (w : World) → LinesExtendPool s w }
    ensures runs { (s : Setting) (w : World) → RunsExtendPool s w }
{}

/// Who has an operation under way is a correct client. What its present phase asks was sent to each node, and just one record
/// is the operation's: it is open, and tells its block, work and start.
pub fn tasks()
    ensures { InEachRun TasksAreTold }
{}

/// A client's operation as contracts see it begins, and hears an answer, as that of the definitions does; and it keeps a place
/// for each node's answer.
pub fn views()
    ensures begun { (s : Setting) → SeenBegins s }
    ensures heard { (s : Setting) (w : World) → SeenHears s w }
    ensures full_begun { (s : Setting) → BeginsFull s }
    ensures full_heard { (s : Setting) → StaysFull s }
{}

/// The stamp by which a block is pruned: one that a read of it gave, and no read of it gave a greater one; there is one unless
/// no read of it gave any.
pub fn given()
    ensures greatest { (records : List Record) → GivenIsGreatest records }
    ensures none { (records : List Record) → NoneIsGiven records }
{}

/// What putting a record in the place of that of its operation makes of records: it stands there where one of its operation
/// stood, and all others stay.
pub fn replacements()
    ensures { (records : List Record) → OneIsReplaced records }
{}

/// What a lying node answers by a rule is formed.
pub fn false_replies()
    ensures { InEachCluster FalseIsFormed }
{}

/// An honest node's answer was made from an ask that was sent before it, with its client and tag. It is of the kind that was
/// asked, finds what the ask's bound has, and tells only of stamps that the node accepted. What the node keeps of a block it
/// accepted, and it keeps a version of at least each stamp that it accepted.
pub fn hosts()
    ensures hosted { InEachRun AnswersAreHosted }
    ensures kept { InEachRun KeptWasAccepted }
    ensures greatest { InEachRun AcceptedIsReached }
{}

/// A stamp that an honest node accepted on a block, or that a correct client's Write carries there, is the first stamp, was
/// chosen there by a correct client's write, or was lied there.
pub fn origins()
    ensures accepted { InEachRun AcceptedIsKnown }
    ensures asked { InEachRun AskedIsKnown }
{}

/// The stamp of a completed read or write is the first stamp, or at least `qc` honest nodes have accepted it, and had done so
/// when the operation ended.
pub fn completion()
    ensures now { InEachRun CompletedIsHeld }
    ensures at_end { InEachRun CompletedWasHeld }
{}

/// An honest node's answer, whoever asked, doesn't fall behind any stamp that the node had accepted on the block before: it
/// tells a time of at least the stamp's, or it finds a stamp of at least this one where the ask's bound has it and each stamp
/// by which the node had pruned the block. While an operation is under way, that is so of each answer to it, in whichever of
/// its phases, where the bound has what the node pruned the block by before the operation began.
pub fn freshness()
    ensures always { InEachRun AnswersAreFresh }
    ensures under_way { InEachRun OperationsHearFresh }
{}

/// Of an operation that began after another on its block had ended: a write chooses a time above that one's stamp; and where no
/// two strings that were seen clash, a read never asks below the stamp and gives no lower one.
pub fn order()
    ensures writes_above { InEachRun WritesDrawAbove }
    ensures aim { InEachRun ReadsAskUp }
    ensures reads_up { InEachRun ReadsGiveUp }
{}

/// Records stand in order of start, and no two operations start at one place. Each tells its places in order, and an outcome
/// of its kind exactly where it has ended. So there are no more of them than the run has places.
pub fn records()
    ensures starts { InEachRun StartsAscend }
    ensures told { InEachRun RecordsAreTold }
    ensures few { InEachRun RecordsAreFew }
{}

/// Marks number the verifiers of one block, time and writer from 1 upward, in their order: one stamp has one mark, a greater
/// verifier a greater mark, and a mark that isn't 1 has the one before it. So the lines of a report stand in the order of the
/// entries.
pub fn marks()
    ensures one { (h : List Entry) → MarksAreOne h }
    ensures ascend { (h : List Entry) → MarksAscend h }
    ensures from_one { (h : List Entry) → MarksFollow h }
    ensures lines { (h : List Entry) → LinesStandAlike h }
{}

/// What the counts count: the operations that are done are the entries of the history that have an end, those that are spent
/// are the spent writes, and each operation is done, spent or pending.
pub fn counts()
    ensures done { InEachRun DoneHaveEnded }
    ensures spent { InEachRun SpentAreWrites }
    ensures all { InEachRun AllAreCounted }
{}

/// The spent writes are those that ended as spent, by start. A write is spent only where a lying client sent a Write on its block
/// with a time so high that it is no more steps below the greatest there is than the run has places. So where no client lies,
/// no write is spent.
pub fn spent()
    ensures are { (records : List Record) → SpentAreThese records }
    ensures ascend { InEachRun SpentAscend }
    ensures lied { InEachRun SpentWereLied }
    ensures none { InEachRun NoneIsSpent }
{}
