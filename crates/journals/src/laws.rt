//! Laws of merged journals, each the contract of a function that does nothing.

ghost use Rattle.journals.specs.Phases.{PhasesFollow};
ghost use Rattle.journals.specs.Merged.{OfMerged, AllReach, AreRun, AllRecorded, AreLegal, AreSound};
ghost use Rattle.journals.specs.Merged.{AreOnce, AreOrdered, AreNumbered, AreShown, AllFit};
ghost use Rattle.journals.specs.Merged.{CallsGo, LateActsGo, PrunesGo};

/// What a node does goes by its rules: so a journal to which it is added stays kept. What it does with an ask is its side of the
/// call of the caller who hears its answer, so the two agree.
pub fn acts()
    ensures calls { CallsGo }
    ensures late { LateActsGo }
    ensures prunes { PrunesGo }
{}

/// The line of each entry of kept journals is one that a run of their cluster may have.
pub fn fitting_lines()
    ensures { AllFit }
{
    protocol::laws::false_replies();
}

/// In journals of phases, each prune goes by what the clients had read until then: when a phase closes, each correct client has
/// crashed or has nothing under way, and nobody but nodes that prune does anything until its prunes are done.
pub fn phases()
    ensures { PhasesFollow }
{}

/// The lines of the journals of a run in threads are a run from the beginning: none of them is refused. After the first `n`
/// lines each node that isn't declared lying, and each correct client, is what its journal's entries with numbers below `n` make
/// of it. So every law of runs holds, first of all that the history is that of plain registers and in time.
pub fn merged_runs()
    ensures reach { OfMerged AllReach }
    ensures run { OfMerged AreRun }
    ensures recorded { OfMerged AllRecorded }
    ensures legal { OfMerged AreLegal }
    ensures sound { OfMerged AreSound }
{
    protocol::laws::false_replies();
    protocol::laws::refusals();
    protocol::laws::pools();
    protocol::laws::runs();
    protocol::laws::tasks();
    protocol::laws::views();
    protocol::laws::given();
    protocol::laws::replacements();
    protocol::laws::safety();
}

/// Journals have at most one list of lines, and those of a run have one order of their entries. Each entry has its line, that of
/// number `n` at the place `n + 1`; and so has each entry of each client, where its call stands at a node.
pub fn one_merge()
    ensures once { AreOnce }
    ensures ordered { AreOrdered }
    ensures numbered { OfMerged AreNumbered }
    ensures shown { OfMerged AreShown }
{}
