//! Laws of plans and of journals that follow them, each the contract of a function that does nothing.

ghost use Rattle.plan_followed.specs.Laws.{OfPlans, HasConduct, HasLiars, HasCluster, PlansPhase, PlansRun, OneMore, MergesIntoSeen};
ghost use Rattle.plan_followed.specs.Closed.{Begins, GoesOn, Closes, Ends};

/// A plan that fits is one of a cluster: who lies is who its rules declare lying, at most `b` nodes do, and no liar crashes.
pub fn plans()
    ensures conduct { OfPlans HasConduct }
    ensures liars { OfPlans HasLiars }
    ensures cluster { OfPlans HasCluster }
{}

/// Kept journals that agree in pairs, have each number below a count once, and follow a plan are those of a run in threads: their
/// prunes stand in phases, and go by what clients had read. So their lines are a run, and every law of runs holds of them.
pub fn followed_plans()
    ensures phased { PlansPhase }
    ensures of_run { PlansRun }
{
    plans();
    journals::laws::phases();
}

/// A client's journal that goes by the plan does so with one entry more, where that one does. So whoever runs a client need only know
/// what comes next.
pub fn entries()
    ensures { OneMore }
{}

/// A client's merge puts its bytes into what its reads of the block that have ended gave last, or into zeros where none has; what it
/// has under way, and what other clients read, is nothing to it.
pub fn merges()
    ensures { MergesIntoSeen }
{}

/// In empty journals no phase is closed; whatever comes later leaves the closed phases closed; a phase closes when its clients have
/// done their steps, nothing is held back, and the nodes have pruned; and when the last phase is done the plan is followed.
pub fn phases_close()
    ensures begins { Begins }
    ensures goes_on { GoesOn }
    ensures closes { Closes }
    ensures ends { Ends }
{}
