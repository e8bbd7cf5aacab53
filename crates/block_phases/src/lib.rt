//! An operation on a block, phase by phase. In each phase a client asks every node the same, and hears the answers
//! node by node.
//!
//! `specs/Phases.antt` says what one phase does. `specs/Executions.antt` says when an operation is running, completed
//! or given up, and what each node keeps then. `specs/Endings.antt` bounds the number of phases. The laws are
//! contracts of functions that do nothing.
#![tactic(auto)]

ghost use Rattle.protocol.specs.Laws.{InEachCluster};
ghost use Rattle.block_phases.specs.Endings.{OperationsAreAsked, PhasesEnd};
ghost use Rattle.block_phases.specs.Laws.{OperationsBegin, OperationsGoOn, OperationsAreCutOff};
ghost use Rattle.block_phases.specs.Laws.{OutcomesKnowNoLiars, CutOffsKnowNoLiars};

/// An operation begins, goes on as the answers of each phase decide, and may be given up at any moment. Nodes that
/// are away answer nothing. A node whose answer the client doesn't hear may have done what the phase asked, or not.
/// Which nodes and clients are declared lying doesn't matter, so each block may declare its own.
pub fn operations()
    ensures begin { InEachCluster OperationsBegin }
    ensures go_on { InEachCluster OperationsGoOn }
    ensures cut_off { InEachCluster OperationsAreCutOff }
    ensures no_liars { InEachCluster OutcomesKnowNoLiars }
    ensures no_liars_cut_off { InEachCluster CutOffsKnowNoLiars }
{}

/// Every operation ends. Answers of `n-t` nodes end a phase, whatever versions these nodes keep, and the next phase
/// has fewer left: a write has two, and a read two for each version that nodes keep, and two.
pub fn endings()
    ensures begin { InEachCluster OperationsAreAsked }
    ensures phases { InEachCluster PhasesEnd }
{
    protocol::laws::cluster();
}
