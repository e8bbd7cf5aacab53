//! Runs of the protocol are linearizable, across crashes too.
//!
//! `specs/Linear.antt` says what linearizable is, of operations alone: Herlihy and Wing, "Linearizability: a correctness
//! condition for concurrent objects", 1990. `specs/Durable.antt` says what it is across crashes: Izraelevitz, Mendes and Scott,
//! "Linearizability of persistent memory objects under a full-system-crash failure model", 2016. `specs/Of.antt` says which
//! operations a run has, and `specs/Meaning.antt` what a reader may count on.
#![tactic(auto)]

pub mod laws;
