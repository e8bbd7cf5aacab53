//! The protocol: what nodes and clients do, the world in which lines of a script take place, the history of a run, and the
//! laws of every run.
//!
//! The definitions stand in specs/. The laws are the contracts of the functions of `laws`.
#![tactic(auto)]

pub mod laws;
