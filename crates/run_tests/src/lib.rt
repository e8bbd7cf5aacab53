//! Runs where no program shows them: what clients, readers, writers and nodes do at answers and asks that no script makes, or that no
//! report shows; a world event by event; and plans that numbers make for other counts of clients and operations than the program's.
//! Tests alone.
#![tactic(auto)]

#[cfg(test)]
mod clients;
#[cfg(test)]
mod events;
#[cfg(test)]
mod load_lines;
#[cfg(test)]
mod loads;
#[cfg(test)]
mod nodes;
#[cfg(test)]
mod reads;
#[cfg(test)]
mod writes;
