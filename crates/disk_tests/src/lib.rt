//! Disks in memory, and nodes on disks that fail and crash: what their bytes are, and what is left when they are opened again.
#![tactic(auto)]

#[cfg(test)]
mod batches;
#[cfg(test)]
mod compaction;
#[cfg(test)]
mod crashes;
#[cfg(test)]
mod disks;
#[cfg(test)]
mod nodes;
#[cfg(test)]
mod slots;
