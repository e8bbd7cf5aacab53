//! Disks on real files in a folder of the test's own: what is there when they are opened again, what is refused, and each call of
//! the system failed in turn.
#![tactic(auto)]

#[cfg(test)]
mod far;
#[cfg(test)]
mod faults;
#[cfg(test)]
mod faulty;
#[cfg(test)]
mod files;
#[cfg(test)]
mod hasty;
