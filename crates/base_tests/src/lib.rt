//! What stands below the model, where no program shows it: lists, byte strings and streams; the limits of each edition; texts of
//! messages that no line of a script prints, and how far a text that is none begins one; the field, the erasure code by both of its forms, which give the same
//! fragments, and whether fragments belong together. Tests alone.
#![tactic(auto)]

#[cfg(test)]
mod bytes;
#[cfg(test)]
mod checks;
#[cfg(test)]
mod configs;
#[cfg(test)]
mod fields;
#[cfg(test)]
mod items;
#[cfg(test)]
mod lanes;
#[cfg(test)]
mod messages;
#[cfg(test)]
mod streams;
#[cfg(test)]
mod twins;
#[cfg(test)]
mod vectors;
