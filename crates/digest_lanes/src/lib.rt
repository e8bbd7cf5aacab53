//! The SHA-256 digests (FIPS 180-4) of four messages of one length at once.
//!
//! Each message has a lane of its own in vectors of four 32-bit words. Each digest is the one that `sha2` defines for its
//! message. Four messages at once take less than half the time that they take one by one.
#![tactic(auto)]

mod compression;
mod constants;
mod four;
mod functions;

pub use four::digest_four;
