//! A lock that gives each of its users receipts for what they left in the value: at the end each entry of the value is one that
//! it had at first, or one for which exactly one user has a receipt.
#![tactic(auto)]

ghost use Rattle.std.specs.Prelude.{◌≡◌, length};

pub mod laws;
mod rule;
pub mod vault;

pub use vault::{Chit, Chits, Vault};

/// A value that has a list of entries. Whoever takes it from a vault may add to the list and change all else of the value.
pub trait Kept: Drop {
    ghost use Rattle.std.specs.Prelude.{List};

    /// What the list has.
    type Entry;

    ghost list: { Self → List Self.Entry };

    /// How many entries the list has.
    fn entries(&self) -> u64
        ensures { result ≡ length (list self.now) };
}
