ghost use Rattle.std.specs.Prelude.{◌≡◌, ◌<◌, ◌≤◌, ◌↔◌};
ghost use Rattle.quorum_rules.specs.Limits.{complete_of, repairable_of};

use quorum_rules::Config;

/// What it means for a stamp that so many valid answers carry it.
#[derive(Clone, Copy, Debug, PartialEq, Eq)]
pub enum Class {
    /// Its version is stored at enough nodes that each later read meets it.
    Complete,
    /// Its version can be read, and has to be stored again before it's given.
    Repairable,
    /// Its version may be stored at too few nodes to be read.
    Incomplete,
}

/// The class of a stamp that so many valid answers carry.
pub fn class_of(config: &Config, count: u32) -> Class
    ensures complete { (result ≡ Class.Complete) ↔ (complete_of config.now ≤ count) }
    ensures repairable { (result ≡ Class.Repairable)
        ↔ ((repairable_of config.now ≤ count) × (count < complete_of config.now)) }
    ensures incomplete { (result ≡ Class.Incomplete) ↔ (count < repairable_of config.now) }
{
    if count >= config.complete() {
        Class::Complete
    } else if count >= config.repairable() {
        Class::Repairable
    } else {
        Class::Incomplete
    }
}
