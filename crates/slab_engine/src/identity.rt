use quorum_rules::Config;
use wire_forms::Version;

/// Which node of which cluster a slab is of, the key of the slab's checks, and the version that each block has from the
/// beginning.
#[derive(Drop)]
pub struct Identity {
    pub config: Config,
    pub number: u8,
    pub key: u64,
    pub first: Version,
}
