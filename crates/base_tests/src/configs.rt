use quorum_rules::{Config, ConfigFault, Edition};

/// What an edition says of one node with so many blocks of so many bytes.
fn fault_of(edition: Edition, size: u32, blocks: u32) -> Option<ConfigFault> {
    Config::of(edition, 1, 0, 0, 1, 1, size, blocks).err()
}

#[test]
fn editions_have_their_limits(rt: HostRuntime) {
    let rows = [
        (Edition::One, 4096, 4096, None),
        (Edition::One, 4097, 4096, Some(ConfigFault::SizeOutOfRange)),
        (
            Edition::One,
            4096,
            4097,
            Some(ConfigFault::BlocksOutOfRange),
        ),
        (Edition::Two, 16_384, 4096, None),
        (
            Edition::Two,
            16_385,
            4096,
            Some(ConfigFault::SizeOutOfRange),
        ),
        (
            Edition::Two,
            16_384,
            4097,
            Some(ConfigFault::BlocksOutOfRange),
        ),
        (Edition::Three, 16_384, 65_536, None),
        (
            Edition::Three,
            16_385,
            65_537,
            Some(ConfigFault::SizeOutOfRange),
        ),
        (
            Edition::Three,
            16_384,
            65_537,
            Some(ConfigFault::BlocksOutOfRange),
        ),
        (Edition::Four, 65_536, 268_435_456, None),
        (
            Edition::Four,
            65_537,
            268_435_457,
            Some(ConfigFault::SizeOutOfRange),
        ),
        (
            Edition::Four,
            65_536,
            268_435_457,
            Some(ConfigFault::BlocksOutOfRange),
        ),
    ];
    for (edition, size, blocks, fault) in rows {
        assert!(rt; fault_of(edition, size, blocks) == fault);
    }
}

#[test]
fn fourth_is_of_edition_four(rt: HostRuntime) {
    match Config::fourth(5, 1, 1, 3, 2, 65_536, 268_435_456) {
        Ok(config) => assert!(rt; config.edition() == 4 && config.blocks() == 268_435_456),
        Err(_) => assert!(rt; false),
    }
}
