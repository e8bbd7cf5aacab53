use gf_field::{Gf, add, inv, mul, pow2};

/// The powers of 2 from 1 on, each from the one before by a shift and a subtraction of `0x11D`.
fn powers() -> [u8; 255] {
    let mut powers = [1; 255];
    let mut x: u16 = 1;
    for power in powers.iter_mut() {
        *power = (x & 0xFF) as u8;
        x <<= 1;
        if x & 0x100 != 0 {
            x ^= 0x11D;
        }
    }
    powers
}

/// For each power of 2 the exponent.
fn logarithms(powers: &[u8; 255]) -> [u8; 256] {
    let mut logarithms = [0; 256];
    for e in 0..255u8 {
        logarithms[powers[e as usize] as usize] = e;
    }
    logarithms
}

#[test]
fn products_are_sums_of_logarithms(rt: HostRuntime) {
    let powers = powers();
    let logarithms = logarithms(&powers);
    for a in 0..=255u8 {
        for b in 0..=255u8 {
            let place = (logarithms[a as usize] as usize + logarithms[b as usize] as usize) % 255;
            let expected = if a == 0 || b == 0 { 0 } else { powers[place] };
            assert_eq!(rt; mul(Gf(a), Gf(b)).0, expected);
        }
    }
}

#[test]
fn powers_of_two_go_round(rt: HostRuntime) {
    let powers = powers();
    for e in 0..600u32 {
        assert_eq!(rt; pow2(e).0, powers[(e % 255) as usize]);
    }
}

#[test]
fn inverses_and_sums(rt: HostRuntime) {
    for a in 1..=255u8 {
        assert_eq!(rt; mul(Gf(a), inv(Gf(a))), Gf(1));
    }
    assert_eq!(rt; add(Gf(0x57), Gf(0x83)), Gf(0xd4));
}
