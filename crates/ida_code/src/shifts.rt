ghost use Rattle.std.specs.Prelude.{◌≡◌, slice_index, EachIndex};
ghost use Rattle.gf_field.specs.Field.{product};

use crate::Products;
use gf_field::{Gf, inv, mul};

/// Products by shifts.
pub struct Shifts;

impl Products for Shifts {
    fn mul(a: Gf, b: Gf) -> Gf {
        mul(a, b)
    }

    fn inv(a: Gf) -> Gf {
        inv(a)
    }

    fn add_multiple(out: &mut [u8], element: u8, string: &[u8]) {
        let products = multiples(element);
        for (j, byte) in string.iter().enumerate() {
            out[j] ^= products[*byte as usize];
        }
    }
}

/// The product of `element` and each element.
fn multiples(element: u8) -> [u8; 256]
    ensures { EachIndex result (λ b. slice_index result b ≡ product element b) }
{
    let mut out = [0; 256];
    for b in 0..256usize {
        out[b] = mul(Gf(element), Gf(b as u8)).0;
    }
    out
}
