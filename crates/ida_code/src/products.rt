ghost use Rattle.std.specs.Prelude.{◌≡◌, ◌<◌, length, slice_index, EachIndex};
ghost use Rattle.gf_field.specs.Field.{product, total, inverse};

use gf_field::Gf;

/// A way to compute products in the field.
pub trait Products {
    /// The product of two elements.
    fn mul(a: Gf, b: Gf) -> Gf
        ensures { result.0 ≡ product a.0 b.0 };

    /// The inverse of an element other than 0.
    fn inv(a: Gf) -> Gf
        requires { 0 < a.0 }
        ensures { result.0 ≡ inverse a.0 };

    /// Adds the product of `element` and each byte of a string to the byte of `out` at its place.
    fn add_multiple(out: &mut [u8], element: u8, string: &[u8])
        requires { length string.now ≡ length out.old }
        ensures { EachIndex out.new (λ j. slice_index out.new j
            ≡ total (slice_index out.old j) (product element (slice_index string.now j))) };
}
