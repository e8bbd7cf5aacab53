//! Lengths and points of a picture. A sum that is too great for its type is the greatest length there is.
ghost use Rattle.std.specs.Prelude.{◌≡◌, ◌+◌, ◌-◌, ◌*◌, ◌/◌, ◌^◌, min};

use std::fmt;
use std::ops::{Add, Mul, Sub};

/// A length in pixels.
#[derive(Clone, Copy, PartialEq, Eq, PartialOrd, Ord)]
pub struct Px(pub u32);

impl Add for Px {
    type Output = Px;

    ghost use Rattle.std.specs.Prelude.{◌≡◌, ◌+◌, ◌-◌, ◌^◌, min};

    ghost add_gives = { λ a b sum. sum.0 ≡ min (a.0 + b.0) (2 ^ 32 - 1) };

    fn add(self, other: Px) -> Px {
        Px(self.0.saturating_add(other.0))
    }
}

impl Sub for Px {
    type Output = Px;

    ghost use Rattle.std.specs.Prelude.{◌≡◌, ◌-◌};

    ghost sub_gives = { λ a b rest. rest.0 ≡ a.0 - b.0 };

    fn sub(self, other: Px) -> Px {
        Px(self.0.saturating_sub(other.0))
    }
}

impl Mul<u32> for Px {
    type Output = Px;

    ghost use Rattle.std.specs.Prelude.{◌≡◌, ◌*◌, ◌-◌, ◌^◌, min};

    ghost mul_gives = { λ length times product. product.0 ≡ min (length.0 * times) (2 ^ 32 - 1) };

    fn mul(self, times: u32) -> Px {
        Px(self.0.saturating_mul(times))
    }
}

impl fmt::Display for Px {
    fn fmt<W: fmt::Write>(&self, f: &mut fmt::Formatter<W>) -> fmt::Result {
        let pixels = self.0;
        write!(f, "{pixels}")
    }
}

impl Px {
    /// Half of it, rounded down.
    pub fn half(self) -> Px
        ensures { result.0 ≡ self.0 / 2 }
    {
        Px(self.0 / 2)
    }

    /// So many times this length.
    pub fn times(self, count: usize) -> Px
        ensures { result.0 ≡ min (self.0 * min count (2 ^ 32 - 1)) (2 ^ 32 - 1) }
    {
        self * u32::try_from(count).unwrap_or(u32::MAX)
    }
}

/// A point, from the picture's left and top.
#[derive(Clone, Copy)]
pub struct Point {
    pub x: Px,
    pub y: Px,
}

/// The point at these lengths from the left and the top.
pub fn at(x: Px, y: Px) -> Point
    ensures { (result.x ≡ x) × (result.y ≡ y) }
{
    Point { x, y }
}

/// How wide so many characters are.
pub fn width_of(characters: usize) -> Px {
    Px(29).times(characters).half().half()
}
