/// How a lying node answers.
#[derive(Clone, Copy, Debug, PartialEq, Eq)]
pub enum Rule {
    /// Not at all.
    Silent,
    /// As if nothing was ever written.
    Old,
    /// With the greatest time there is, and a version of that time.
    Top,
    /// As if nothing was ever written, with a damaged fragment.
    Bad,
}
