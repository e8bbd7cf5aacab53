/// Which file is opened.
#[derive(Clone, Copy, Debug, PartialEq, Eq)]
pub enum Opening {
    /// The one that is there.
    Existing,
    /// The one that is there, and where there is none a new one.
    ExistingOrNew,
    /// An empty one: the one that is there loses its bytes once it is locked.
    Emptied,
}
