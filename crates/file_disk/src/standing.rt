/// What stands at a path.
#[derive(Clone, Copy, Debug, PartialEq, Eq)]
pub enum Standing {
    /// Nothing.
    Nothing,
    /// A plain file.
    PlainFile,
    /// A folder, a device or something else that is no plain file.
    Other,
}
