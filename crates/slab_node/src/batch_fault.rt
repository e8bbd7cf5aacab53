use slab_file::FileFault;

/// Why a batch was not written.
#[derive(Clone, Copy, Debug, PartialEq, Eq)]
pub enum BatchFault {
    /// A head or data couldn't be written. No mark was touched, and the file goes on.
    Unwritten(FileFault),
    /// A mark couldn't be written, or a sync failed. What was asked may be done in part.
    Broken,
}
