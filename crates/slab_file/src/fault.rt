/// Why a call of a file failed.
#[derive(Clone, Copy, Debug, PartialEq, Eq)]
pub enum FileFault {
    /// There is no space for what was written. The file goes on.
    NoSpace,
    /// The system refused or cut short the call, or there are not so many bytes.
    Failed,
}
