/// What a server tells of its export.
#[derive(Clone, Copy)]
pub struct Export {
    /// How many bytes it has.
    pub size: u64,
    /// The preferred block size in bytes: the page asks for a power of two, 512 at least.
    pub preferred: u32,
}
