use slab_file::FileFault;

/// Why a slab was not made.
#[derive(Clone, Copy, Debug, PartialEq, Eq)]
pub enum MakeFault {
    /// No memory was found.
    NoMemory,
    /// A call of the file failed. The file has no slab, or one without a header.
    Failed(FileFault),
}

impl From<FileFault> for MakeFault {
    ghost use Rattle.std.specs.Prelude.{◌≡◌};
    ghost use Rattle.slab_making.specs.declared.fault.MakeFault.TheVariants.{Failed};

    ghost from_gives = { λ fault e. e ≡ Failed fault };

    fn from(fault: FileFault) -> MakeFault {
        MakeFault::Failed(fault)
    }
}
