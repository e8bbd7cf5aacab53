//! A disk's past, which only proofs read.
ghost use Rattle.std.specs.Prelude.{◌≡◌, [], ◌∷◌, ◌++◌};
ghost use Rattle.std.specs.Borrow.{ftrue};
ghost use Rattle.disk_model.specs.Crash.{settled, with_range};
ghost use Rattle.disk_model.specs.Kept.{Kept, kept_code};

use crate::range::WrittenRange;
use std::marker::Model;

/// What a crash depends on, and what it depended on at each sync before. It is there for proofs alone: it takes no memory, and
/// its calls do nothing when they run.
#[derive(Drop)]
pub struct DiskPast {
    pub ghost kept: { Kept } by { kept_code },
}

impl Model for DiskPast {
    ghost also_owns = { λ _. ftrue };
}

// It owns nothing.
unsafe impl Send for DiskPast {}

/// What happens to a disk.
#[derive(Clone, Copy)]
pub(crate) enum DiskStep {
    /// It begins.
    Begins,
    /// What a crash depends on is remembered.
    IsRemembered,
    /// A range is written.
    Writes(WrittenRange),
    /// All bytes are safe.
    Settles,
    /// It is copied.
    IsCopied,
}

impl DiskPast {
    ghost use Rattle.disk_model.specs.Step.{after};

    /// The past of a disk that begins with these bytes, all of them safe.
    pub fn begun(bytes: &[u8]) -> DiskPast
        ensures { result.kept ≡ record { now = settled bytes.now; before = [] } }
    {
        DiskPast::none().then(&DiskStep::Begins, bytes)
    }

    /// What a crash depends on at this moment is of the past too.
    pub fn remember(&self) -> DiskPast
        ensures { result.kept ≡ record {
          now = self.now.kept.now;
          before = self.now.kept.before ++ self.now.kept.now ∷ [];
        } }
    {
        self.then(&DiskStep::IsRemembered, &[])
    }

    /// One more range is written.
    pub fn wrote(&self, at: usize, count: usize) -> DiskPast
        ensures { result.kept ≡ record self.now.kept {
          now = with_range at count self.now.kept.now;
        } }
    {
        self.then(&DiskStep::Writes(WrittenRange { at, count }), &[])
    }

    /// From now on a crash leaves these bytes.
    pub fn settled(&self, bytes: &[u8]) -> DiskPast
        ensures { result.kept ≡ record self.now.kept { now = settled bytes.now } }
    {
        self.then(&DiskStep::Settles, bytes)
    }

    /// The same once more.
    pub fn copy(&self) -> DiskPast
        ensures { result.kept ≡ self.now.kept }
    {
        self.then(&DiskStep::IsCopied, &[])
    }

    // That of an empty disk.
    fn none() -> DiskPast
        ensures { result.kept ≡ record { now = settled []; before = [] } }
    {
        DiskPast {}
    }

    // What the past is after one step, with the bytes of the disk then.
    fn then(&self, _step: &DiskStep, _bytes: &[u8]) -> DiskPast
        ensures { result.kept ≡ after _step.now _bytes.now self.now.kept }
    {
        DiskPast {}
    }
}
