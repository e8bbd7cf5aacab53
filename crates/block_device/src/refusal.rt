ghost use Rattle.std.specs.Prelude.{◌≡◌};
ghost use Rattle.block_device.specs.Refusals.{as_refusal};
ghost use Rattle.block_device.specs.declared.refusal.DeviceRefusal.TheVariants as refusals;

use line_forms::DeviceFault;
use lists::NoMemory;

/// Why a command has no steps.
#[derive(Clone, Copy, Debug, PartialEq, Eq)]
pub enum DeviceRefusal {
    /// No memory was found.
    NoMemory,
    /// The range goes past the device's end.
    PastEnd,
    /// The range has no byte, and doesn't begin past the device's end.
    EmptyRange,
}

impl From<NoMemory> for DeviceRefusal {
    ghost from_gives = { λ _ e. e ≡ refusals.NoMemory };

    fn from(_: NoMemory) -> DeviceRefusal {
        DeviceRefusal::NoMemory
    }
}

impl From<DeviceFault> for DeviceRefusal {
    ghost from_gives = { λ f e. e ≡ as_refusal f };

    fn from(fault: DeviceFault) -> DeviceRefusal {
        match fault {
            DeviceFault::PastEnd => DeviceRefusal::PastEnd,
            DeviceFault::EmptyRange => DeviceRefusal::EmptyRange,
        }
    }
}
