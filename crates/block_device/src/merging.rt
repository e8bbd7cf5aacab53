ghost use Rattle.std.specs.Prelude.{◌≡◌, ◌+◌, ◌≤◌, length, IfOk};
ghost use Rattle.block_device.specs.Device.{merged};

use cross_sum::{Bytes, NoMemory};
use std::alloc::Global;

/// A block's value with other bytes from place `at` on, which end within it.
pub fn merge(alloc: Global, old: &Bytes, at: u32, bytes: &Bytes) -> Result<Bytes, NoMemory>
    requires { at + length bytes.now ≤ length old.now }
    ensures value { IfOk result (λ value. value ≡ merged old.now at bytes.now) }
    ensures len { IfOk result (λ value. length value ≡ length old.now) }
{
    let at = at as usize;
    let mut value = Vec::with_capacity(alloc, old.len())?;
    value.extend_from_slice(&old.as_slice()[..at])?;
    value.extend_from_slice(bytes.as_slice())?;
    value.extend_from_slice(old.tail(at + bytes.len()))?;
    Bytes::shared(value)
}
