//! What the steps of commands do to the bytes of the device. Each law is a function with nothing to do.
ghost use Rattle.std.specs.Prelude.{◌≡◌, ◌+◌, ◌%◌, ℕ, List, None};
ghost use Rattle.std.specs.List.{concat, slice_range};
ghost use Rattle.quorum_rules.specs.Limits.{Numbers};
ghost use Rattle.wire_forms.specs.declared.device.DeviceOp.TheVariants.{Get, Put};
ghost use Rattle.block_device.specs.Ranges.{fault_of};
ghost use Rattle.block_device.specs.Steps.{steps_of};
ghost use Rattle.block_device.specs.Device.{Device, AreBlocks, IsWritten, after, reads, bytes_of};

/// After the steps of a put the device has the put's bytes in their place, and every other byte as before.
pub fn puts_write_their_range()
    ensures written { (c : Numbers) (d : Device) (start : ℕ) (bytes : List ℕ)
        → AreBlocks c.size c.blocks d.held → fault_of c (Put start bytes) ≡ None
        → IsWritten c.size d.held (after (steps_of c (Put start bytes)) d).held start bytes }
    ensures blocks { (c : Numbers) (d : Device) (start : ℕ) (bytes : List ℕ)
        → AreBlocks c.size c.blocks d.held → fault_of c (Put start bytes) ≡ None
        → AreBlocks c.size c.blocks (after (steps_of c (Put start bytes)) d).held }
{}

/// The values that a get reads, one after the other and cut to the range, are the device's bytes there. The device stays as
/// it is.
pub fn gets_read_their_range()
    ensures given { (c : Numbers) (d : Device) (start len : ℕ) → AreBlocks c.size c.blocks d.held
        → fault_of c (Get start len) ≡ None
        → slice_range (concat (reads (steps_of c (Get start len)) d)) (start % c.size)
        (start % c.size + len) ≡ bytes_of c.size d.held start len }
    ensures same { (c : Numbers) (d : Device) (start len : ℕ)
        → (after (steps_of c (Get start len)) d).held ≡ d.held }
{}
