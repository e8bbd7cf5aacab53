//! What stands where an option would begin.
ghost use Rattle.std.specs.Prelude.{◌≡◌, ◌≤◌, length, take, drop, IfOk, OnOk, OnErr};
ghost use Rattle.std.specs.Int.{w32, from_be_bytes};
ghost use Rattle.outside_io.specs.Causes.{Rose};
ghost use Rattle.nbd_handshake.specs.Steps.{HasArrived, HasBegun};

use exact_input::fill;
use outside_io::{Failed, Source};

/// "IHAVEOPT", with which each option begins.
pub(crate) const OPTION_MAGIC: [u8; 8] = [73, 72, 65, 86, 69, 79, 80, 84];

/// An option without its data.
#[derive(Clone, Copy)]
pub(crate) struct Head {
    pub number: u32,
    /// How many bytes of data follow.
    pub len: u32,
}

/// What stands where an option would begin.
#[derive(Clone, Copy)]
pub(crate) enum Arrival {
    /// The input has ended.
    Nothing,
    /// Eight bytes that begin no option. No more were read.
    Wrong,
    /// The input has ended before all of an option's bytes, its data aside, were there.
    Cut,
    /// An option. Its data are still to be read.
    Head(Head),
}

/// Reads an option, its data aside.
pub(crate) fn read_head<S: Source>(source: &mut S) -> Result<Arrival, Failed>
    ensures arrival { IfOk result (λ arrival.
        HasArrived (S.left source.old) (S.left source.new) arrival) }
    ensures begun { OnErr result (HasBegun (S.left source.old) (S.left source.new)) }
    ensures cause { OnErr result (Rose S.last (S.faults source.old) (S.faults source.new)) }
    ensures calm { OnOk result (S.faults source.new ≡ S.faults source.old) }
    ensures later { S.faults source.old ≤ S.faults source.new }
{
    let mut magic = [0u8; 8];
    let count = fill(source, &mut magic)?;
    if count == 0 {
        return Ok(Arrival::Nothing);
    }
    if count < 8 {
        return Ok(Arrival::Cut);
    }
    if magic != OPTION_MAGIC {
        return Ok(Arrival::Wrong);
    }
    let mut fields = [0u8; 8];
    if fill(source, &mut fields)? < 8 {
        return Ok(Arrival::Cut);
    }
    Ok(Arrival::Head(Head {
        number: four(&fields[..4]),
        len: four(&fields[4..]),
    }))
}

/// The number of four bytes.
pub(crate) fn four(bytes: &[u8]) -> u32
    requires { length bytes.now ≡ 4 }
    ensures { result ≡ from_be_bytes w32 bytes.now }
{
    u32::from_be_bytes([bytes[0], bytes[1], bytes[2], bytes[3]])
}
