//! What stands at the front of the input at hand.
ghost use Rattle.std.specs.Prelude.{◌≡◌, ◌+◌, ◌^◌, ◌<◌, length};
ghost use Rattle.store_front.specs.Standings.{IsStanding};

use nbd_front::request::Request;

/// The number with which each request begins.
const MAGIC: u32 = 0x2560_9513;

/// How many bytes a request has before its data.
pub(crate) const HEAD: usize = 28;

/// The kind of requests that leave.
const LEAVE: u16 = 2;

/// What stands at the front of the input at hand.
#[derive(Clone, Copy, Debug, PartialEq, Eq)]
pub(crate) enum Standing {
    /// Nothing, or not all of a request's bytes.
    Part,
    /// Four bytes that begin no request.
    Wrong,
    /// A request that leaves.
    Leave,
    /// Another request, with its data.
    Whole(Request),
}

/// What stands at the front of the input at hand.
pub(crate) fn at_front(input: &[u8]) -> Standing
    ensures is { IsStanding result input.now }
    ensures short { result ≡ Standing.Part → length input.now < 2 ^ 32 + 28 }
{
    if input.len() < 4 {
        return Standing::Part;
    }
    if u32::from_be_bytes([input[0], input[1], input[2], input[3]]) != MAGIC {
        return Standing::Wrong;
    }
    if input.len() < HEAD {
        return Standing::Part;
    }
    let request = Request::of(&input[4..HEAD]);
    if request.kind == LEAVE {
        return Standing::Leave;
    }
    if input.len() - HEAD < request.data_len() as usize {
        return Standing::Part;
    }
    Standing::Whole(request)
}
