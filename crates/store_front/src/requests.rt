//! Which requests a store serves, and the errors of the others.
ghost use Rattle.std.specs.Prelude.{◌≡◌};
ghost use Rattle.store_front.specs.Requests.{changes, has_range, may_have, is_command, is_too_long, error_of};

use nbd_front::request::Request;

/// The kinds of requests.
pub(crate) const READ: u16 = 0;

pub(crate) const WRITE: u16 = 1;

const FLUSH: u16 = 3;

const TRIM: u16 = 4;

const ZEROES: u16 = 6;

/// The error of a request that isn't served, or reads or trims past the end.
const INVALID: u32 = 22;

/// The error of a write past the end.
const NO_SPACE: u32 = 28;

/// How many bytes reads and writes have at most.
const MOST_PAYLOAD: u32 = 1 << 25;

/// Whether a request of this kind changes the bytes of its range.
pub(crate) fn changes(kind: u16) -> bool
    ensures { result ≡ changes kind }
{
    kind == WRITE || kind == TRIM || kind == ZEROES
}

/// Whether it reads them, or changes them.
pub(crate) fn has_range(kind: u16) -> bool
    ensures { result ≡ has_range kind }
{
    kind == READ || changes(kind)
}

/// Whether it is one of those that the protocol names here.
fn is_command(kind: u16) -> bool
    ensures { result ≡ is_command kind }
{
    kind <= TRIM || kind == ZEROES
}

/// Whether a request of this kind may have these flags: FUA, and NO_HOLE where it writes zeroes.
fn may_have(kind: u16, flags: u16) -> bool
    ensures { result ≡ may_have kind flags }
{
    flags < 2 || kind == ZEROES && flags < 4
}

/// Whether a read or a write has too many bytes.
fn is_too_long(request: &Request) -> bool
    ensures { result ≡ is_too_long request.now }
{
    (request.kind == READ || request.kind == WRITE) && request.len > MOST_PAYLOAD
}

/// The error of a request's reply by a store of so many bytes, 0 where it is served: 22 where it isn't one of the
/// protocol's, has flags that it may not have, is a read or a write of more than 32 MiB, or reads or trims past the
/// end; 28 where it writes past the end.
pub(crate) fn error(request: &Request, size: u64) -> u32
    ensures { result ≡ error_of size request.now }
{
    let kind = request.kind;
    if !is_command(kind) || !may_have(kind, request.flags) || is_too_long(request) {
        return INVALID;
    }
    if kind == FLUSH || request.offset <= size && u64::from(request.len) <= size - request.offset {
        return 0;
    }
    if kind == WRITE || kind == ZEROES {
        return NO_SPACE;
    }
    INVALID
}
