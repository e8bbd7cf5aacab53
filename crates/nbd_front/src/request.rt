ghost use Rattle.std.specs.Prelude.{◌≡◌, ◌<◌, ◌↔◌, length};
ghost use Rattle.std.specs.Int.{w16, w32, w64, from_be_bytes};
ghost use Rattle.nbd_front.specs.Requests.{fields_of, data_len, write_kind, flush_kind};
ghost use Rattle.nbd_front.specs.Sessions.{read_kind, leave_kind};
ghost use Rattle.nbd_front.specs.Replies.{error_of};

/// The error of a request that isn't served, or reads past the end.
const INVALID: u32 = 22;

/// The error of a write past the end.
const NO_SPACE: u32 = 28;

/// What a request asks for.
#[derive(Clone, Copy, Debug, PartialEq, Eq)]
pub enum RequestKind {
    /// The bytes of its range.
    Read,
    /// That its data take the place of the bytes of its range.
    Write,
    /// The end of the session.
    Leave,
    /// That what was written is kept. It has no range.
    Flush,
    /// Something that isn't served.
    Other,
}

/// What a client asks.
#[derive(Clone, Copy, Debug, PartialEq, Eq)]
pub struct Request {
    pub flags: u16,
    /// The number of what it asks for; `asks` tells what that is.
    pub kind: u16,
    /// What the client knows the reply by.
    pub handle: [u8; 8],
    /// The place of the range's first byte.
    pub offset: u64,
    /// How many bytes the range has.
    pub len: u32,
}

impl Request {
    /// The request with these bytes after its magic.
    pub fn of(rest: &[u8]) -> Request
        requires { length rest.now ≡ 24 }
        ensures { result ≡ fields_of rest.now }
    {
        let mut handle = [0u8; 8];
        handle.copy_from_slice(&rest[4..12]);
        Request {
            flags: two(&rest[..2]),
            kind: two(&rest[2..4]),
            handle,
            offset: eight(&rest[12..20]),
            len: four(&rest[20..24]),
        }
    }

    /// What it asks for.
    pub fn asks(&self) -> RequestKind
        ensures read { (result ≡ RequestKind.Read) ↔ (self.now.kind ≡ read_kind) }
        ensures write { (result ≡ RequestKind.Write) ↔ (self.now.kind ≡ write_kind) }
        ensures leave { (result ≡ RequestKind.Leave) ↔ (self.now.kind ≡ leave_kind) }
        ensures flush { (result ≡ RequestKind.Flush) ↔ (self.now.kind ≡ flush_kind) }
        ensures other { (result ≡ RequestKind.Other) ↔ (flush_kind < self.now.kind) }
    {
        match self.kind {
            0 => RequestKind::Read,
            1 => RequestKind::Write,
            2 => RequestKind::Leave,
            3 => RequestKind::Flush,
            _ => RequestKind::Other,
        }
    }

    /// The error of its reply by a device of so many bytes, 0 where it is served: 22 where it isn't served or reads past the
    /// end, 28 where it writes past the end. A flush has no range.
    pub fn error(&self, size: u64) -> u32
        ensures { result ≡ error_of size self.now }
    {
        if self.flags != 0 {
            return INVALID;
        }
        let within = self.offset <= size && u64::from(self.len) <= size - self.offset;
        match self.asks() {
            RequestKind::Other => INVALID,
            RequestKind::Flush => 0,
            _ if within => 0,
            RequestKind::Write => NO_SPACE,
            RequestKind::Read | RequestKind::Leave => INVALID,
        }
    }

    /// How many bytes of data follow it.
    pub fn data_len(&self) -> u32
        ensures { result ≡ data_len self.now }
    {
        match self.asks() {
            RequestKind::Write => self.len,
            _ => 0,
        }
    }
}

/// The number of two bytes.
fn two(bytes: &[u8]) -> u16
    requires { length bytes.now ≡ 2 }
    ensures { result ≡ from_be_bytes w16 bytes.now }
{
    u16::from_be_bytes([bytes[0], bytes[1]])
}

/// The number of four bytes.
pub(crate) fn four(bytes: &[u8]) -> u32
    requires { length bytes.now ≡ 4 }
    ensures { result ≡ from_be_bytes w32 bytes.now }
{
    u32::from_be_bytes([bytes[0], bytes[1], bytes[2], bytes[3]])
}

/// The number of eight bytes.
fn eight(bytes: &[u8]) -> u64
    requires { length bytes.now ≡ 8 }
    ensures { result ≡ from_be_bytes w64 bytes.now }
{
    u64::from_be_bytes([
        bytes[0], bytes[1], bytes[2], bytes[3], bytes[4], bytes[5], bytes[6], bytes[7],
    ])
}
