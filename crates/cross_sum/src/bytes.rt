ghost use Rattle.std.specs.Prelude.{◌≡◌, ◌≤◌, ◌<◌, ◌^◌, ◌↔◌, IsTrue, [], length, drop, replicate, IfOk, All};
ghost use Rattle.std.specs.List.{AllByRecursion};

use lists::{Copied, NoMemory};
use std::alloc::Global;
use std::marker::Model;
use std::sync::Arc;

/// A string of bytes. Contracts see the list of them.
///
/// A string of at most 14 bytes takes no memory beside itself. The copies of a longer one share its bytes.
pub struct Bytes {
    held: Held,
}

/// Where the bytes are.
#[derive(Drop)]
enum Held {
    /// The first `len` of these.
    Few { len: u8, bytes: [u8; 14] },
    /// In a vector that copies share.
    Shared(Arc<Vec<u8>, Global>),
}

/// The longest string that is held without memory of its own. With it a string is as large as two words.
const FEW: usize = 14;

impl Model for Bytes {
    ghost use Rattle.std.specs.Prelude.{List, ℕ};

    ghost Value = { List ℕ };

    ghost use Rattle.cross_sum.specs.HowHeld.{bytes_of, IsHeld};

    ghost view = { λ b. bytes_of b.held };

    ghost invariant = { λ b. IsHeld b.held };
}

// By hand, since a derived drop is proved anew wherever a string is let go.
impl Drop for Bytes {
    fn drop(self) {
        let Bytes { held: _held } = self;
    }
}

impl Bytes {
    /// A string of these bytes.
    pub fn of(alloc: Global, bytes: &[u8]) -> Result<Bytes, NoMemory>
        ensures { IfOk result (λ b. b ≡ bytes.now) }
    {
        if bytes.len() <= FEW {
            return Ok(few(bytes));
        }
        Bytes::shared(Vec::from_slice(alloc, bytes)?)
    }

    /// The string of no bytes.
    pub fn empty() -> Bytes
        ensures { result ≡ [] }
    {
        few(&[])
    }

    /// A string of `len` bytes that are 0.
    pub fn zeros(alloc: Global, len: usize) -> Result<Bytes, NoMemory>
        ensures { IfOk result (λ b. b ≡ replicate len 0) }
    {
        Bytes::shared(vec![in alloc; 0; len]?)
    }

    /// The string of a vector's bytes, which copies share.
    pub fn shared(bytes: Vec<u8>) -> Result<Bytes, NoMemory>
        ensures { IfOk result (λ b. b ≡ bytes.items) }
    {
        if bytes.len() <= FEW {
            return Ok(few(bytes.as_slice()));
        }
        let alloc = *bytes.allocator();
        Ok(Bytes {
            held: Held::Shared(Arc::new(alloc, bytes)?),
        })
    }

    /// All bytes, lent.
    pub fn as_slice(&self) -> &[u8]
        ensures value { result.now ≡ self.now }
        ensures bytes { All (λ b. b < 256) self.now }
        ensures each { AllByRecursion (λ b. b < 256) self.now }
    {
        match &self.held {
            Held::Few { len, bytes } => in_range(&bytes[..*len as usize]),
            Held::Shared(bytes) => in_range(bytes.as_slice()),
        }
    }

    /// The bytes from a place on.
    pub fn tail(&self, at: usize) -> &[u8]
        requires { at ≤ length self.now }
        ensures value { result.now ≡ drop at self.now }
        ensures small { length self.now < 2 ^ 63 }
    {
        &self.as_slice()[at..]
    }

    /// How many bytes there are.
    pub fn len(&self) -> usize
        ensures { result ≡ length self.now }
    {
        self.as_slice().len()
    }

    /// Whether there is no byte.
    pub fn is_empty(&self) -> bool
        ensures { IsTrue result ↔ (self.now ≡ []) }
    {
        self.as_slice().is_empty()
    }

    /// Whether both have the same bytes.
    pub fn same(&self, other: &Bytes) -> bool
        ensures { IsTrue result ↔ (self.now ≡ other.now) }
    {
        self.as_slice() == other.as_slice()
    }
}

/// A string of at most 14 bytes.
fn few(bytes: &[u8]) -> Bytes
    requires { length bytes.now ≤ 14 }
    ensures { result ≡ bytes.now }
{
    let mut held = [0; 14];
    held[..bytes.len()].copy_from_slice(bytes);
    Bytes {
        held: Held::Few {
            len: bytes.len() as u8,
            bytes: held,
        },
    }
}

// A parameter's type says that each byte is below 256, which a field's does not.
fn in_range(bytes: &[u8]) -> &[u8]
    ensures value { result.now ≡ bytes.now }
    ensures bytes { All (λ b. b < 256) bytes.now }
    ensures each { AllByRecursion (λ b. b < 256) bytes.now }
{
    bytes
}

impl Copied for Bytes {
    fn copy(&self) -> Result<Bytes, NoMemory> {
        match &self.held {
            Held::Few { len, bytes } => Ok(Bytes {
                held: Held::Few {
                    len: *len,
                    bytes: *bytes,
                },
            }),
            Held::Shared(bytes) => Ok(Bytes {
                held: Held::Shared(Arc::try_clone(bytes)?),
            }),
        }
    }
}
