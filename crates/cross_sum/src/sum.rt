ghost use Rattle.std.specs.Prelude.{◌≡◌, ◌<◌, ◌↔◌, [], length, map, replicate, slice_get, IfOk, IsTrue, Some};
ghost use Rattle.std.specs.List.{AllByRecursion};
ghost use Rattle.cross_sum.specs.Digest.{digest, verifier};
ghost use Rattle.cross_sum.specs.HowKept.{HaveDigests, IsBeside};

use crate::bytes::Bytes;
use crate::digests::digests_of;
use crate::part::{Part, Shares};
use lists::{Copied, NoMemory};
use sha2::{Digest, Sha256};
use std::alloc::Global;
use std::marker::Model;
use std::sync::Arc;

/// A SHA-256 digest, of 32 bytes.
pub type Hash = [u8; 32];

/// The SHA-256 of a string (FIPS 180-4).
pub fn sha(bytes: &[u8]) -> Hash
    ensures { result ≡ digest bytes.now }
{
    Sha256::digest(bytes)
}

/// A cross checksum: the digests of fragments, one each. Contracts see the list of them.
///
/// It keeps its verifier, the SHA-256 of all digests in one string, so that it's computed once, and the fragments that it was made
/// of, or one that stood beside it, so that no fragment that is one of them is digested again. Copies share all of it.
pub struct CrossSum {
    shared: Arc<Digests, Global>,
}

/// What the copies of a cross checksum share.
#[derive(Drop)]
struct Digests {
    digests: Vec<Hash>,
    verifier: Hash,
    /// The strings that have these digests, or none where only the digests are known.
    strings: Shares,
    /// One string that has the digest of its number.
    beside: Option<Part>,
}

impl Model for CrossSum {
    ghost use Rattle.std.specs.Prelude.{◌≡◌, List, ℕ};
    ghost use Rattle.std.specs.Arc.{arc_value};
    ghost use Rattle.cross_sum.specs.HowKept.{IsKept};

    ghost Value = { List (List ℕ) };

    ghost view = { λ s. (arc_value s.shared).digests.items };

    ghost invariant = { λ s. IsKept (arc_value s.shared) };
}

// By hand, since a derived drop is proved anew wherever a cross checksum is let go.
impl Drop for CrossSum {
    fn drop(self) {
        let CrossSum { shared: _shared } = self;
    }
}

impl CrossSum {
    /// The digests of the strings, in order.
    pub fn of_fragments(alloc: Global, parts: &[Bytes]) -> Result<CrossSum, NoMemory>
        ensures { IfOk result (λ s. s ≡ map digest parts.now) }
    {
        let digests = digests_of(alloc, parts)?;
        CrossSum::of_vec(digests, copies_of(alloc, parts)?, None)
    }

    /// The digests of so many strings that are all this one. It is digested once.
    pub fn of_equal(alloc: Global, part: &Bytes, count: u32) -> Result<CrossSum, NoMemory>
        ensures { IfOk result (λ s. s ≡ map digest (replicate count part.now)) }
    {
        let digest = sha(part.as_slice());
        let mut digests = Vec::with_capacity(alloc, count as usize)?;
        let mut strings = Vec::with_capacity(alloc, count as usize)?;
        for _ in 0..count {
            digests.push(digest)?;
            strings.push(part.copy()?)?;
        }
        CrossSum::of_vec(digests, Shares::from_vec(strings), None)
    }

    /// The cross checksum that has these digests.
    pub fn of_hashes(alloc: Global, list: &[Hash]) -> Result<CrossSum, NoMemory>
        ensures { IfOk result (λ s. s ≡ list.now) }
    {
        CrossSum::of_vec(Vec::from_slice(alloc, list)?, Shares::new(alloc), None)
    }

    /// The cross checksum that has these digests, beside which fragment `number` stands. Where it has its digest, that isn't computed
    /// of it again.
    pub fn of_hashes_beside(
        alloc: Global,
        list: &[Hash],
        number: u8,
        fragment: &Bytes,
    ) -> Result<CrossSum, NoMemory>
        ensures { IfOk result (λ s. s ≡ list.now) }
    {
        let digests = Vec::from_slice(alloc, list)?;
        let beside = beside(list, number, fragment)?;
        CrossSum::of_vec(digests, Shares::new(alloc), beside)
    }

    /// The cross checksum of a vector's digests, which are those of the strings, and of the one that stands beside it.
    pub(crate) fn of_vec(
        digests: Vec<Hash>,
        strings: Shares,
        beside: Option<Part>,
    ) -> Result<CrossSum, NoMemory>
        requires strings { HaveDigests strings digests.items }
        requires beside { IsBeside beside digests.items }
        ensures { IfOk result (λ s. s ≡ digests.items) }
    {
        let alloc = *digests.allocator();
        let verifier = verifier_of(digests.as_slice());
        let held = Digests {
            digests,
            verifier,
            strings,
            beside,
        };
        Ok(CrossSum {
            shared: Arc::new(alloc, held)?,
        })
    }

    /// How many digests there are.
    pub fn len(&self) -> usize
        ensures { result ≡ length self.now }
    {
        self.hashes().len()
    }

    /// Whether there is no digest.
    pub fn is_empty(&self) -> bool
        ensures { IsTrue result ↔ (self.now ≡ []) }
    {
        self.hashes().is_empty()
    }

    /// Digest `i`.
    pub fn entry(&self, i: usize) -> Hash
        requires { i < length self.now }
        ensures value { slice_get self.now i ≡ Some result }
        ensures bytes { length result ≡ 32 }
    {
        hash_at(self.hashes(), i)
    }

    /// All digests, lent.
    pub fn hashes(&self) -> &[Hash]
        ensures value { result.now ≡ self.now }
        ensures bytes { AllByRecursion (λ d. length d ≡ 32) self.now }
    {
        of_32_bytes(self.shared.digests.as_slice())
    }

    /// The SHA-256 of all digests in one string. It was computed when the cross checksum was made.
    pub fn verifier(&self) -> Hash
        ensures { result ≡ verifier self.now }
    {
        self.shared.verifier
    }

    /// Whether digest `i` is the fragment's. Where the fragment is the one that it was computed of, no digest is computed.
    pub fn matches(&self, i: usize, fragment: &[u8]) -> bool
        requires { i < length self.now }
        ensures { IsTrue result ↔ (slice_get self.now i ≡ Some (digest fragment.now)) }
    {
        self.is_known(i, fragment) || self.entry(i) == sha(fragment)
    }

    /// Whether the fragment is the string that digest `i` was computed of.
    fn is_known(&self, i: usize, fragment: &[u8]) -> bool
        ensures { IsTrue result → slice_get self.now i ≡ Some (digest fragment.now) }
    {
        match self.shared.strings.get(i) {
            Some(string) => string.as_slice() == fragment,
            None => self.stands_beside(i, fragment),
        }
    }

    /// Whether the fragment is the string that stands beside, and that has digest `i`.
    fn stands_beside(&self, i: usize, fragment: &[u8]) -> bool
        ensures { IsTrue result → slice_get self.now i ≡ Some (digest fragment.now) }
    {
        match &self.shared.beside {
            Some(part) => usize::from(part.number) == i && part.bytes.as_slice() == fragment,
            None => false,
        }
    }

    /// Whether the digests of both are the same.
    pub fn same(&self, other: &CrossSum) -> bool
        ensures { IsTrue result ↔ (self.now ≡ other.now) }
    {
        self.hashes() == other.hashes()
    }
}

/// The fragment with its number, where it has the digest of that number.
fn beside(digests: &[Hash], number: u8, fragment: &Bytes) -> Result<Option<Part>, NoMemory>
    ensures { IfOk result (λ beside. IsBeside beside digests.now) }
{
    let i = usize::from(number);
    if i < digests.len() && hash_at(digests, i) == sha(fragment.as_slice()) {
        let bytes = fragment.copy()?;
        return Ok(Some(Part { number, bytes }));
    }
    Ok(None)
}

/// Copies of the strings, in order.
pub(crate) fn copies_of(alloc: Global, strings: &[Bytes]) -> Result<Shares, NoMemory>
    ensures { IfOk result (λ copies. copies ≡ strings.now) }
{
    let mut copies = Vec::with_capacity(alloc, strings.len())?;
    for string in strings {
        copies.push(string.copy()?)?;
    }
    Ok(Shares::from_vec(copies))
}

fn verifier_of(digests: &[Hash]) -> Hash
    ensures { result ≡ verifier digests.now }
{
    let mut hasher = Sha256::new();
    for digest in digests {
        hasher.update(digest.as_slice());
    }
    hasher.finalize()
}

// The type says that a digest has 32 bytes.
fn hash_at(digests: &[Hash], i: usize) -> Hash
    requires { i < length digests.now }
    ensures value { slice_get digests.now i ≡ Some result }
    ensures bytes { length result ≡ 32 }
{
    digests[i]
}

// The type says that each digest has 32 bytes.
fn of_32_bytes(digests: &[Hash]) -> &[Hash]
    ensures value { result.now ≡ digests.now }
    ensures bytes { AllByRecursion (λ d. length d ≡ 32) digests.now }
{
    digests
}

impl Copied for CrossSum {
    fn copy(&self) -> Result<CrossSum, NoMemory> {
        Ok(CrossSum {
            shared: Arc::try_clone(&self.shared)?,
        })
    }
}
