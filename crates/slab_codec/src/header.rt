ghost use Rattle.std.specs.Prelude.{◌≡◌, ◌<◌, ◌^◌, [], ◌∷◌, ℕ, length, IfOk, IfSome, IfNone, IsTrue};
ghost use Rattle.quorum_rules.specs.Limits.{Numbers, IsValid, edition_number};
ghost use Rattle.slab_codec.specs.Told.{config_in};
ghost use Rattle.quorum_rules.specs.declared.Edition.{Edition as SeenEdition};
ghost use Rattle.slab_layout.specs.Headers.{header_front, header_bytes, IsHeader};

use crate::numbers::{put_bytes, put_long, put_word, read_long, read_word, same_bytes};
use lists::NoMemory;
use quorum_rules::{Config, Edition};
use sqlite_disk::digest_of;
use std::alloc::Global;

/// How many bytes a header has.
pub const HEADER_LEN: usize = 40;

/// What a slab is: the cluster and the number of its node, and the key of its checks.
#[derive(Clone, Copy)]
pub struct Header {
    pub config: Config,
    pub number: u8,
    pub key: u64,
}

/// The 40 bytes of a header.
pub fn header_piece(alloc: Global, header: &Header) -> Result<Vec<u8>, NoMemory>
    ensures { IfOk result (λ piece. piece.items
        ≡ header_bytes header.now.config header.now.number header.now.key) }
{
    let mut piece = front_piece(alloc, header)?;
    let check = digest_of(header.key, &piece);
    put_long(&mut piece, check)?;
    Ok(piece)
}

// What the check of a header covers.
fn front_piece(alloc: Global, header: &Header) -> Result<Vec<u8>, NoMemory>
    ensures { IfOk result (λ piece. piece.items
        ≡ header_front header.now.config header.now.number header.now.key) }
{
    let config = &header.config;
    let mut piece = Vec::with_capacity(alloc, HEADER_LEN)?;
    // "PASISLAB"
    put_bytes(&mut piece, &[80, 65, 83, 73, 83, 76, 65, 66])?;
    put_bytes(&mut piece, &numbers_of(config, header.number))?;
    put_word(&mut piece, config.size())?;
    put_word(&mut piece, config.blocks())?;
    put_long(&mut piece, header.key)?;
    Ok(piece)
}

/// The header that these 40 bytes are, of a node that its cluster has; None where they are no header.
pub fn read_header(alloc: Global, bytes: &[u8]) -> Result<Option<Header>, NoMemory>
    requires { length bytes.now ≡ 40 }
    ensures some { IfOk result (λ found. IfSome found
        (λ h. IsHeader h.config h.number h.key bytes.now)) }
    ensures none { IfOk result (λ found. IfNone found
        ((c : Numbers) (number key : ℕ) → IsHeader c number key bytes.now → ⊥)) }
{
    let Some(header) = told_header(bytes) else {
        return Ok(None);
    };
    if is_header(alloc, &header, bytes)? {
        return Ok(Some(header));
    }
    Ok(None)
}

// Whether these bytes are those of the header, of a node that its cluster has.
fn is_header(alloc: Global, header: &Header, bytes: &[u8]) -> Result<bool, NoMemory>
    ensures yes { IfOk result (λ is. IsTrue is
        → IsHeader header.now.config header.now.number header.now.key bytes.now) }
    ensures not { IfOk result (λ is. IsHeader header.now.config header.now.number
        header.now.key bytes.now → IsTrue is) }
{
    let written = header_piece(alloc, header)?;
    key_range(header.key);
    if same_bytes(written.as_slice(), bytes) {
        return Ok(u32::from(header.number) < header.config.n());
    }
    Ok(false)
}

// The edition, the numbers of nodes, and the number of the node.
fn numbers_of(config: &Config, number: u8) -> [u8; 8]
    ensures { result ≡ edition_number config.now.edition ∷ config.now.n ∷ config.now.t
        ∷ config.now.b ∷ config.now.qc ∷ config.now.m ∷ number ∷ 0 ∷ [] }
{
    [
        config.edition(),
        config.n() as u8,
        config.t() as u8,
        config.b() as u8,
        config.qc() as u8,
        config.m() as u8,
        number,
        0,
    ]
}

// The configuration, number and key that the bytes tell, whatever else they have.
fn told_header(bytes: &[u8]) -> Option<Header>
    requires { length bytes.now ≡ 40 }
    ensures some { IfSome result (λ h. (c : Numbers) (number key : ℕ)
        → IsHeader c number key bytes.now
        → (h.config ≡ c) × (h.number ≡ number) × (h.key ≡ key)) }
    ensures none { IfNone result
        ((c : Numbers) (number key : ℕ) → IsHeader c number key bytes.now → ⊥) }
{
    match told_config(bytes) {
        Some(config) => Some(Header {
            config,
            number: bytes[14],
            key: read_long(bytes, 24),
        }),
        None => None,
    }
}

// The configuration that the bytes tell.
#[tactic(auto, using(crate::proofs::Told::config_is, crate::proofs::Told::told_is_valid, crate::proofs::Told::edition_is))]
fn told_config(bytes: &[u8]) -> Option<Config>
    requires { length bytes.now ≡ 40 }
    ensures some { IfSome result (λ config. (c : Numbers) (number key : ℕ)
        → IsHeader c number key bytes.now → config ≡ c) }
    ensures none { IfNone result
        ((c : Numbers) (number key : ℕ) → IsHeader c number key bytes.now → ⊥) }
{
    let Some(edition) = edition_of(bytes[8]) else {
        return None;
    };
    match config_of(edition, bytes) {
        Some(config) => Some(config),
        None => None,
    }
}

// The configuration of this edition whose numbers the bytes have.
fn config_of(edition: Edition, bytes: &[u8]) -> Option<Config>
    requires { length bytes.now ≡ 40 }
    ensures some { IfSome result (λ config. config ≡ config_in edition bytes.now) }
    ensures none { IfNone result (IsValid (config_in edition bytes.now) → ⊥) }
{
    let size = read_word(bytes, 16);
    let blocks = read_word(bytes, 20);
    let n = u32::from(bytes[9]);
    let t = u32::from(bytes[10]);
    let b = u32::from(bytes[11]);
    let qc = u32::from(bytes[12]);
    let m = u32::from(bytes[13]);
    match Config::of(edition, n, t, b, qc, m, size, blocks) {
        Ok(config) => Some(config),
        Err(_) => None,
    }
}

// The edition of this number.
fn edition_of(number: u8) -> Option<Edition>
    ensures some { IfSome result (λ edition. edition_number edition ≡ number) }
    ensures none { IfNone result ((e : SeenEdition) → edition_number e ≡ number → ⊥) }
{
    match number {
        1 => Some(Edition::One),
        2 => Some(Edition::Two),
        3 => Some(Edition::Three),
        4 => Some(Edition::Four),
        _ => None,
    }
}

// What the type of a key tells.
fn key_range(key: u64)
    ensures { key < 2 ^ 64 }
{}
