ghost use Rattle.std.specs.Prelude.{◌≡◌, ◌≤◌, ◌++◌, length, replicate, IfOk, OnOk};
ghost use Rattle.std.specs.List.{range_with_len};
ghost use Rattle.gf_field.specs.Fragments.{padded, rows_of, string_len};
ghost use Rattle.cross_sum.specs.Parts.{numbers};

use cross_sum::{Bytes, NoMemory, Part, Shares};
use lists::ItemList;
use std::alloc::Global;

/// Puts `len` zeros at the end.
pub fn push_zeros(bytes: &mut Vec<u8>, len: usize) -> Result<(), NoMemory>
    ensures { OnOk result (bytes.new.items ≡ bytes.old.items ++ replicate len 0) }
{
    let end = bytes.len().checked_add(len).ok_or(NoMemory)?;
    bytes.resize(end, 0)?;
    Ok(())
}

/// A string with zeros after it.
fn padded(alloc: Global, string: &[u8], len: usize) -> Result<Bytes, NoMemory>
    requires { length string.now ≤ len }
    ensures { IfOk result (λ s. s ≡ padded len string.now) }
{
    let mut bytes = Vec::with_capacity(alloc, len)?;
    bytes.extend_from_slice(string)?;
    push_zeros(&mut bytes, len - string.len())?;
    Bytes::shared(bytes)
}

/// The `m` rows of a block, each of `len` bytes, the last ones padded with zeros.
pub fn rows_of(alloc: Global, block: &[u8], m: u8, len: usize) -> Result<Shares, NoMemory>
    requires some { 1 ≤ m }
    requires len { len ≡ string_len m (length block.now) }
    ensures { IfOk result (λ rows. rows ≡ rows_of m block.now) }
{
    let mut rows = ItemList::new(alloc);
    let mut rest = block;
    for _ in 0..m {
        let (held, after) = rest.split_at(len.min(rest.len()));
        rows.push(padded(alloc, held, len)?)?;
        rest = after;
    }
    Ok(rows)
}

/// The numbers from 0 to `m - 1`, which those of the rows are.
pub fn first_numbers(alloc: Global, m: u8) -> Result<Vec<u8>, NoMemory>
    ensures { IfOk result (λ v. v.items ≡ range_with_len 0 m) }
{
    let mut numbers = Vec::with_capacity(alloc, m as usize)?;
    for k in 0..m {
        numbers.push(k)?;
    }
    Ok(numbers)
}

/// The numbers of parts.
pub fn numbers_of(alloc: Global, parts: &[Part]) -> Result<Vec<u8>, NoMemory>
    ensures { IfOk result (λ v. v.items ≡ numbers parts.now) }
{
    Ok(parts.iter().map(|part| part.number).collect(alloc)?)
}
