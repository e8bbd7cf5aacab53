ghost use Rattle.std.specs.Prelude.{◌≡◌, ◌≢◌, ◌^◌, None, IfOk};
ghost use Rattle.std.specs.List.{list_any};
ghost use Rattle.std.specs.Char.{is_ascii_uppercase};
ghost use Rattle.text_lines.specs.Fields.{number_of, value_of};

use cross_sum::Bytes;
use hex::FromHexError;
use lists::NoMemory;
use std::alloc::Global;
use std::str;

/// The number that a field spells: digits without a leading zero.
pub fn number(field: &[u8]) -> Option<u64>
    ensures { result ≡ number_of (2 ^ 64) field.now }
{
    let first = *field.first()?;
    if first == b'+' || (first == b'0' && field.len() > 1) {
        return None;
    }
    str::from_utf8(field).ok()?.parse::<u64>().ok()
}

pub fn number_u32(field: &[u8]) -> Option<u32>
    ensures { result ≡ number_of (2 ^ 32) field.now }
{
    u32::try_from(number(field)?).ok()
}

pub fn number_u8(field: &[u8]) -> Option<u8>
    ensures { result ≡ number_of (2 ^ 8) field.now }
{
    u8::try_from(number(field)?).ok()
}

fn has_capital(digits: &[u8]) -> bool
    ensures { result ≡ list_any is_ascii_uppercase digits.now }
{
    digits.iter().any(|digit| digit.is_ascii_uppercase())
}

/// A text that does not decode spells no value, unless only memory was missing.
fn spells_none(fault: &FromHexError) -> Result<Option<Bytes>, NoMemory>
    ensures { IfOk result (λ value. (value ≡ None) × (fault.now ≢ FromHexError.OutOfMemory)) }
{
    match fault {
        FromHexError::OutOfMemory => Err(NoMemory),
        _ => Ok(None),
    }
}

/// The bytes that a field spells: `x`, and two digits for each byte.
pub fn value(alloc: Global, field: &[u8]) -> Result<Option<Bytes>, NoMemory>
    ensures { IfOk result (λ value. value ≡ value_of field.now) }
{
    let Some((first, digits)) = field.split_first() else {
        return Ok(None);
    };
    if *first != b'x' || has_capital(digits) {
        return Ok(None);
    }
    match hex::decode(alloc, digits) {
        Ok(bytes) => Ok(Some(Bytes::shared(bytes)?)),
        Err(fault) => spells_none(&fault),
    }
}
