//! What readers of fields share.
#![tactic(auto, using(text_lines::proofs::lemmas::Spelled::spelled, std::proofs::lemmas::Grind::common_steps))]

ghost use Rattle.std.specs.Prelude.{◌≡◌, ◌∷◌, [], false, length};
ghost use Rattle.text_lines.specs.Fields.{value_of, value_text, IsBytes};
ghost use Rattle.text_lines.specs.Lines.{texts};
ghost use Rattle.line_forms.specs.Kinds.Kind.{value as value_kind, bytes as any_bytes};
ghost use Rattle.line_forms.specs.Kinds.{form_cause, has_empty_field, has_other_length};
ghost use Rattle.line_forms.specs.Tables.{Gives, first_of};

use crate::cause::Cause;
use crate::refusal::LineRefusal;
use cross_sum::Bytes;
use std::alloc::Global;
use text_lines::value;

/// Whether one of the fields is empty.
pub fn has_empty(fields: &[&[u8]]) -> bool
    ensures { result ≡ has_empty_field (texts fields.now) }
{
    for field in fields {
        if field.is_empty() {
            return true;
        }
    }
    false
}

/// The value of `len` bytes that a field spells. `BadValue` where it spells none.
pub fn value_of_len(alloc: Global, field: &[u8], len: usize) -> Result<Bytes, LineRefusal>
    ensures { Gives (λ v. (value_text v ≡ field.now) × (length v ≡ len) × IsBytes v)
        (first_of ((has_other_length len (value_of field.now), Cause.BadValue) ∷ [])) result }
{
    let value = value(alloc, field)?.ok_or(Cause::BadValue)?;
    if value.len() != len {
        return Err(LineRefusal::Cause(Cause::BadValue));
    }
    Ok(value)
}

/// The values of `len` bytes that two fields spell. `BadValue` where one spells none.
pub fn two_values(
    alloc: Global,
    first: &[u8],
    second: &[u8],
    len: usize,
) -> Result<(Bytes, Bytes), LineRefusal>
    requires { has_empty_field (first.now ∷ second.now ∷ []) ≡ false }
    ensures { Gives (λ read. (value_text read.0 ≡ first.now) × (length read.0 ≡ len)
        × IsBytes read.0
        × (value_text read.1 ≡ second.now) × (length read.1 ≡ len) × IsBytes read.1)
        (form_cause (value_kind len ∷ value_kind len ∷ []) (first.now ∷ second.now ∷ []))
        result }
{
    let first = value_of_len(alloc, first, len)?;
    let second = value_of_len(alloc, second, len)?;
    Ok((first, second))
}

/// The value of any length that a field spells. `BadValue` where it spells none.
pub fn any_value(alloc: Global, field: &[u8]) -> Result<Bytes, LineRefusal>
    requires { has_empty_field (field.now ∷ []) ≡ false }
    ensures { Gives (λ read. (value_text read ≡ field.now) × IsBytes read)
        (form_cause (any_bytes ∷ []) (field.now ∷ [])) result }
{
    let value = value(alloc, field)?.ok_or(Cause::BadValue)?;
    Ok(value)
}
