ghost use Rattle.std.specs.Prelude.{◌≡◌, [], ◌∷◌, ◌==◌, position, length, ◌<◌, MatchOption, IfOk, IfSome};
ghost use Rattle.text_lines.specs.Lines.{parts_at, fields_of, texts};

use lists::NoMemory;
use std::alloc::Global;

fn place_of(text: &[u8], mark: u8) -> Option<usize>
    ensures { result ≡ position (λ byte. byte == mark) text.now }
{
    text.iter().position(|byte| *byte == mark)
}

/// What stands before the first `mark`, and what stands after it.
pub fn cut(text: &[u8], mark: u8) -> Option<(&[u8], &[u8])>
    ensures parts { MatchOption result (parts_at mark text.now ≡ text.now ∷ [])
        (λ found. parts_at mark text.now ≡ found.0.now ∷ parts_at mark found.1.now) }
    ensures shorter { IfSome result (λ found. length found.1.now < length text.now) }
{
    let place = place_of(text, mark)?;
    Some((&text[..place], &text[place + 1..]))
}

/// The fields of a line. There is always one.
pub fn fields(alloc: Global, line: &[u8]) -> Result<Vec<&[u8]>, NoMemory>
    ensures { IfOk result (λ fields. texts fields.items ≡ fields_of line.now) }
{
    let mut fields = Vec::new(alloc);
    let mut rest = line;
    while let Some((field, after)) = cut(rest, b' ') {
        fields.push(field)?;
        rest = after;
    }
    fields.push(rest)?;
    Ok(fields)
}
