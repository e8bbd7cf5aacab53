ghost use Rattle.std.specs.Prelude.{◌≡◌, ◌∷◌, [], ◌<◌, length, IfOk, IfErr};
ghost use Rattle.text_lines.specs.Lines.{parts_of};
ghost use Rattle.line_forms.specs.Texts.{ended};

use crate::cause::Cause;
use crate::refusal::ScriptFault;
use text_lines::cut;

/// The next line of a text that must have one, and what stands after it.
///
/// Where nothing is left the cause is `missing`, and where no newline is left it is `Cut`.
pub fn needed_line(text: &[u8], number: u64, missing: Cause) -> Result<(&[u8], &[u8]), ScriptFault>
    ensures parts { IfOk result (λ found. parts_of text.now ≡ found.0.now ∷ parts_of found.1.now) }
    ensures shorter { IfOk result (λ found. length found.1.now < length text.now) }
    ensures fault { IfErr result (λ e.
        e ≡ record { line = number; cause = ended missing text.now }) }
    ensures ends { IfErr result (λ _. parts_of text.now ≡ text.now ∷ []) }
{
    match cut(text, b'\n') {
        Some(found) => Ok(found),
        None if text.is_empty() => Err(ScriptFault {
            line: number,
            cause: missing,
        }),
        None => Err(ScriptFault {
            line: number,
            cause: Cause::Cut,
        }),
    }
}
