ghost use Rattle.std.specs.Prelude.{◌≡◌, ◌^◌, [], ◌∷◌, codes, IfSome, IfNone};
ghost use Rattle.text_lines.specs.Fields.{number_of};
ghost use Rattle.command_texts.specs.Words.{texts, IsNbd, AreOfNbd};

use quorum_rules::Config;
use text_lines::number_u32;

/// The configuration that the words of `nbd` spell, if they do.
pub fn nbd_of(words: &[String]) -> Option<Config>
    ensures some { IfSome result (λ config. IsNbd (texts words.now) config) }
    ensures none { IfNone result (AreOfNbd (texts words.now) → ⊥) }
{
    match words {
        [word, n, t, b, qc, m, size, blocks] if word.as_str() == "nbd" => config_of(
            n.as_str(),
            t.as_str(),
            b.as_str(),
            qc.as_str(),
            m.as_str(),
            size.as_str(),
            blocks.as_str(),
        ),
        _ => None,
    }
}

// The configuration that these words spell after the first.
fn config_of(
    n: &str,
    t: &str,
    b: &str,
    qc: &str,
    m: &str,
    size: &str,
    blocks: &str,
) -> Option<Config>
    ensures some { IfSome result (λ config. IsNbd (codes "nbd" ∷ n.now ∷ t.now ∷ b.now ∷ qc.now
        ∷ m.now ∷ size.now ∷ blocks.now ∷ []) config) }
    ensures none { IfNone result (AreOfNbd (codes "nbd" ∷ n.now ∷ t.now ∷ b.now ∷ qc.now
        ∷ m.now ∷ size.now ∷ blocks.now ∷ []) → ⊥) }
{
    let n = number_in(n)?;
    let t = number_in(t)?;
    let b = number_in(b)?;
    let qc = number_in(qc)?;
    let m = number_in(m)?;
    let size = number_in(size)?;
    let blocks = number_in(blocks)?;
    match Config::new(n, t, b, qc, m, size, blocks) {
        Ok(config) => Some(config),
        Err(_) => None,
    }
}

// The number that a word spells, if it does.
fn number_in(word: &str) -> Option<u32>
    ensures { result ≡ number_of (2 ^ 32) word.now }
{
    number_u32(word.as_bytes())
}
