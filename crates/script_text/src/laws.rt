//! Texts that are printed are accepted. Each law is a function with nothing to do.
ghost use Rattle.std.specs.Prelude.{◌≡◌, ℕ, List};
ghost use Rattle.event_lines.specs.declared.line.ReplayLine.{ReplayLine};
ghost use Rattle.quorum_rules.specs.Limits.{Numbers};
ghost use Rattle.wire_forms.specs.Liars.{Liars};
ghost use Rattle.line_forms.specs.Texts.{IsFaultless};
ghost use Rattle.script_text.specs.Replays.{IsReplay, Spells, replay_script, replay_text};
ghost use Rattle.script_text.specs.Sum.{IsSum, sum_text, sum_script};

/// The text of a valid configuration that a script can describe, and of a value of its blocks' length, has no fault, and is the
/// text of no other two.
pub fn sums_have_one_text()
    ensures accepted { (c : Numbers) (v : List ℕ) → IsSum c v
        → IsFaultless sum_script (sum_text c v) }
    ensures one { (c d : Numbers) (v w : List ℕ) → IsSum c v → IsSum d w
        → sum_text c v ≡ sum_text d w → (c ≡ d) × (v ≡ w) }
{}

/// A text that spells a replay has no fault, and spells no other. Each replay has such a text.
pub fn replays_are_spelled()
    ensures accepted { (text : List ℕ) (c : Numbers) (l : Liars) (es : List ReplayLine)
        → IsReplay c l es → Spells text c l es → IsFaultless replay_script text }
    ensures one { (text : List ℕ) (c d : Numbers) (l m : Liars) (es fs : List ReplayLine)
        → IsReplay c l es → IsReplay d m fs → Spells text c l es → Spells text d m fs → (c ≡ d)
        × (l ≡ m) × (es ≡ fs) }
    ensures text { (c : Numbers) (l : Liars) (es : List ReplayLine) → IsReplay c l es
        → Spells (replay_text c l es) c l es }
{}
