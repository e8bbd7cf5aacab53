//! What holds of every kind of text. Each law is a function with nothing to do.
ghost use Rattle.std.specs.Prelude.{◌≡◌, ◌++◌, ℕ, List};
ghost use Rattle.quorum_rules.specs.Limits.{Numbers, IsValid, IsOfScripts};
ghost use Rattle.text_lines.specs.Lines.{fields_of, line_of_fields};
ghost use Rattle.line_forms.specs.Heads.{Body, script, head_lines, head_text, header, cluster_fields, edition_of, numbers_in};
ghost use Rattle.line_forms.specs.Texts.{Grammar, IsFault, IsFaultless, ReadsTo};
ghost use Rattle.line_forms.specs.declared.cause.Cause.{Cause};

/// A text has one fault at most, and none where no line has a cause.
pub fn a_text_has_one_fault()
    ensures one { (g : Grammar) (text : List ℕ) (l m : ℕ) (c d : Cause) → IsFault g text l c
        → IsFault g text m d → (l ≡ m) × (c ≡ d) }
    ensures none { (g : Grammar) (text : List ℕ) (l : ℕ) (c : Cause) → IsFaultless g text
        → IsFault g text l c → ⊥ }
{}

/// The head lines of a valid configuration that a script can describe have no cause, whatever may follow them, and spell its
/// numbers.
pub fn valid_heads_are_accepted()
    ensures read { (body : Body) (c : Numbers) (rest : List ℕ) → IsValid c → IsOfScripts c
        → ReadsTo (script body) (head_text c ++ rest) (head_lines c) rest }
    ensures spelled { (c : Numbers) → IsValid c → IsOfScripts c
        → numbers_in (edition_of (header c.edition))
        (fields_of (line_of_fields (cluster_fields c))) ≡ c }
{}
