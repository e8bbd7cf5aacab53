//! What holds of the texts of a plan's lines. Each law is a function with nothing to do.
ghost use Rattle.std.specs.Prelude.{◌≡◌, ◌<◌, ◌^◌, None};
ghost use Rattle.quorum_rules.specs.Limits.{Numbers, IsValid};
ghost use Rattle.text_lines.specs.Lines.{fields_of, Lacks};
ghost use Rattle.plan_words.specs.declared.line.PlanLine.{PlanLine};
ghost use Rattle.plan_words.specs.Forms.{line_cause};
ghost use Rattle.plan_words.specs.Lines.{IsPlanLine, line_fields, line_text};

/// The fields of a plan's line have nothing wrong, and its text is that of no other line.
pub fn plan_lines_have_one_text()
    ensures accepted { (c : Numbers) (l : PlanLine) → IsValid c → IsPlanLine c l
        → line_cause c (line_fields l) ≡ None }
    ensures one { (c : Numbers) (l k : PlanLine) → c.n < 2 ^ 64 → IsPlanLine c l
        → IsPlanLine c k → line_text l ≡ line_text k → l ≡ k }
{}

/// The text of a plan's line comes apart into its fields, and is one line.
pub fn plan_lines_are_lines()
    ensures apart { (c : Numbers) (l : PlanLine) → c.n < 2 ^ 64 → IsPlanLine c l
        → fields_of (line_text l) ≡ line_fields l }
    ensures no_newline { (c : Numbers) (l : PlanLine) → c.n < 2 ^ 64 → IsPlanLine c l
        → Lacks 10 (line_text l) }
{}
