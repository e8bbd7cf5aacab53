//! Plans and their texts. Each law is a function with nothing to do.
ghost use Rattle.std.specs.Prelude.{◌≡◌, ℕ, List};
ghost use Rattle.quorum_rules.specs.Limits.{IsOfScripts};
ghost use Rattle.line_forms.specs.Texts.{IsFaultless};
ghost use Rattle.plan_words.specs.declared.plan.Plan.{Plan};
ghost use Rattle.plan_words.specs.Plans.{Fits};
ghost use Rattle.plan_text.specs.Plans.{Spells, plan_script, plan_text};

/// A text that spells a plan that fits has no fault, and spells no other. Each plan of a cluster that a script can describe has
/// such a text.
pub fn plans_are_spelled()
    ensures accepted { (text : List ℕ) (p : Plan) → Fits p → Spells text p
        → IsFaultless plan_script text }
    ensures one { (text : List ℕ) (p q : Plan) → Fits p → Fits q → Spells text p → Spells text q
        → p ≡ q }
    ensures text { (p : Plan) → IsOfScripts p.config → Spells (plan_text p) p }
{}
