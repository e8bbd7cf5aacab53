//! Which journals can be merged. A law is a function with nothing to do.

ghost use Rattle.std.specs.Prelude.{◌≤◌, length};
ghost use Rattle.quorum_rules.specs.Limits.{IsValid};
ghost use Rattle.wire_forms.specs.Liars.{AreLiars};
ghost use Rattle.journals.specs.declared.whole.Journals.{Journals};
ghost use Rattle.journals.specs.Journals.{IsKept, PairsAgree};
ghost use Rattle.merge_trace.specs.RunSteps.{AllFitting};

/// What `merge` asks of nodes and lines, journals have that are kept and agree in pairs.
pub fn kept_journals()
    ensures nodes { (j : Journals) → IsValid j.config → IsKept j → length j.nodes ≤ 256 }
    ensures fits { (j : Journals) → IsValid j.config → AreLiars j.config j.liars → IsKept j
        → PairsAgree j → AllFitting j }
{
    journals::laws::fitting_lines();
}
