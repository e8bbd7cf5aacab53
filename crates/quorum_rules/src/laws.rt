//! What holds of the rules, whatever the numbers.

ghost use Rattle.std.specs.Prelude.{◌≡◌, ◌↔◌, None};
ghost use Rattle.quorum_rules.specs.Limits.{Numbers, IsValid};
ghost use Rattle.quorum_rules.specs.Faults.{fault};

/// Numbers have no fault exactly where they are valid.
pub fn fault_is_none_where_valid()
    ensures { (c : Numbers) → (fault c ≡ None) ↔ IsValid c }
{}
