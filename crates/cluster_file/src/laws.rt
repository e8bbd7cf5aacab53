//! What is printed reads back. The law is a function with nothing to do.
ghost use Rattle.std.specs.Prelude.{◌≡◌};
ghost use Rattle.cluster_file.specs.Texts.{IsMembership, text_of};
ghost use Rattle.cluster_file.specs.declared.membership.Membership.{Membership};

/// No two memberships have one text.
pub fn texts_differ()
    ensures { (m other : Membership) → IsMembership m → IsMembership other
        → text_of m ≡ text_of other → m ≡ other }
{}
