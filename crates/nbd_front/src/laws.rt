//! Laws of sessions, each the contract of a function that does nothing.
ghost use Rattle.std.specs.Prelude.{◌≡◌, ◌≤◌, ℕ, List, Result};
ghost use Rattle.nbd_front.specs.declared.ending.Served.{Served};
ghost use Rattle.nbd_front.specs.declared.ending.SessionEnd.{SessionEnd};
ghost use Rattle.nbd_front.specs.Sessions.{most_requests, EndsSo};

/// Each input has one end: after its whole requests it is over or goes on with one that leaves, or four bytes stand there that begin
/// none, or a part of one, or it has more than a session may have.
pub fn each_input_has_one_end()
    ensures some { (count place : ℕ) (input : List ℕ) → count ≤ most_requests
        → (end : Result Served SessionEnd) × EndsSo end count place input }
    ensures one { (count place : ℕ) (input : List ℕ) (a b : Result Served SessionEnd)
        → EndsSo a count place input → EndsSo b count place input → a ≡ b }
{}
