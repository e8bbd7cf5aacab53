//! Laws of sessions, each the contract of a function that does nothing.
ghost use Rattle.std.specs.Prelude.{◌≡◌, ℕ, List, Result};
ghost use Rattle.nbd_front.specs.declared.ending.SessionEnd.{SessionEnd};
ghost use Rattle.store_front.specs.Sessions.{EndsSo, SessionsAreSteps, SessionsAreLives};

use disk_model::Disk;

/// Each input has one end: after its whole requests it is over or goes on with one that leaves, or four bytes stand there that begin
/// none, or a part of one.
pub fn each_input_has_one_end()
    ensures some { (input : List ℕ) → (end : Result Unit SessionEnd) × EndsSo end input }
    ensures one { (input : List ℕ) (a b : Result Unit SessionEnd)
        → EndsSo a input → EndsSo b input → a ≡ b }
{}

/// A session before whose rounds the store is only looked after is turns of the store's life: what is done for its rounds and between
/// them, in order, over nodes that go on on other disks, or are taken out. So what it told is linearizable as the life is, over all
/// sessions and crashes, and the replies are made of that.
pub fn sessions_are_lives<D: Disk>()
    ensures steps { SessionsAreSteps D.pending D.seen D.most D.moment D.left_since }
    ensures lives { SessionsAreLives D.pending D.seen D.most D.moment D.left_since }
{
    store_device::laws::sessions_are_lives::<D>();
}
