//! Which node a client asks next.
ghost use Rattle.std.specs.Prelude.{◌≡◌, ◌<◌, ◌≤◌, IfSome, Some};
ghost use Rattle.client_desks.specs.Desks.{CanCall, IsUp, task_at};
ghost use Rattle.plan_followed.specs.Clients.{IsNext};
ghost use Rattle.client_duties.specs.ClientDuty.{turn_at};

use client_desks::Desk;
use journals::{DeskAct, DeskEntry};

/// The first node that hasn't answered the phase, of all nodes in ascending order from the client's turn on, going round.
pub fn next_node(desk: &Desk, nodes: u32) -> Option<u8>
    requires nodes { nodes ≡ desk.now.config.n }
    requires some { 0 < nodes }
    requires few { nodes ≤ 256 }
    requires up { IsUp desk.now }
    requires busy { Rattle.std.specs.Prelude.IsSome (task_at desk.now) }
    ensures node { IfSome result (λ node. node < desk.now.config.n) }
    ensures can { IfSome result (λ node. CanCall desk.now node) }
    ensures next { IfSome result (λ node.
        IsNext desk.now.config.n (task_at desk.now) (turn_at desk.now) node) }
{
    if desk.phase() == u64::MAX {
        return None;
    }
    let from = turn(desk, nodes);
    for passed in 0..nodes {
        let node = ((from + passed) % nodes) as u8;
        if desk.can_call(node) {
            return Some(node);
        }
    }
    None
}

/// Where the client's turn is: after the node that it asked last, if that was in this phase of this operation, else at its own.
fn turn(desk: &Desk, nodes: u32) -> u32
    requires nodes { nodes ≡ desk.now.config.n }
    requires some { 0 < nodes }
    requires few { nodes ≤ 256 }
    ensures turn { result ≡ turn_at desk.now }
    ensures small { result ≤ 256 }
{
    if let Some(
        DeskEntry {
            number: _,
            act: DeskAct::Call { ask, .. },
        },
    ) = desk.journal().last()
    {
        if ask.tag.op == desk.ops() && ask.tag.phase == desk.phase() {
            return u32::from(ask.node) + 1;
        }
    }
    desk.id() % nodes
}
