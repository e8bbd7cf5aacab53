//! Whether a run of the journals' cluster may have the line of an entry.

ghost use Rattle.std.specs.Prelude.{ℕ, ◌↔◌, IsTrue};
ghost use Rattle.protocol.specs.Messages.{IsFormed, IsFormedRequest, IsFormedReply, IsFormedBody};
ghost use Rattle.protocol.specs.Lines.{FitsLine, start_line};
ghost use Rattle.journals.specs.Journals.{setting_for};
ghost use Rattle.journals.specs.Merging.{line_of};
ghost use Rattle.journals.specs.Steps.Step.{AtNode, AtDesk};

use journals::{DeskAct, Journals, NodeAct};
use wire_forms::{Body, Op, Reply, Request, Version};

/// Whether the line of what a node did fits: a block that is pruned is one of the cluster's.
pub fn fits_node(journals: &Journals, node: u8, act: &NodeAct) -> bool
    ensures { IsTrue result
        ↔ ((k : ℕ) → FitsLine (setting_for journals.now)
        (line_of (setting_for journals.now) k (AtNode node act.now))) }
{
    match act {
        NodeAct::Answered { ask, .. } => {
            form(&ask.body);
            true
        }
        NodeAct::Lied { reply, .. } => {
            form(&reply.body);
            true
        }
        NodeAct::Pruned { block, .. } => *block < journals.config.blocks(),
        _ => true,
    }
}

/// Whether the line of what a client did by itself fits: its operation is one of the cluster's.
pub fn fits_desk(journals: &Journals, client: u32, act: &DeskAct) -> bool
    ensures { IsTrue result
        ↔ ((k : ℕ) → FitsLine (setting_for journals.now)
        (line_of (setting_for journals.now) k (AtDesk client act.now))) }
{
    match act {
        DeskAct::Start { op } => fits_op(journals, op),
        DeskAct::Crash | DeskAct::Call { .. } => true,
    }
}

fn fits_op(journals: &Journals, op: &Op) -> bool
    ensures { IsTrue result
        ↔ ((c : ℕ) → FitsLine (setting_for journals.now) (start_line c op.now)) }
{
    match op {
        Op::Read { block } => *block < journals.config.blocks(),
        Op::Write { block, value } => {
            let _bytes = value.as_slice();
            *block < journals.config.blocks() && value.len() == journals.config.size() as usize
        }
    }
}

/// The types of a message's parts say that it is formed.
fn form(body: &Body)
    ensures { IsFormedBody body.now }
{
    match body {
        Body::Ask(ask) => form_request(&ask.request),
        Body::Answer(reply) => form_reply(reply),
    }
}

fn form_request(request: &Request)
    ensures { IsFormedRequest request.now }
{
    if let Request::Write(version) = request {
        form_version(version);
    }
}

fn form_reply(reply: &Reply)
    ensures { IsFormedReply reply.now }
{
    if let Reply::Found(version) = reply {
        form_version(version);
    }
}

fn form_version(version: &Version)
    ensures { IsFormed version.now }
{
    let _digests = version.sum.hashes();
    let _bytes = version.fragment.as_slice();
}
