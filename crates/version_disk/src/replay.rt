ghost use Rattle.std.specs.Prelude.{◌≡◌, ◌<◌, ◌+◌, ◌*◌, true, [], ◌∷◌, not, length, Some, None, IfOk, IfErr, OnOk, IfSome, IfNone};
ghost use Rattle.slot_disk.specs.Bodies.{bodies};
ghost use Rattle.slot_disk.specs.Slots.{body_len, slot_of};
ghost use Rattle.version_disk.specs.Held.{after_slot, held, is_bad, first_bad};
ghost use Rattle.version_disk.specs.Faults.{IfSlot, IfFault};

use crate::fault::OpenFault;
use lists::NoMemory;
use node_core::Node;
use quorum_rules::Config;
use slot_disk::body::{block_in, body_size, read_stamp, read_version};
use std::alloc::Global;
use wire_forms::{Ask, Reply, Request};

/// The body of the first slot, if it is open, and what stands behind it.
pub(crate) fn first_body(bytes: &[u8], body: usize) -> Option<(&[u8], &[u8])>
    ensures some { IfSome result (λ r. bodies body bytes.now ≡ r.0.now ∷ bodies body r.1.now) }
    ensures long { IfSome result (λ r. length r.0.now ≡ body) }
    ensures shorter { IfSome result (λ r. length r.1.now < length bytes.now) }
    ensures none { IfNone result (bodies body bytes.now ≡ []) }
{
    let Some((gate, rest)) = bytes.split_first() else {
        return None;
    };
    if *gate != 1 || rest.len() <= body {
        return None;
    }
    Some(rest.split_at(body))
}

/// Plays the slot of a body, and answers whether it is a good one. A bad one changes nothing.
pub(crate) fn play(
    alloc: Global,
    config: &Config,
    node: &mut Node,
    body: &[u8],
) -> Result<bool, NoMemory>
    requires config { config.now ≡ node.old.config }
    requires long { length body.now ≡ body_len config.now }
    ensures good { IfOk result (λ good.
        good ≡ not (is_bad node.old.config node.old.number (slot_of config.now.n body.now))) }
    ensures played { IfOk result (λ good. good ≡ true
        → node.new ≡ after_slot node.old (slot_of config.now.n body.now)) }
    ensures config { node.new.config ≡ node.old.config }
    ensures number { node.new.number ≡ node.old.number }
{
    let block = block_in(body);
    if body[0] == 0 {
        let version = read_version(alloc, config.n(), node.number(), body)?;
        let reply = node.handle(&Ask {
            block,
            request: Request::Write(version),
        })?;
        return Ok(!matches!(reply, Reply::Refused(_)));
    }
    if body[0] == 1 && block < config.blocks() {
        node.prune(block, &read_stamp(body));
        return Ok(true);
    }
    Ok(false)
}

/// Plays the open slots of a disk's bytes, from the first versions on, and answers how many there are.
pub(crate) fn replay(
    alloc: Global,
    config: &Config,
    number: u8,
    bytes: &[u8],
) -> Result<(Node, u64), OpenFault>
    requires { number < config.now.n }
    ensures node { IfOk result (λ r. r.0 ≡ held config.now number bytes.now) }
    ensures count { IfOk result (λ r. r.1 ≡ length (bodies (body_len config.now) bytes.now)) }
    ensures good { OnOk result (first_bad config.now number bytes.now ≡ None) }
    ensures damaged { IfErr result
        (IfSlot (λ slot. first_bad config.now number bytes.now ≡ Some slot)) }
    ensures no_fault { IfErr result (IfFault ⊥) }
{
    let body = body_size(config) as usize;
    let mut node = Node::new(alloc, config, number)?;
    let mut count = 0;
    let mut rest = bytes;
    while let Some((first, behind)) = first_body(rest, body) {
        if !play(alloc, config, &mut node, first)? {
            return Err(OpenFault::Damaged { slot: count });
        }
        count += 1;
        rest = behind;
    }
    Ok((node, count))
}
