//! What lying clients send.
ghost use Rattle.std.specs.Prelude.{◌≡◌, ◌<◌, length, Some, IfOk};
ghost use Rattle.protocol.specs.Instance.{setting};
ghost use Rattle.protocol.specs.Lines.{sound_ask as sound_ask_of, mix_ask as mix_ask_of};
ghost use Rattle.protocol.specs.Count.{collect};
ghost use Rattle.cross_sum.specs.Digest.{digest};
ghost use Rattle.liar_rules.specs.Turns.{turn};

use crate::versions::{fragments, version};
use cross_sum::{Bytes, CrossSum, Shares, sha};
use lists::{Copied, NoMemory};
use quorum_rules::Config;
use stamp_order::Stamp;
use std::alloc::Global;
use wire_forms::{Ask, Body, Message, Request, Tag, Version};

/// A lying client's write of a value under a sound stamp, to one of the cluster's nodes.
pub fn sound_ask(
    alloc: Global,
    config: &Config,
    client: u32,
    node: u8,
    block: u32,
    time: u64,
    value: &Bytes,
) -> Result<Message, NoMemory>
    requires node { node < config.now.n }
    requires size { length value.now ≡ config.now.size }
    ensures { IfOk result (λ m.
        m ≡ sound_ask_of (setting config.now) client node block time value.now) }
{
    let version = version(alloc, config, time, client, node, value)?;
    Ok(write(client, node, block, version))
}

/// A lying client's write to one of the cluster's nodes, of fragments by turns of two values, under one stamp.
pub fn mix_ask(
    alloc: Global,
    config: &Config,
    client: u32,
    node: u8,
    block: u32,
    time: u64,
    value: &Bytes,
    other: &Bytes,
) -> Result<Message, NoMemory>
    requires node { node < config.now.n }
    requires size { length value.now ≡ config.now.size }
    requires other_size { length other.now ≡ config.now.size }
    ensures { IfOk result (λ m.
        m ≡ mix_ask_of (setting config.now) client node block time value.now other.now) }
{
    let even = fragments(alloc, config, value)?;
    let odd = fragments(alloc, config, other)?;
    let sum = sum_by_turns(alloc, &even, &odd)?;
    let stamp = Stamp {
        time,
        client,
        verifier: sum.verifier(),
    };
    let fragment = by_turns(&even, &odd, usize::from(node)).copy()?;
    Ok(write(
        client,
        node,
        block,
        Version {
            stamp,
            sum,
            fragment,
        },
    ))
}

fn write(client: u32, node: u8, block: u32, version: Version) -> Message
    ensures { result ≡ record {
      client = client;
      node = node;
      tag = record { op = 0; phase = 0 };
      body = Body.Ask
          (record { block = block; request = Request.Write version });
    } }
{
    Message {
        client,
        node,
        tag: Tag { op: 0, phase: 0 },
        body: Body::Ask(Ask {
            block,
            request: Request::Write(version),
        }),
    }
}

/// The fragment whose turn it is.
fn by_turns<'a>(even: &'a Shares, odd: &'a Shares, i: usize) -> &'a Bytes
    requires even { i < length even.now }
    requires odd { i < length odd.now }
    ensures { result.now ≡ turn even.now odd.now i }
{
    if i % 2 == 0 {
        &even.as_slice()[i]
    } else {
        &odd.as_slice()[i]
    }
}

/// The cross checksum of the fragments by turns.
fn sum_by_turns(alloc: Global, even: &Shares, odd: &Shares) -> Result<CrossSum, NoMemory>
    requires { length even.now ≡ length odd.now }
    ensures { IfOk result (λ sum.
        sum ≡ collect (length even.now) (λ i. Some (digest (turn even.now odd.now i)))) }
{
    let mut digests = Vec::new(alloc);
    for i in 0..even.len() {
        digests.push(sha(by_turns(even, odd, i).as_slice()))?;
    }
    CrossSum::of_hashes(alloc, digests.as_slice())
}
