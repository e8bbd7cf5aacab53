//! What a lying node answers.
ghost use Rattle.std.specs.Prelude.{◌≡◌, ◌↔◌, ◌<◌, IfOk, IsNone, Some};
ghost use Rattle.wire_forms.specs.Firsts.{first_of};
ghost use Rattle.protocol.specs.Instance.{setting};
ghost use Rattle.protocol.specs.Lines.{false_reply, flipped};
ghost use Rattle.protocol.specs.Seen.{as_version};
ghost use Rattle.protocol.specs.Messages.{IsAsk};
ghost use Rattle.liar_rules.specs.Answers.{answer_to};

use crate::versions::{damaged, version};
use cross_sum::Bytes;
use lists::{Copied, NoMemory};
use quorum_rules::Config;
use stamp_order::Bound;
use std::alloc::Global;
use wire_forms::{Body, First, Message, Reply, Request, Rule, Version};

/// What a node that lies by a rule answers to an ask; nothing where the rule is `Silent`.
///
/// The node is one of the cluster's, and `first` the cluster's first version.
pub fn false_answer(
    alloc: Global,
    config: &Config,
    first: &First,
    rule: Rule,
    ask: &Message,
) -> Result<Option<Message>, NoMemory>
    requires asked { IsAsk ask.now.body }
    requires node { ask.now.node < config.now.n }
    requires first { first.now ≡ first_of config.now }
    ensures answer { IfOk result (λ answer.
        answer ≡ answer_to config.now rule ask.now ask.now.body) }
    ensures silent { IfOk result (λ answer. IsNone answer ↔ (rule ≡ Rule.Silent)) }
{
    let Body::Ask(asked) = &ask.body else {
        return Ok(None);
    };
    let Some(reply) = reply(alloc, config, first, rule, ask.node, &asked.request)? else {
        return Ok(None);
    };
    Ok(Some(Message {
        client: ask.client,
        node: ask.node,
        tag: ask.tag,
        body: Body::Answer(reply),
    }))
}

/// What the rule has the node reply.
fn reply(
    alloc: Global,
    config: &Config,
    first: &First,
    rule: Rule,
    node: u8,
    request: &Request,
) -> Result<Option<Reply>, NoMemory>
    requires node { node < config.now.n }
    requires first { first.now ≡ first_of config.now }
    ensures { IfOk result (λ reply.
        reply ≡ false_reply (setting config.now) rule node request.now) }
{
    let is_node = u32::from(node) < config.n();
    prove!(is_node);
    match (rule, request) {
        (Rule::Silent, _) => Ok(None),
        (Rule::Old | Rule::Top | Rule::Bad, Request::Write(_)) => Ok(Some(Reply::Ack)),
        (Rule::Old | Rule::Bad, Request::Time) => Ok(Some(Reply::TimeIs(0))),
        (Rule::Top, Request::Time) => Ok(Some(Reply::TimeIs(u64::MAX))),
        (Rule::Old, Request::Read(_)) => Ok(Some(Reply::Found(kept(first)?))),
        (Rule::Bad, Request::Read(_)) => Ok(Some(Reply::Found(kept_damaged(alloc, first)?))),
        (Rule::Top, Request::Read(bound)) => Ok(Some(top_in(alloc, config, node, bound)?)),
    }
}

/// The first version, as a node keeps it.
fn kept(first: &First) -> Result<Version, NoMemory>
    ensures { IfOk result (λ v. v ≡ as_version first.now) }
{
    Ok(Version {
        stamp: first.stamp,
        sum: first.sum.copy()?,
        fragment: first.fragment.copy()?,
    })
}

/// The first version, with a damaged fragment.
fn kept_damaged(alloc: Global, first: &First) -> Result<Version, NoMemory>
    ensures { IfOk result (λ v.
        v ≡ record {
          stamp = first.now.stamp;
          sum = first.now.sum;
          fragment = flipped
              first.now.fragment;
        }) }
{
    Ok(Version {
        stamp: first.stamp,
        sum: first.sum.copy()?,
        fragment: damaged(alloc, &first.fragment)?,
    })
}

/// The sound version of the block of all 0xff bytes with the greatest time, where the bound has it.
fn top_in(alloc: Global, config: &Config, node: u8, bound: &Bound) -> Result<Reply, NoMemory>
    requires { node < config.now.n }
    ensures { IfOk result (λ reply.
        Some reply ≡ false_reply (setting config.now) Rule.Top node (Request.Read bound.now)) }
{
    let block = Bytes::shared(vec![in alloc; 0xff; config.size() as usize]?)?;
    let version = version(alloc, config, u64::MAX, u32::from(node), node, &block)?;
    if bound.has(&version.stamp) {
        Ok(Reply::Found(version))
    } else {
        Ok(Reply::Nothing)
    }
}
