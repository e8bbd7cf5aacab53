//! What goes wrong between a client and nodes.
ghost use Rattle.std.specs.Prelude.{◌≡◌, IfOk, map};
ghost use Rattle.std.specs.List.{IsDistinct, range_with_len};
ghost use Rattle.plan_words.specs.Named.{dropped_pairs, held_pairs, pair_eq};
ghost use Rattle.plan_followed.specs.Asked.{client_crash, drops, drops_by as drops_in, holds, holds_by as holds_in};
ghost use Rattle.client_duties.specs.Tasks.{ways_of as ways_asked};

use crate::task::Ways;
use lists::{ItemList, NoMemory};
use plan_words::Fault;
use quorum_rules::Config;
use std::alloc::Global;

/// What goes wrong with the client's asks, node by node.
pub fn ways_of(
    alloc: Global,
    config: &Config,
    client: u32,
    rules: &[Fault],
) -> Result<ItemList<Ways>, NoMemory>
    requires drops { IsDistinct pair_eq (dropped_pairs rules.now) }
    requires holds { IsDistinct pair_eq (held_pairs rules.now) }
    ensures { IfOk result (λ ways.
        ways ≡ map (ways_asked rules.now client) (range_with_len 0 config.now.n)) }
{
    let mut ways = ItemList::new(alloc);
    for node in 0..config.n() {
        ways.push(Ways {
            drops: drops_to(client, node as u8, rules),
            holds: holds_to(client, node as u8, rules),
        })?;
    }
    Ok(ways)
}

/// How many of the client's asks to the node are lost: no two rules say so of the same two.
fn drops_to(client: u32, node: u8, rules: &[Fault]) -> u64
    requires once { IsDistinct pair_eq (dropped_pairs rules.now) }
    ensures { result ≡ drops rules.now client node }
{
    for rule in rules {
        let count = drops_by(rule, client, node);
        if count > 0 {
            return count;
        }
    }
    0
}

/// How many of them are lost by one rule.
fn drops_by(rule: &Fault, client: u32, node: u8) -> u64
    ensures { result ≡ drops_in client node rule.now }
{
    match rule {
        Fault::Lose {
            client: c,
            node: i,
            count,
        } if *c == client && *i == node => *count,
        _ => 0,
    }
}

/// How many of the client's asks to the node are held back: no two rules say so of the same two.
fn holds_to(client: u32, node: u8, rules: &[Fault]) -> u64
    requires once { IsDistinct pair_eq (held_pairs rules.now) }
    ensures { result ≡ holds rules.now client node }
{
    for rule in rules {
        let count = holds_by(rule, client, node);
        if count > 0 {
            return count;
        }
    }
    0
}

/// How many of them are held back by one rule.
fn holds_by(rule: &Fault, client: u32, node: u8) -> u64
    ensures { result ≡ holds_in client node rule.now }
{
    match rule {
        Fault::Hold {
            client: c,
            node: i,
            count,
        } if *c == client && *i == node => *count,
        _ => 0,
    }
}

/// After how many asks the client crashes, if it is to crash.
pub fn client_crash_of(client: u32, rules: &[Fault]) -> Option<u64>
    ensures { result ≡ client_crash rules.now client }
{
    for rule in rules {
        if let Fault::CrashClient { client: c, count } = rule {
            if *c == client {
                return Some(*count);
            }
        }
    }
    None
}
