//! What a lying client sends.
ghost use Rattle.std.specs.Prelude.{◌≡◌, ◌++◌, ◌-◌, ◌≤◌, IfOk, OnOk, length, map};
ghost use Rattle.std.specs.List.{AllByRecursion, flat_map, range_with_len};
ghost use Rattle.protocol.specs.Instance.{setting};
ghost use Rattle.protocol.specs.Lines.{sound_ask as sound_asked, mix_ask as mix_asked};
ghost use Rattle.plan_words.specs.Plans.{IsFault};
ghost use Rattle.plan_followed.specs.Asked.{messages, messages_by};

use cross_sum::Bytes;
use liar_rules::{mix_ask, sound_ask};
use lists::NoMemory;
use plan_words::Fault;
use quorum_rules::Config;
use std::alloc::Global;
use wire_forms::Mail;

/// The messages of a lying client, in the order in which it sends them.
pub fn mail_of(
    alloc: Global,
    config: &Config,
    client: u32,
    rules: &[Fault],
) -> Result<Mail, NoMemory>
    requires { AllByRecursion (IsFault config.now) rules.now }
    ensures { IfOk result (λ mail. mail ≡ messages config.now rules.now client) }
{
    let mut mail = Mail::new(alloc);
    for rule in rules {
        add_messages(alloc, &mut mail, config, client, rule)?;
    }
    Ok(mail)
}

/// Adds the messages of one rule.
fn add_messages(
    alloc: Global,
    mail: &mut Mail,
    config: &Config,
    client: u32,
    rule: &Fault,
) -> Result<(), NoMemory>
    requires { IsFault config.now rule.now }
    ensures { OnOk result (mail.new ≡ mail.old ++ messages_by config.now client rule.now) }
{
    match rule {
        Fault::LiarSound {
            client: c,
            block,
            time,
            value,
            count,
        } if *c == client => {
            add_sound(alloc, mail, config, client, *block, *time, value, *count)
        }
        Fault::LiarMix {
            client: c,
            block,
            time,
            value,
            other,
            count,
        } if *c == client => {
            add_mixed(
                alloc, mail, config, client, *block, *time, value, other, *count,
            )
        }
        Fault::LiarFlood {
            client: c,
            block,
            time,
            value,
            other,
            count,
        } if *c == client => {
            add_flood(
                alloc, mail, config, client, *block, *time, value, other, *count,
            )
        }
        _ => Ok(()),
    }
}

/// Adds sound writes to the first nodes.
fn add_sound(
    alloc: Global,
    mail: &mut Mail,
    config: &Config,
    client: u32,
    block: u32,
    time: u64,
    value: &Bytes,
    count: u64,
) -> Result<(), NoMemory>
    requires size { length value.now ≡ config.now.size }
    requires count { count ≤ config.now.n }
    ensures { OnOk result (mail.new ≡ mail.old
        ++ map (λ i. sound_asked (setting config.now) client i block time value.now)
        (range_with_len 0 count)) }
{
    let few = count <= u64::from(config.n());
    prove!(few);
    for node in 0..count {
        mail.push(sound_ask(alloc, config, client, node as u8, block, time, value)?)?;
    }
    Ok(())
}

/// Adds mixed writes to the first nodes.
fn add_mixed(
    alloc: Global,
    mail: &mut Mail,
    config: &Config,
    client: u32,
    block: u32,
    time: u64,
    value: &Bytes,
    other: &Bytes,
    count: u64,
) -> Result<(), NoMemory>
    requires size { length value.now ≡ config.now.size }
    requires other_size { length other.now ≡ config.now.size }
    requires count { count ≤ config.now.n }
    ensures { OnOk result (mail.new ≡ mail.old
        ++ map (λ i. mix_asked (setting config.now) client i block time value.now other.now)
        (range_with_len 0 count)) }
{
    let few = count <= u64::from(config.n());
    prove!(few);
    for node in 0..count {
        mail.push(mix_ask(alloc, config, client, node as u8, block, time, value, other)?)?;
    }
    Ok(())
}

/// Adds mixed writes to all nodes, again and again, whose times fall by one.
fn add_flood(
    alloc: Global,
    mail: &mut Mail,
    config: &Config,
    client: u32,
    block: u32,
    time: u64,
    value: &Bytes,
    other: &Bytes,
    count: u64,
) -> Result<(), NoMemory>
    requires size { length value.now ≡ config.now.size }
    requires other_size { length other.now ≡ config.now.size }
    requires count { count ≤ time }
    ensures { OnOk result (mail.new ≡ mail.old ++ flat_map
        (λ k. map
        (λ i. mix_asked (setting config.now) client i block (time - k) value.now other.now)
        (range_with_len 0 config.now.n)) (range_with_len 0 count)) }
{
    let nodes = u64::from(config.n());
    for fall in 0..count {
        add_mixed(
            alloc,
            mail,
            config,
            client,
            block,
            time - fall,
            value,
            other,
            nodes,
        )?;
    }
    Ok(())
}
