ghost use Rattle.std.specs.Prelude.{◌≡◌, ◌<◌, ◌-◌, ◌+◌, ◌^◌, map, replicate, slice_set, IfOk, OnOk, OnErr};
ghost use Rattle.quorum_rules.specs.Limits.{wait_of};
ghost use Rattle.std.specs.List.{All};
ghost use Rattle.protocol.specs.Setting.{IsBlock};
ghost use Rattle.protocol.specs.Instance.{setting};
ghost use Rattle.node_device.specs.Held.{held_at, held_of, version_of, unwritten, rewritten};
ghost use Rattle.node_device.specs.Devices.{IsReady, HasDone, pruned_at};

use crate::asking::ask;
use client_core::{Client, Heard, Outcome};
use cross_sum::Bytes;
use lists::NoMemory;
use node_core::Node;
use quorum_rules::Config;
use stamp_order::{Bound, Stamp};
use std::alloc::Global;
use std::marker::Model;
use wire_forms::{Ask, Op, Reply, Request, Version};

/// The number of the one client.
const CLIENT: u32 = 1;

/// Blocks that are kept by nodes in the same process, and read and written by one client, one operation after the other.
/// Contracts see the cluster's numbers, each block with the time of its latest write, the client's life and how many
/// operations it has. An operation that is cut off for want of memory leaves nothing that is of use: so reads and writes take the
/// device, and give it back where they end.
#[derive(Drop)]
pub struct NodeDevice {
    config: Config,
    nodes: Vec<Node>,
    client: Client,
}

impl Model for NodeDevice {
    ghost use Rattle.node_device.specs.Held.{held_of};
    ghost use Rattle.node_device.specs.Devices.{SeenDevice, IsReady};

    ghost Value = { SeenDevice };

    ghost view = { λ d. record {
      config = d.config;
      held = held_of d.config d.nodes.items;
      life = d.client.seen.life;
      started = d.client.seen.started;
    } };

    ghost invariant = { λ d. IsReady d.config d.nodes.items d.client };
}

impl NodeDevice {
    /// A device whose blocks were never written.
    pub fn new(alloc: Global, config: &Config) -> Result<NodeDevice, NoMemory>
        ensures { IfOk result (λ d.
            d ≡ record {
              config = config.now;
              held = replicate config.now.blocks (unwritten config.now);
              life = 0;
              started = 0;
            }) }
    {
        let mut nodes = Vec::new(alloc);
        for number in 0..config.n() as u8 {
            nodes.push(Node::new(alloc, config, number)?)?;
        }
        Ok(NodeDevice {
            config: *config,
            nodes,
            client: Client::new(alloc, config, CLIENT)?,
        })
    }

    /// The cluster's numbers.
    pub fn config(&self) -> &Config
        ensures { result.now ≡ self.now.config }
    {
        &self.config
    }

    /// Reads a block.
    pub fn read(self, block: u32) -> Result<(NodeDevice, Bytes), NoMemory>
        requires block { block < self.config.blocks }
        requires fresh { self.started < 2 ^ 32 - 1 }
        ensures value { IfOk result (λ done. done.1 ≡ (held_at self.config self.held block).value) }
        ensures device { IfOk result (λ done. done.0
            ≡ record self { started = self.started + 1 }) }
    {
        let NodeDevice {
            config,
            mut nodes,
            mut client,
        } = self;
        let value = read(&mut nodes, &mut client, block)?;
        let device = NodeDevice {
            config,
            nodes,
            client,
        };
        Ok((device, value))
    }

    /// Writes a block.
    pub fn write(self, block: u32, value: Bytes) -> Result<NodeDevice, NoMemory>
        requires block { block < self.config.blocks }
        requires value { IsBlock (setting self.config) value }
        requires fresh { self.started < 2 ^ 32 - 1 }
        requires time { (held_at self.config self.held block).time < 2 ^ 64 - 1 }
        ensures { IfOk result (λ device. device ≡ record self {
          held = slice_set self.held block (rewritten (held_at self.config self.held block) value);
          started = self.started + 1;
        }) }
    {
        let NodeDevice {
            config,
            mut nodes,
            mut client,
        } = self;
        write(&mut nodes, &mut client, block, value)?;
        Ok(NodeDevice {
            config,
            nodes,
            client,
        })
    }

    /// Puts a client of a later life in the place of the present one.
    pub fn renew(&mut self, alloc: Global, life: u32) -> Result<(), NoMemory>
        ensures ok { OnOk result (self.new ≡ record self.old { life = life; started = 0 }) }
        ensures err { OnErr result (self.new ≡ self.old) }
    {
        self.client = Client::again(alloc, &self.config, CLIENT, life)?;
        Ok(())
    }

    /// The version that a node which is asked finds of a block: that of the block's latest write.
    pub fn held(&self, node: u8, block: u32) -> Result<Version, NoMemory>
        requires node { node < wait_of self.now.config }
        requires block { block < self.now.config.blocks }
        ensures { IfOk result (λ v. v ≡ version_of self.now.config node
            (held_at self.now.config self.now.held block)) }
    {
        let all = Ask {
            block,
            request: Request::Read(Bound::All),
        };
        match self.nodes[usize::from(node)].reply_to(&all)? {
            Reply::Found(version) => Ok(version),
            _ => unreachable!(),
        }
    }
}

/// Reads a block, and prunes it by the stamp of what was read.
fn read(nodes: &mut Vec<Node>, client: &mut Client, block: u32) -> Result<Bytes, NoMemory>
    requires ready { IsReady client.old.config nodes.old.items client.old }
    requires block { block < client.old.config.blocks }
    requires fresh { client.old.seen.started < 2 ^ 32 - 1 }
    ensures value { IfOk result (λ value. value
        ≡ (held_at client.old.config (held_of client.old.config nodes.old.items) block).value) }
    ensures ok { OnOk result (HasDone client.old client.new nodes.new.items
        (held_of client.old.config nodes.old.items)) }
{
    let mail = client.start(&Op::Read { block })?;
    let Heard::Ended(outcome) = ask(nodes, client, &mail)? else {
        unreachable!()
    };
    let Outcome::Gave { stamp, value, .. } = outcome else {
        unreachable!()
    };
    prune(nodes, block, &stamp);
    Ok(value)
}

/// Writes a block, and prunes it by the stamp of the write.
fn write(
    nodes: &mut Vec<Node>,
    client: &mut Client,
    block: u32,
    value: Bytes,
) -> Result<(), NoMemory>
    requires ready { IsReady client.old.config nodes.old.items client.old }
    requires block { block < client.old.config.blocks }
    requires value { IsBlock (setting client.old.config) value }
    requires fresh { client.old.seen.started < 2 ^ 32 - 1 }
    requires time { let held = held_of client.old.config nodes.old.items in
        (held_at client.old.config held block).time < 2 ^ 64 - 1 }
    ensures ok { OnOk result (let held = held_of client.old.config nodes.old.items in
        HasDone client.old client.new nodes.new.items
        (slice_set held block (rewritten (held_at client.old.config held block) value))) }
{
    let mail = client.start(&Op::Write { block, value })?;
    let Heard::Send(mail) = ask(nodes, client, &mail)? else {
        unreachable!()
    };
    let Heard::Ended(outcome) = ask(nodes, client, &mail)? else {
        unreachable!()
    };
    let Outcome::Wrote(stamp) = outcome else {
        unreachable!()
    };
    prune(nodes, block, &stamp);
    Ok(())
}

/// Every node prunes the block by the stamp.
fn prune(nodes: &mut Vec<Node>, block: u32, stamp: &Stamp)
    requires { All (λ node. block < node.config.blocks) nodes.old.items }
    ensures { nodes.new.items ≡ map (pruned_at block stamp.now) nodes.old.items }
{
    for node in nodes.iter_mut() {
        node.prune(block, stamp);
    }
}
