ghost use Rattle.std.specs.Prelude.{◌≡◌, ◌<◌, length, IfOk};
ghost use Rattle.protocol.specs.Instance.{setting_of};
ghost use Rattle.wire_forms.specs.Liars.{has_number, AreLiars};
ghost use Rattle.quorum_rules.specs.Limits.{IsValid};
ghost use Rattle.protocol.specs.World.{start_world};
ghost use Rattle.world_state.specs.Worlds.{setting_in, world_in};
ghost use Rattle.world_state.specs.Beginnings.{AreNewNodeSlots, AreNewClientSlots};

use crate::block_use::{BlockUse, UNUSED};
use crate::client_slot::ClientSlot;
use crate::node_slot::NodeSlot;
use client_core::Client;
use lists::{ItemList, NoMemory};
use quorum_rules::Config;
use run_words::{Accepted, Record};
use std::alloc::Global;
use std::marker::Model;
use version_disk::StoredNode;
use wire_forms::{First, Liars, Message};

/// All that there is at one moment, whether or not a run leads to it. Contracts see the cluster's numbers, who lies, and the
/// world of the definitions.
#[derive(Drop)]
pub struct State {
    pub(crate) alloc: Global,
    pub(crate) config: Config,
    pub(crate) first: First,
    /// Every message that was ever sent.
    pub(crate) pool: ItemList<Message>,
    pub(crate) node_slots: Vec<NodeSlot>,
    /// By client number, the first of which nobody has.
    pub(crate) client_slots: Vec<ClientSlot>,
    pub(crate) records: ItemList<Record>,
    /// By block number, what a prune of the block goes by.
    pub(crate) uses: Vec<BlockUse>,
    /// The versions that nodes accepted, in order.
    pub(crate) accepted: ItemList<Accepted>,
    /// The place of the last line.
    pub(crate) place: u64,
}

impl Model for State {
    ghost use Rattle.std.specs.Prelude.{◌≡◌, map};
    ghost use Rattle.wire_forms.specs.Firsts.{first_of};
    ghost use Rattle.protocol.specs.Seen.{record_of, accepted_of};
    ghost use Rattle.world_state.specs.Worlds.{WorldView};
    ghost use Rattle.world_state.specs.Slots.{IsWorld};
    ghost use Rattle.world_state.specs.BlockUses.{AreUses};

    ghost Value = { WorldView };

    ghost view = { λ w. record {
      config = w.config;
      lying_nodes = map (λ h. h.lying) w.node_slots.items;
      lying_clients = map (λ s. s.lying) w.client_slots.items;
      seen = record {
        pool = w.pool;
        versions = map (λ h. h.stored.node.blocks) w.node_slots.items;
        accepted = map accepted_of w.accepted;
        clients = map (λ s. s.client.seen) w.client_slots.items;
        starts = map (λ s. s.start) w.client_slots.items;
        client_crashed = map (λ s. s.crashed) w.client_slots.items;
        node_crashed = map (λ h. h.crashed) w.node_slots.items;
        records = map record_of w.records;
        place = w.place;
      };
    } };

    ghost invariant = { λ w.
        IsWorld w.config w.node_slots.items w.client_slots.items w.records w.place
        × (w.first ≡ first_of w.config)
        × AreUses w.config w.client_slots.items w.records w.uses.items };
}

impl State {
    /// The world before anything took place, in a cluster in which these nodes and clients lie.
    pub fn new(alloc: Global, config: &Config, liars: &Liars) -> Result<State, NoMemory>
        requires { AreLiars config.now liars.now }
        ensures cluster { IfOk result (λ w. w.config ≡ config.now) }
        ensures liars { IfOk result (λ w. setting_in w ≡ setting_of config.now
            (has_number liars.now.nodes) (has_number liars.now.clients)) }
        ensures start { IfOk result (λ w. world_in w ≡ start_world (setting_in w)) }
        ensures valid { IfOk result (λ w. IsValid w.config) }
    {
        Ok(State {
            alloc,
            config: *config,
            first: First::of(alloc, config)?,
            pool: ItemList::new(alloc),
            node_slots: new_node_slots(alloc, config, liars)?,
            client_slots: new_client_slots(alloc, config, liars)?,
            records: ItemList::new(alloc),
            uses: vec![in alloc; UNUSED; config.blocks() as usize]?,
            accepted: ItemList::new(alloc),
            place: 0,
        })
    }
}

/// The nodes before anything took place.
fn new_node_slots(alloc: Global, config: &Config, liars: &Liars) -> Result<Vec<NodeSlot>, NoMemory>
    ensures valid { IsValid config.now }
    ensures count { IfOk result (λ slots. length slots.items ≡ config.now.n) }
    ensures new { IfOk result
        (λ slots. AreNewNodeSlots config.now (has_number liars.now.nodes) slots.items) }
{
    let mut slots = Vec::new(alloc);
    for number in 0..config.n() as u8 {
        slots.push(NodeSlot {
            stored: StoredNode::new(alloc, config, number)?,
            crashed: false,
            lying: liars.node(number),
        })?;
    }
    Ok(slots)
}

/// The clients of the numbers from 0 to 1000 before their first operations.
fn new_client_slots(
    alloc: Global,
    config: &Config,
    liars: &Liars,
) -> Result<Vec<ClientSlot>, NoMemory>
    ensures count { IfOk result (λ slots. length slots.items ≡ 1001) }
    ensures new { IfOk result
        (λ slots. AreNewClientSlots config.now (has_number liars.now.clients) slots.items) }
{
    let nobody = Client::new(alloc, config, 0)?;
    let mut slots = Vec::new(alloc);
    for id in 0..1001 {
        slots.push(ClientSlot {
            client: nobody.sibling(id, 0),
            start: 0,
            index: 0,
            crashed: false,
            lying: liars.client(id),
        })?;
    }
    Ok(slots)
}
