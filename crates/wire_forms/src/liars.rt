ghost use Rattle.std.specs.Prelude.{◌≡◌, [], length, OnOk, OnErr, Ok};
ghost use Rattle.std.specs.Ordering.{nat_cmp};
ghost use Rattle.std.specs.BTreeSet.{insert_key};

use lists::{Copied, NoMemory};
use std::alloc::Global;
use std::collections::BTreeSet;
use std::marker::Model;

/// The nodes and clients that are declared lying. Contracts see two ascending lists of their numbers.
#[derive(Drop)]
pub struct Liars {
    nodes: BTreeSet<u8>,
    clients: BTreeSet<u32>,
}

impl Model for Liars {
    ghost use Rattle.wire_forms.specs.Liars.{Liars as Seen, IsAscending};

    ghost Value = { Seen };

    ghost view = { λ l. record { nodes = l.nodes.keys; clients = l.clients.keys } };

    ghost invariant = { λ l. IsAscending l.nodes.keys × IsAscending l.clients.keys };
}

impl Liars {
    ghost use Rattle.wire_forms.specs.Liars.{IsAscending, has_number};

    /// Nobody.
    pub fn none(alloc: Global) -> Liars
        ensures nodes { result.nodes ≡ [] }
        ensures clients { result.clients ≡ [] }
    {
        Liars {
            nodes: BTreeSet::new(alloc),
            clients: BTreeSet::new(alloc),
        }
    }

    /// Declares a node lying. A number that is there already changes nothing.
    pub fn add_node(&mut self, node: u8) -> Result<(), NoMemory>
        ensures ok { OnOk result (self.new.nodes ≡ insert_key nat_cmp self.old.nodes node) }
        ensures clients { self.new.clients ≡ self.old.clients }
        ensures err { OnErr result (self.new ≡ self.old) }
        ensures ascending { IsAscending self.new.nodes }
    {
        self.nodes.insert(node)?;
        Ok(())
    }

    /// Declares a client lying. A number that is there already changes nothing.
    pub fn add_client(&mut self, client: u32) -> Result<(), NoMemory>
        ensures ok { OnOk result (self.new.clients ≡ insert_key nat_cmp self.old.clients client) }
        ensures nodes { self.new.nodes ≡ self.old.nodes }
        ensures err { OnErr result (self.new ≡ self.old) }
        ensures ascending { IsAscending self.new.clients }
    {
        self.clients.insert(client)?;
        Ok(())
    }

    /// Whether the node is declared lying.
    pub fn node(&self, node: u8) -> bool
        ensures { result ≡ has_number self.now.nodes node }
    {
        self.nodes.contains(&node)
    }

    /// Whether the client is declared lying.
    pub fn client(&self, client: u32) -> bool
        ensures { result ≡ has_number self.now.clients client }
    {
        self.clients.contains(&client)
    }

    /// How many nodes are declared lying.
    pub fn node_count(&self) -> usize
        ensures count { result ≡ length self.now.nodes }
        ensures ascending { IsAscending self.now.nodes }
    {
        self.nodes.len()
    }
}

impl Copied for Liars {
    fn copy(&self) -> Result<Liars, NoMemory> {
        Ok(Liars {
            nodes: self.nodes.clone()?,
            clients: self.clients.clone()?,
        })
    }
}
