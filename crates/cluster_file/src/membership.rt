ghost use Rattle.std.specs.Prelude.{◌≡◌, ◌≤◌, ◌++◌, IfOk, IfErr, OnOk};
ghost use Rattle.cluster_file.specs.Texts.{IsMembership, IfBadLine, text_of};

use crate::reading::{config_in, edition_in, id_in, last_line, line_at, node_in};
use crate::writing::{add_cluster, add_header, add_id, add_node};
use lists::NoMemory;
use quorum_rules::Config;
use std::alloc::Global;
use text_lines::Text;

/// Whose a node's directory is: the cluster's numbers, the node's own number, counted from 0, and what the directories of one
/// store have in common and no others.
#[derive(Clone, Copy)]
pub struct Membership {
    pub config: Config,
    pub node: u8,
    pub id: [u8; 16],
}

/// Why a text tells no membership.
#[derive(Clone, Copy, Debug, PartialEq, Eq)]
pub enum MembershipRefusal {
    /// No memory was found.
    NoMemory,
    /// This line, counted from 1, is the first that is wrong or isn't there. The fifth is what follows the last one.
    BadLine(u8),
}

impl From<NoMemory> for MembershipRefusal {
    ghost use Rattle.cluster_file.specs.declared.membership.MembershipRefusal.TheVariants.{NoMemory};

    ghost from_gives = { λ _ e. e ≡ NoMemory };

    fn from(_: NoMemory) -> MembershipRefusal {
        MembershipRefusal::NoMemory
    }
}

impl Membership {
    /// The membership that a text tells: the edition, the cluster's numbers, the node's own and the id, a line each. The first line
    /// is `pasis_store 4`; that of a store of edition 3 is `pasis_store 1`.
    pub fn read(alloc: Global, text: &[u8]) -> Result<Membership, MembershipRefusal>
        ensures text { IfOk result (λ m. text.now ≡ text_of m) }
        ensures ok { IfOk result (λ m. IsMembership m) }
        // a text that is refused for a line is that of no membership
        ensures none { IfErr result (IfBadLine (λ _.
            (m : Membership) → IsMembership m → text.now ≡ text_of m → ⊥)) }
        ensures line { IfErr result (IfBadLine (λ line. (1 ≤ line) × (line ≤ 5))) }
    {
        let (first, rest) = line_at(text, 1)?;
        let edition = edition_in(first)?;
        let (second, rest) = line_at(rest, 2)?;
        let config = config_in(alloc, edition, second)?;
        let (third, rest) = line_at(rest, 3)?;
        let node = node_in(third, &config)?;
        let (fourth, rest) = line_at(rest, 4)?;
        let id = id_in(alloc, fourth)?;
        last_line(rest)?;
        Ok(Membership { config, node, id })
    }

    /// Adds its text. After `NoMemory` the text may end within it.
    pub fn write(&self, text: &mut Text) -> Result<(), NoMemory>
        ensures { OnOk result (text.new ≡ text.old ++ text_of self.now) }
    {
        add_header(text, &self.config)?;
        text.add_newline()?;
        add_cluster(text, &self.config)?;
        text.add_newline()?;
        add_node(text, self.node)?;
        text.add_newline()?;
        add_id(text, &self.id)?;
        text.add_newline()?;
        Ok(())
    }
}
