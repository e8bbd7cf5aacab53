//! A store, opened from its directories.
ghost use Rattle.std.specs.Prelude.{◌≡◌, ◌≤◌, ◌<◌, Ok, Err, IfOk, IfErr, MatchOption, MatchResult};
ghost use Rattle.pasis_store.specs.Ends.{IsUnderstood, down_count};

use crate::folder::FileStore;
use crate::nodes::{Nodes, open_nodes};
use crate::telling::tell;
use store_words::{Down, Notice, Refusal};

/// Opens a store of which no more nodes are down than may be, and tells of each that is down.
pub fn open_store(rt: &HostRuntime, folders: &[String]) -> Result<FileStore, Refusal>
    ensures { IfErr result IsUnderstood }
{
    let Nodes { store, .. } = open_well(rt, folders)?;
    Ok(store)
}

/// The same, with what its directories have in common.
pub fn open_well(rt: &HostRuntime, folders: &[String]) -> Result<Nodes, Refusal>
    ensures well { IfOk result (λ nodes. down_count nodes.down.items ≤ nodes.store.config.t) }
    ensures err { IfErr result IsUnderstood }
{
    let nodes = found_nodes(rt, folders)?;
    tell_down(rt, &nodes.down);
    enough(nodes)
}

/// The nodes of the store that most of the directories are of.
pub fn found_nodes(rt: &HostRuntime, folders: &[String]) -> Result<Nodes, Refusal>
    ensures { IfErr result IsUnderstood }
{
    found(open_nodes(rt, folders)?, folders.len())
}

// The nodes that were opened in so many directories; NoStore where none of these tells of a store.
fn found(opened: Option<Nodes>, folders: usize) -> Result<Nodes, Refusal>
    ensures { MatchOption opened (result ≡ Err (Refusal.NoStore folders)) (λ nodes. result ≡ Ok nodes) }
{
    opened.ok_or(Refusal::NoStore { folders })
}

// The nodes; TooManyDown where more of them are down than may be.
fn enough(nodes: Nodes) -> Result<Nodes, Refusal>
    ensures { MatchResult result
        (λ same. (same ≡ nodes) × (down_count nodes.down.items ≤ nodes.store.config.t))
        (λ refusal. (nodes.store.config.t < down_count nodes.down.items)
        × (refusal ≡ Refusal.TooManyDown (down_count nodes.down.items) nodes.store.config.t)) }
{
    let down = count_down(&nodes.down);
    let most = nodes.store.config().t();
    if down > u64::from(most) {
        return Err(Refusal::TooManyDown { down, most });
    }
    Ok(nodes)
}

/// How many nodes are down.
pub fn count_down(down: &[Option<Down>]) -> u64
    ensures { result ≡ down_count down.now }
{
    down.iter().filter(|one| one.is_some()).count() as u64
}

// Tells of each node that is down.
fn tell_down(rt: &HostRuntime, down: &[Option<Down>]) {
    for (node, one) in down.iter().enumerate() {
        if let Some(why) = one {
            tell(rt, &Notice::Down { node, why: *why });
        }
    }
}
