ghost use Rattle.std.specs.Prelude.{◌≡◌, ◌≤◌, ◌↔◌, ◌||◌, true, false, IsTrue, [], ◌∷◌, ◌++◌, length, map, filter, slice_get, OnOk, OnErr, IfOk, IfSome, IfNone, option_map};
ghost use Rattle.stamp_order.specs.Stamps.{before};
ghost use Rattle.protocol.specs.Nodes.{keeps, carries, greatest_in, greatest_time};
ghost use Rattle.std.specs.List.{Contains};
ghost use Rattle.wire_forms.specs.declared.message.Version.{Version};
ghost use Rattle.node_core.specs.Index.{version_of, is_up_to, is_other, IsLastIn, IsNoneIn};
ghost use Rattle.node_core.specs.Lent.{lent};
ghost use Rattle.node_core.specs.Seen.{without};
ghost use Rattle.stamp_order.specs.declared.Bound.TheVariants.{AtMost};

use crate::lent::LentVersion;
use cross_sum::{Bytes, CrossSum};
use lists::{Copied, ItemList, NoMemory};
use stamp_order::{Bound, Stamp};
use std::alloc::Global;
use std::collections::BTreeMap;
use std::marker::Model;
use wire_forms::Version;

/// What a version has beside its stamp.
pub(crate) struct Content {
    sum: CrossSum,
    fragment: Bytes,
}

// By hand, since a derived drop is proved anew wherever a content is let go.
impl Drop for Content {
    fn drop(self) {
        let Content {
            sum: _sum,
            fragment: _fragment,
        } = self;
    }
}

impl Content {
    /// The version that has this stamp and content, lent.
    pub(crate) fn lent<'a>(&'a self, stamp: &'a Stamp) -> LentVersion<'a>
        ensures { lent result ≡ version_of stamp.now self.now }
    {
        LentVersion {
            stamp,
            sum: &self.sum,
            fragment: &self.fragment,
        }
    }

    /// A copy of the version that has this stamp and content.
    pub(crate) fn version(&self, stamp: &Stamp) -> Result<Version, NoMemory>
        ensures { IfOk result (λ version. version ≡ version_of stamp.now self.now) }
    {
        Ok(Version {
            stamp: *stamp,
            sum: self.sum.copy()?,
            fragment: self.fragment.copy()?,
        })
    }
}

/// The versions of a block that were accepted after the first, in order of acceptance. None has the time 0.
#[derive(Drop)]
pub(crate) struct Kept {
    /// Their stamps, in order of acceptance.
    order: Vec<Stamp>,
    by_stamp: BTreeMap<Stamp, Content>,
}

impl Model for Kept {
    ghost use Rattle.std.specs.Prelude.{List};
    ghost use Rattle.wire_forms.specs.declared.message.Version.{Version};
    ghost use Rattle.node_core.specs.Index.{versions_of, IsIndex};

    ghost Value = { List Version };

    ghost view = { λ k. versions_of k.order.items k.by_stamp };

    ghost invariant = { λ k. IsIndex k.order.items k.by_stamp };
}

impl Kept {
    pub(crate) fn new(alloc: Global) -> Kept
        ensures { result ≡ [] }
    {
        Kept {
            order: Vec::new(alloc),
            by_stamp: BTreeMap::new(alloc),
        }
    }

    /// Whether there is a version of this stamp.
    pub(crate) fn has(&self, stamp: &Stamp) -> bool
        ensures { IsTrue result ↔ (keeps self.now stamp.now ≡ true) }
    {
        self.by_stamp.contains_key(stamp)
    }

    /// The greatest stamp in the bound, and the content of its version.
    pub(crate) fn greatest_in(&self, bound: &Bound) -> Option<(&Stamp, &Content)>
        ensures greatest { option_map (λ e. version_of e.0.now e.1.now) result
            ≡ greatest_in bound.now self.now }
        ensures later { IfSome result (λ e. 1 ≤ e.0.now.time) }
    {
        last_in(&self.by_stamp, bound)
    }

    /// The greatest time, or 0 where there are no versions.
    pub(crate) fn greatest_time(&self) -> u64
        ensures { result ≡ greatest_time self.now }
    {
        match self.greatest_in(&Bound::All) {
            Some((stamp, _)) => stamp.time,
            None => 0,
        }
    }

    /// Adds a version whose stamp isn't there.
    pub(crate) fn add(&mut self, version: Version) -> Result<(), NoMemory>
        requires new { keeps self.old version.stamp ≡ false }
        requires later { 1 ≤ version.stamp.time }
        ensures ok { OnOk result (self.new ≡ self.old ++ version ∷ []) }
        ensures err { OnErr result (self.new ≡ self.old) }
    {
        self.order.reserve(1)?;
        let Version {
            stamp,
            sum,
            fragment,
        } = version;
        self.by_stamp.insert(stamp, Content { sum, fragment })?;
        let _ = self.order.push(stamp);
        Ok(())
    }

    /// The stamps, after that of the first version.
    pub(crate) fn stamps(&self, first: &Stamp) -> Result<ItemList<Stamp>, NoMemory>
        ensures { IfOk result (λ stamps. stamps ≡ first.now ∷ map (λ v. v.stamp) self.now) }
    {
        let mut stamps = ItemList::new(*self.order.allocator());
        stamps.push(*first)?;
        for stamp in &self.order {
            stamps.push(*stamp)?;
        }
        Ok(stamps)
    }

    /// How many versions there are.
    pub(crate) fn len(&self) -> usize
        ensures { result ≡ length self.now }
    {
        self.order.len()
    }

    /// The stamp and the content of the version that was accepted as number k, counted from 0.
    pub(crate) fn get(&self, k: usize) -> Option<(&Stamp, &Content)>
        ensures { option_map (λ e. version_of e.0.now e.1.now) result ≡ slice_get self.now k }
    {
        let stamp = self.order.get(k)?;
        let content = self.by_stamp.get(stamp)?;
        Some((stamp, content))
    }

    /// Drops the version of this stamp, if there is one.
    pub(crate) fn take_back(&mut self, stamp: &Stamp)
        ensures { self.new ≡ without stamp.now self.old }
    {
        drop_stamp(&mut self.order, *stamp);
        drop_version(&mut self.by_stamp, *stamp);
    }

    /// Drops the versions below the greatest one up to the stamp.
    pub(crate) fn prune(&mut self, stamp: &Stamp)
        ensures later { (v : Version) → Contains self.old v → 1 ≤ v.stamp.time }
        ensures kept { self.new ≡ filter (λ v. carries v.stamp
            (greatest_in (AtMost stamp.now) self.old) || before stamp.now v.stamp) self.old }
    {
        match self.greatest_in(&Bound::AtMost(*stamp)) {
            Some((greatest, _)) => {
                let least = *greatest;
                drop_stamps(&mut self.order, least);
                drop_versions(&mut self.by_stamp, least);
            }
            None => {}
        }
    }
}

// The last entry whose stamp is in the bound.
fn last_in<'a>(
    by_stamp: &'a BTreeMap<Stamp, Content>,
    bound: &Bound,
) -> Option<(&'a Stamp, &'a Content)>
    ensures some { IfSome result (λ e. IsLastIn by_stamp.now bound.now e.0.now e.1.now) }
    ensures none { IfNone result (IsNoneIn by_stamp.now bound.now) }
{
    match bound {
        Bound::All => by_stamp.last_key_value(),
        Bound::AtMost(most) => by_stamp.range(..=*most).next_back(),
        Bound::Below(limit) => by_stamp.range(..*limit).next_back(),
    }
}

// Drops the stamps below one.
fn drop_stamps(order: &mut Vec<Stamp>, least: Stamp)
    ensures { order.new.items ≡ filter (is_up_to least) order.old.items }
{
    order.retain(
        |stamp: &Stamp| -> bool
            ensures { result ≡ is_up_to least stamp.now }
        { least.cmp(stamp).is_le() },
    );
}

// Drops what is kept by stamps below one.
fn drop_versions(by_stamp: &mut BTreeMap<Stamp, Content>, least: Stamp)
    ensures { by_stamp.new.entries ≡ filter (λ e. is_up_to least e.0) by_stamp.old.entries }
{
    by_stamp.retain(
        |stamp: &Stamp, _content: &mut Content| -> bool
            ensures passes { result ≡ is_up_to least stamp.now }
            ensures same { _content.new ≡ _content.old }
        { least.cmp(stamp).is_le() },
    );
}

// Drops one stamp.
fn drop_stamp(order: &mut Vec<Stamp>, dropped: Stamp)
    ensures { order.new.items ≡ filter (is_other dropped) order.old.items }
{
    order.retain(
        |stamp: &Stamp| -> bool
            ensures { result ≡ is_other dropped stamp.now }
        { dropped.cmp(stamp).is_ne() },
    );
}

// Drops what is kept by one stamp.
fn drop_version(by_stamp: &mut BTreeMap<Stamp, Content>, dropped: Stamp)
    ensures { by_stamp.new.entries ≡ filter (λ e. is_other dropped e.0) by_stamp.old.entries }
{
    by_stamp.retain(
        |stamp: &Stamp, _content: &mut Content| -> bool
            ensures passes { result ≡ is_other dropped stamp.now }
            ensures same { _content.new ≡ _content.old }
        { dropped.cmp(stamp).is_ne() },
    );
}
