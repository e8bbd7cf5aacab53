//! What a node replies, once it has read what it plans to.

ghost use Rattle.std.specs.Prelude.{◌≡◌, false, length, slice_set, IsTrue, IfOk, IfSome, IfNone, Some};
ghost use Rattle.wire_forms.specs.declared.Reply.TheVariants.{Found};
ghost use Rattle.slab_layout.specs.Shapes.{shape_of};
ghost use Rattle.slab_index.specs.Slots.{version_at};
ghost use Rattle.slab_reading.specs.Reading.{OnlyReads};
ghost use Rattle.slab_engine.specs.Plans.{said, IsUnsaid};
ghost use Rattle.slab_engine.specs.Replies.{AreSaid, AreLostBy};
ghost use Rattle.slab_engine.specs.Seen.{listed};

use crate::free::unlist;
use crate::identity::Identity;
use crate::plan::Plan;
use lists::{Copied, NoMemory};
use slab_file::SlabFile;
use slab_index::Kept;
use slab_layout::Shape;
use slab_reading::{ReadFault, read_slot};
use std::alloc::Global;
use wire_forms::{Ask, Reply};

/// What came of each ask, in the order of the asks.
pub type Replies = Vec<Option<Reply>>;

/// Replies as planned. Where the data of a version don't come, or don't fit their check, there is no reply, and the
/// block is answered for no longer.
pub fn reply_all<F: SlabFile>(
    alloc: Global,
    file: &mut F,
    identity: &Identity,
    answers: &mut [bool],
    asks: &[Ask],
    plans: &[Plan],
) -> Result<Replies, NoMemory>
    requires usable { IsTrue (F.SlabFile.is_usable file.old) }
    requires count { length plans.now ≡ length asks.now }
    ensures said { IfOk result (λ replies. IsTrue (F.SlabFile.is_clean file.new)
        → AreSaid identity.now.first
        (version_at (shape_of identity.now.config) (F.SlabFile.seen file.old))
        (listed answers.new) asks.now plans.now replies.items) }
    ensures lost { AreLostBy asks.now plans.now (listed answers.old) (listed answers.new) }
    ensures reads { OnlyReads F.SlabFile.seen F.SlabFile.may_leave F.SlabFile.moment
        F.SlabFile.left_since F.SlabFile.is_usable F.SlabFile.is_clean file.old file.new }
{
    let mut replies = Vec::with_capacity(alloc, asks.len())?;
    for i in 0..asks.len() {
        let reply = reply_one(alloc, file, identity, &plans[i])?;
        forget(answers, asks[i].block, &reply);
        replies.push(reply)?;
    }
    Ok(replies)
}

// A block of which nothing comes is answered for no longer.
fn forget(answers: &mut [bool], block: u32, reply: &Option<Reply>)
    ensures none { IfNone reply.now (answers.new ≡ slice_set answers.old block false) }
    ensures some { IfSome reply.now (λ _. answers.new ≡ answers.old) }
{
    if reply.is_none() {
        unlist(answers, block);
    }
}

// Replies as planned to one ask.
fn reply_one<F: SlabFile>(
    alloc: Global,
    file: &mut F,
    identity: &Identity,
    plan: &Plan,
) -> Result<Option<Reply>, NoMemory>
    requires usable { IsTrue (F.SlabFile.is_usable file.old) }
    ensures some { IfOk result (λ reply. IfSome reply (λ r. IsTrue (F.SlabFile.is_clean file.new)
        → said identity.now.first
        (version_at (shape_of identity.now.config) (F.SlabFile.seen file.old)) plan.now ≡ Some r)) }
    ensures none { IfOk result (λ reply. IfNone reply (IsUnsaid plan.now)) }
    ensures reads { OnlyReads F.SlabFile.seen F.SlabFile.may_leave F.SlabFile.moment
        F.SlabFile.left_since F.SlabFile.is_usable F.SlabFile.is_clean file.old file.new }
{
    match plan {
        Plan::Silent => Ok(None),
        Plan::Tells(time) => Ok(Some(Reply::TimeIs(*time))),
        Plan::First => Ok(Some(Reply::Found(identity.first.copy()?))),
        Plan::Empty => Ok(Some(Reply::Nothing)),
        Plan::Reads(kept) => read_kept(alloc, file, identity, kept),
        Plan::Acks | Plan::Adds => Ok(Some(Reply::Ack)),
        Plan::Refuses(reason) => Ok(Some(Reply::Refused(*reason))),
    }
}

// Finds the version that a slot has.
fn read_kept<F: SlabFile>(
    alloc: Global,
    file: &mut F,
    identity: &Identity,
    kept: &Kept,
) -> Result<Option<Reply>, NoMemory>
    requires usable { IsTrue (F.SlabFile.is_usable file.old) }
    ensures found { IfOk result (λ reply. IfSome reply (λ r. IsTrue (F.SlabFile.is_clean file.new)
        → Found (version_at (shape_of identity.now.config) (F.SlabFile.seen file.old) kept.now) ≡ r)) }
    ensures reads { OnlyReads F.SlabFile.seen F.SlabFile.may_leave F.SlabFile.moment
        F.SlabFile.left_since F.SlabFile.is_usable F.SlabFile.is_clean file.old file.new }
{
    let shape = Shape::of(&identity.config);
    let _nodes = identity.config.n();
    if u64::from(kept.slot) >= shape.count {
        return Ok(None);
    }
    match read_slot(alloc, file, shape, identity.key, identity.number, kept) {
        Ok(Some(version)) => Ok(Some(Reply::Found(version))),
        Ok(None) | Err(ReadFault::Failed(_)) => Ok(None),
        Err(ReadFault::NoMemory) => Err(NoMemory),
    }
}
