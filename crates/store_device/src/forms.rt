//! The types of answers and of operations say that they are formed.

ghost use Rattle.std.specs.Prelude.{All};
ghost use Rattle.protocol.specs.Messages.{IsFormed, IsFormedReply};
ghost use Rattle.wire_forms.specs.Ops.{Fits};
ghost use Rattle.store_device.specs.Going.{MayBegin};

use quorum_rules::Config;
use wire_forms::{Op, Reply, Version};

pub(crate) fn form_all(replies: &[Reply])
    ensures { All IsFormedReply replies.now }
{
    for reply in replies {
        form_reply(reply);
    }
}

fn form_reply(reply: &Reply)
    ensures { IsFormedReply reply.now }
{
    if let Reply::Found(version) = reply {
        form_version(version);
    }
}

fn form_version(version: &Version)
    ensures { IsFormed version.now }
{
    let _digests = version.sum.hashes();
    let _bytes = version.fragment.as_slice();
}

pub(crate) fn form_ops(config: &Config, ops: &[Op])
    requires { All (Fits config.now) ops.now }
    ensures { All (MayBegin config.now) ops.now }
{
    for op in ops {
        form_op(config, op);
    }
}

fn form_op(_config: &Config, op: &Op)
    requires { Fits _config.now op.now }
    ensures { MayBegin _config.now op.now }
{
    if let Op::Write { value, .. } = op {
        let _bytes = value.as_slice();
    }
}
