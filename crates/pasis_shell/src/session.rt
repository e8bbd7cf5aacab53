//! The session of `nbd`: a device that is served over the source and the sink.
ghost use Rattle.std.specs.Prelude.{◌≤◌};
ghost use Rattle.command_texts.specs.declared.words.Form.TheVariants.{Session};
ghost use Rattle.pasis_shell.specs.Calls.{call_of, TellsFaults};
ghost use Rattle.pasis_shell.specs.Forms.{Does};

use command_texts::Status;
use nbd_front::serve;
use outside_io::{Sink, Source};
use quorum_rules::Config;
use std::alloc::Global;

/// Serves a device of this configuration, of at most 65,536 blocks, until the session ends.
pub(crate) fn serve_device<S: Source, K: Sink>(
    alloc: Global,
    config: &Config,
    source: &mut S,
    sink: &mut K,
) -> Status
    requires { config.now.blocks ≤ 65536 }
    ensures does { Does (Session config.now) result
        (call_of ⟦<S as Source>⟧ ⟦<K as Sink>⟧ source.old source.new sink.old sink.new) }
    ensures faults { TellsFaults result
        (call_of ⟦<S as Source>⟧ ⟦<K as Sink>⟧ source.old source.new sink.old sink.new) }
{
    Status::of_session(serve(alloc, config, source, sink))
}
