ghost use Rattle.std.specs.Prelude.{◌≡◌, ◌<◌, IfOk};
ghost use Rattle.operation_core.specs.Stages.{FitsStage};
ghost use Rattle.operation_core.specs.Mails.{message_of, mail_of};

use crate::stage::Stage;
use lists::NoMemory;
use quorum_rules::Config;
use std::alloc::Global;
use wire_forms::{Ask, Body, Mail, Message, Tag};

/// Which phase of which operation of a client a message belongs to, and which block it is on.
#[derive(Clone, Copy)]
pub(crate) struct Head {
    pub(crate) client: u32,
    pub(crate) tag: Tag,
    pub(crate) block: u32,
}

/// The messages of a phase, one to each node, in order.
pub(crate) fn mail(
    alloc: Global,
    config: &Config,
    head: Head,
    stage: &Stage,
) -> Result<Mail, NoMemory>
    requires { FitsStage config.now stage.now }
    ensures { IfOk result (λ mail. mail ≡ mail_of config.now head stage.now) }
{
    let mut mail = Mail::new(alloc);
    for node in 0..config.n() {
        mail.push(message(config, head, stage, node as u8)?)?;
    }
    Ok(mail)
}

/// The message of a phase to one node.
pub(crate) fn message(
    config: &Config,
    head: Head,
    stage: &Stage,
    node: u8,
) -> Result<Message, NoMemory>
    requires node { node < config.now.n }
    requires fits { FitsStage config.now stage.now }
    ensures { IfOk result (λ message. message ≡ message_of config.now head stage.now node) }
{
    Ok(Message {
        client: head.client,
        node,
        tag: head.tag,
        body: Body::Ask(Ask {
            block: head.block,
            request: stage.request(config, node)?,
        }),
    })
}
