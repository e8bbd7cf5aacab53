use crate::message::{Ask, Body, Message, Reply, Request, Version};
use crate::op::Op;
use lists::{Copied, NoMemory};

impl Copied for Version {
    fn copy(&self) -> Result<Version, NoMemory> {
        Ok(Version {
            stamp: self.stamp,
            sum: self.sum.copy()?,
            fragment: self.fragment.copy()?,
        })
    }
}

impl Copied for Request {
    fn copy(&self) -> Result<Request, NoMemory> {
        match self {
            Request::Time => Ok(Request::Time),
            Request::Read(bound) => Ok(Request::Read(*bound)),
            Request::Write(version) => Ok(Request::Write(version.copy()?)),
        }
    }
}

impl Copied for Ask {
    fn copy(&self) -> Result<Ask, NoMemory> {
        Ok(Ask {
            block: self.block,
            request: self.request.copy()?,
        })
    }
}

impl Copied for Reply {
    fn copy(&self) -> Result<Reply, NoMemory> {
        match self {
            Reply::TimeIs(time) => Ok(Reply::TimeIs(*time)),
            Reply::Found(version) => Ok(Reply::Found(version.copy()?)),
            Reply::Nothing => Ok(Reply::Nothing),
            Reply::Ack => Ok(Reply::Ack),
            Reply::Refused(reason) => Ok(Reply::Refused(*reason)),
        }
    }
}

impl Copied for Body {
    fn copy(&self) -> Result<Body, NoMemory> {
        match self {
            Body::Ask(ask) => Ok(Body::Ask(ask.copy()?)),
            Body::Answer(reply) => Ok(Body::Answer(reply.copy()?)),
        }
    }
}

impl Copied for Message {
    fn copy(&self) -> Result<Message, NoMemory> {
        Ok(Message {
            client: self.client,
            node: self.node,
            tag: self.tag,
            body: self.body.copy()?,
        })
    }
}

impl Copied for Op {
    fn copy(&self) -> Result<Op, NoMemory> {
        match self {
            Op::Read { block } => Ok(Op::Read { block: *block }),
            Op::Write { block, value } => Ok(Op::Write {
                block: *block,
                value: value.copy()?,
            }),
        }
    }
}
