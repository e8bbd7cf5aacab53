//! Whether two messages are equal.
ghost use Rattle.std.specs.Prelude.{◌≡◌, ◌↔◌, IsTrue};

use crate::message::{Ask, Body, Message, Reply, Request, Version};

impl Message {
    /// Whether both are of one client, node and tag, with one body.
    pub fn same(&self, other: &Message) -> bool
        ensures { IsTrue result ↔ (self.now ≡ other.now) }
    {
        self.client == other.client
            && self.node == other.node
            && self.tag == other.tag
            && self.body.same(&other.body)
    }
}

impl Body {
    fn same(&self, other: &Body) -> bool
        ensures { IsTrue result ↔ (self.now ≡ other.now) }
    {
        match (self, other) {
            (Body::Ask(a), Body::Ask(b)) => a.same(b),
            (Body::Answer(a), Body::Answer(b)) => a.same(b),
            _ => false,
        }
    }
}

impl Ask {
    fn same(&self, other: &Ask) -> bool
        ensures { IsTrue result ↔ (self.now ≡ other.now) }
    {
        self.block == other.block && self.request.same(&other.request)
    }
}

impl Request {
    fn same(&self, other: &Request) -> bool
        ensures { IsTrue result ↔ (self.now ≡ other.now) }
    {
        match (self, other) {
            (Request::Time, Request::Time) => true,
            (Request::Read(a), Request::Read(b)) => a == b,
            (Request::Write(a), Request::Write(b)) => a.same(b),
            _ => false,
        }
    }
}

impl Reply {
    fn same(&self, other: &Reply) -> bool
        ensures { IsTrue result ↔ (self.now ≡ other.now) }
    {
        match (self, other) {
            (Reply::TimeIs(a), Reply::TimeIs(b)) => *a == *b,
            (Reply::Found(a), Reply::Found(b)) => a.same(b),
            (Reply::Nothing, Reply::Nothing) => true,
            (Reply::Ack, Reply::Ack) => true,
            (Reply::Refused(a), Reply::Refused(b)) => *a == *b,
            _ => false,
        }
    }
}

impl Version {
    fn same(&self, other: &Version) -> bool
        ensures { IsTrue result ↔ (self.now ≡ other.now) }
    {
        self.stamp == other.stamp
            && self.sum.same(&other.sum)
            && self.fragment.same(&other.fragment)
    }
}
