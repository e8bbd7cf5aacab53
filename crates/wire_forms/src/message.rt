use cross_sum::{Bytes, CrossSum};
use lists::ItemList;
use stamp_order::{Bound, Stamp};

/// Which phase of which operation of a client a message belongs to.
#[derive(Clone, Copy, Debug, PartialEq, Eq)]
pub struct Tag {
    /// The number of the client's operation.
    pub op: u64,
    /// The number of the operation's phase, from 1 on.
    pub phase: u64,
}

/// A version of a block as one node keeps it.
#[derive(Drop)]
pub struct Version {
    pub stamp: Stamp,
    /// The digests of all fragments of the block.
    pub sum: CrossSum,
    /// This node's fragment.
    pub fragment: Bytes,
}

/// What a client asks of a node.
#[derive(Drop)]
pub enum Request {
    /// The greatest time among the versions of the block.
    Time,
    /// The version of greatest stamp in the bound.
    Read(Bound),
    /// That the version is kept.
    Write(Version),
}

/// A request on a block.
#[derive(Drop)]
pub struct Ask {
    pub block: u32,
    pub request: Request,
}

/// Why a node refuses a request: the first of these that holds.
#[derive(Clone, Copy, Debug, PartialEq, Eq)]
pub enum Reason {
    /// There is no such block.
    BadBlock,
    /// The cross checksum hasn't one digest for each node, or the fragment hasn't its length.
    BadLength,
    /// The stamp has the time 0.
    TimeZero,
    /// The stamp's verifier isn't that of the cross checksum.
    BadVerifier,
    /// The fragment's digest isn't the one that the cross checksum has for this node.
    BadDigest,
}

/// What a node answers.
#[derive(Drop)]
pub enum Reply {
    TimeIs(u64),
    Found(Version),
    /// No version is in the bound.
    Nothing,
    /// The version is kept.
    Ack,
    Refused(Reason),
}

/// An ask goes from the client to the node, an answer from the node to the client.
#[derive(Drop)]
pub enum Body {
    Ask(Ask),
    Answer(Reply),
}

/// A message between a client and a node.
pub struct Message {
    pub client: u32,
    pub node: u8,
    pub tag: Tag,
    pub body: Body,
}

impl Drop for Message {
    fn drop(self) {
        let Message {
            client: _client,
            node: _node,
            tag: _tag,
            body: _body,
        } = self;
    }
}

/// Messages, in the order in which they are sent.
pub type Mail = ItemList<Message>;
