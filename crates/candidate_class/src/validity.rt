ghost use Rattle.std.specs.Prelude.{◌≡◌, ◌<◌, ◌↔◌, ◌||◌, IsTrue, Some, nat_lt, length, slice_get};
ghost use Rattle.cross_sum.specs.Digest.{digest, verifier};
ghost use Rattle.stamp_order.specs.Stamps.{same_stamp};
ghost use Rattle.quorum_rules.specs.Limits.{share_of};
ghost use Rattle.protocol.specs.Setting.{first_stamp};
ghost use Rattle.protocol.specs.Instance.{setting};
ghost use Rattle.protocol.specs.Operations.{is_there, stamp_of, valid, is_whole};

use quorum_rules::Config;
use stamp_order::{Bound, Stamp};
use wire_forms::{Reply, Version};

/// Whether a node's reply to a read under the bound is valid: a version whose stamp is in the bound, with a digest for each
/// node, a fragment of a fragment's length, the stamp's verifier and the fragment's digest as the cross checksum says, and
/// a time above 0 or the first stamp. `first` is the first stamp of the configuration.
pub fn valid(config: &Config, first: &Stamp, node: u8, bound: &Bound, reply: &Reply) -> bool
    requires node { node < config.now.n }
    requires first { first.now ≡ first_stamp (setting config.now) }
    ensures { result ≡ is_there
        (stamp_of (valid (setting config.now) node bound.now (Some reply.now))) }
{
    valid_stamp(config, first, node, bound, reply).is_some()
}

/// The stamp of a node's reply to a read under the bound, if the reply is valid.
pub fn valid_stamp(
    config: &Config,
    first: &Stamp,
    node: u8,
    bound: &Bound,
    reply: &Reply,
) -> Option<Stamp>
    requires node { node < config.now.n }
    requires first { first.now ≡ first_stamp (setting config.now) }
    ensures { result ≡ stamp_of (valid (setting config.now) node bound.now (Some reply.now)) }
{
    match reply {
        Reply::Found(version) => {
            if bound.has(&version.stamp) && is_whole(config, first, node, version) {
                Some(version.stamp)
            } else {
                None
            }
        }
        _ => None,
    }
}

// Whether a version is one that the node may keep.
fn is_whole(config: &Config, first: &Stamp, node: u8, version: &Version) -> bool
    requires node { node < config.now.n }
    requires first { first.now ≡ first_stamp (setting config.now) }
    ensures { result ≡ is_whole (setting config.now) node version.now }
{
    if !has_lengths(config, version) {
        return false;
    }
    if !has_verifier(version) {
        return false;
    }
    has_digest(version, node) && has_time(version, first)
}

// Whether there is a digest for each node, and the fragment has its length.
fn has_lengths(config: &Config, version: &Version) -> bool
    ensures { IsTrue result
        ↔ ((length version.now.sum ≡ config.now.n)
        × (length version.now.fragment ≡ share_of config.now)) }
{
    version.sum.len() == config.n() as usize && version.fragment.len() == config.share() as usize
}

// Whether the stamp's verifier is that of the cross checksum.
fn has_verifier(version: &Version) -> bool
    ensures { IsTrue result ↔ (version.now.stamp.verifier ≡ verifier version.now.sum) }
{
    version.stamp.verifier == version.sum.verifier()
}

// Whether the fragment's digest is the one that the cross checksum has for the node.
fn has_digest(version: &Version, node: u8) -> bool
    requires { node < length version.now.sum }
    ensures { IsTrue result
        ↔ (slice_get version.now.sum node ≡ Some (digest version.now.fragment)) }
{
    version
        .sum
        .matches(usize::from(node), version.fragment.as_slice())
}

// Whether the time is above 0, or the stamp is the first.
fn has_time(version: &Version, first: &Stamp) -> bool
    ensures { result ≡ (nat_lt 0 version.now.stamp.time || same_stamp version.now.stamp first.now) }
{
    version.stamp.time > 0 || version.stamp.cmp(first).is_eq()
}
