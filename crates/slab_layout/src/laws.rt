//! What is written into a slab reads back. Each law is a function with nothing to do.

ghost use Rattle.std.specs.Prelude.{◌≡◌, ◌≤◌, ◌*◌, ℕ, List, length};
ghost use Rattle.stamp_order.specs.declared.Stamp.{Stamp};
ghost use Rattle.protocol.specs.Messages.{Version};
ghost use Rattle.slab_layout.specs.Heads.{Head, head_in, head_bytes, HasPlace};
ghost use Rattle.slab_layout.specs.Data.{data_of, version_in, HasDigests};

/// A head's bytes tell the head.
pub fn heads_are_read()
    ensures { (key : ℕ) (h : Head) → HasPlace h → head_in (head_bytes key h) ≡ h }
{}

/// A version's data tell the version, and any data are those of the version that they tell.
pub fn data_are_read()
    ensures back { (nodes : ℕ) (v : Version) → HasDigests nodes v
        → version_in nodes v.stamp (data_of v) ≡ v }
    ensures forth { (nodes : ℕ) (stamp : Stamp) (bytes : List ℕ) → 32 * nodes ≤ length bytes
        → data_of (version_in nodes stamp bytes) ≡ bytes }
{}
