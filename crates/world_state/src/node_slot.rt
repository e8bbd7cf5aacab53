use disk_model::CalmDisk;
use version_disk::StoredNode;

/// What the world keeps of a node's number: who has it, on its disk, and how it stands.
pub struct NodeSlot {
    pub stored: StoredNode<CalmDisk>,
    pub crashed: bool,
    /// Whether it is declared lying. What its node keeps then says nothing.
    pub lying: bool,
}

impl Drop for NodeSlot {
    fn drop(self) {
        let NodeSlot {
            stored: _stored,
            crashed: _crashed,
            lying: _lying,
        } = self;
    }
}
