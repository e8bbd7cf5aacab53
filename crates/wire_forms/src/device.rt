use cross_sum::Bytes;

/// A command on a range of the bytes of all blocks, one block after the other.
#[derive(Drop)]
pub enum DeviceOp {
    Get { offset: u64, length: u64 },
    Put { offset: u64, bytes: Bytes },
}
