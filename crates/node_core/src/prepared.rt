use wire_forms::{Reply, Version};

/// What a node will do to an ask. All memory for it is taken, but for what the index of its versions grows by.
#[derive(Drop)]
pub struct Prepared {
    /// What it answers.
    pub reply: Reply,
    /// The version that it adds to those that it keeps of the asked block.
    pub added: Option<Version>,
}
