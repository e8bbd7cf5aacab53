//! A block as a plain value beside the store.

use std::alloc::{AllocError, Global};
use std::mem::replace;

/// The value that a block has, and those of writes that weren't told of, which may take place at any later time.
#[derive(Drop)]
pub struct Register {
    now: Vec<u8>,
    under_way: Vec<Vec<u8>>,
}

impl Register {
    /// A block of so many bytes that was never written.
    pub fn new(alloc: Global, size: usize) -> Result<Register, AllocError> {
        Ok(Register {
            now: vec![in alloc; 0u8; size]?,
            under_way: Vec::new(alloc),
        })
    }

    /// A read gave this value. Answers whether the block may have it; then it has it from now on.
    pub fn gave(&mut self, alloc: Global, value: &[u8]) -> Result<bool, AllocError> {
        if self.now.as_slice() == value {
            return Ok(true);
        }
        let mut found = false;
        for other in replace(&mut self.under_way, Vec::new(alloc)) {
            if !found && other.as_slice() == value {
                found = true;
            } else {
                self.under_way.push(other)?;
            }
        }
        if found {
            self.now = Vec::from_slice(alloc, value)?;
        }
        Ok(found)
    }

    /// A write of this value was told of.
    pub fn wrote(&mut self, alloc: Global, value: &[u8]) -> Result<(), AllocError> {
        self.now = Vec::from_slice(alloc, value)?;
        Ok(())
    }

    /// A write of this value wasn't told of.
    pub fn lost(&mut self, alloc: Global, value: &[u8]) -> Result<(), AllocError> {
        let value = Vec::from_slice(alloc, value)?;
        self.under_way.push(value)?;
        Ok(())
    }
}
