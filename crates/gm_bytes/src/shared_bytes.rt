//! The end of a buffer, which others may own as well.

ghost use Rattle.std.specs.Prelude.{◌≡◌, ◌≤◌, IfOk, length, drop};

use std::alloc::{AllocError, Global};
use std::marker::Model;
use std::sync::Arc;

/// A buffer from one index on, which others may own as well. Nothing changes the buffer. Contracts see the bytes from
/// that index on.
#[derive(Drop)]
pub struct SharedBytes {
    buffer: Arc<Vec<u8>, Global>,
    from: usize,
}

impl Model for SharedBytes {
    ghost use Rattle.std.specs.Prelude.{ℕ, ◌≤◌, List, length, drop};

    ghost Value = { List ℕ };

    ghost view = { λ s. drop s.from s.buffer.value.items };

    ghost invariant = { λ s. s.from ≤ length s.buffer.value.items };
}

impl SharedBytes {
    /// All of these bytes. They aren't copied; the memory that is taken is that for counting the owners.
    pub fn new(alloc: Global, bytes: Vec<u8>) -> Result<SharedBytes, AllocError>
        ensures { IfOk result (λ shared. shared ≡ bytes.items) }
    {
        match Arc::new(alloc, bytes) {
            Ok(buffer) => Ok(SharedBytes { buffer, from: 0 }),
            Err(_bytes) => Err(AllocError),
        }
    }

    /// The bytes from an index on: one more owner of the same buffer. No byte is copied and no memory taken; it fails
    /// if the count of the owners is full.
    pub fn suffix(&self, from: usize) -> Result<SharedBytes, AllocError>
        requires { from ≤ length self.now }
        ensures { IfOk result (λ shared. shared ≡ drop from self.now) }
    {
        Ok(SharedBytes {
            buffer: Arc::try_clone(&self.buffer)?,
            from: self.from + from,
        })
    }

    /// The bytes.
    pub fn as_slice(&self) -> &[u8]
        ensures { result.now ≡ self.now }
    {
        &self.buffer.as_slice()[self.from..]
    }
}
