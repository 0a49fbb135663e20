//! Shared bytes in a queue.

use crate::shared_bytes::SharedBytes;

/// Shared bytes in a queue, and how many copied ones come right before them.
#[derive(Drop)]
pub(crate) struct Run {
    pub(crate) before: usize,
    pub(crate) bytes: SharedBytes,
}
