//! Calls for tests.

ghost use Rattle.std.specs.Prelude.{◌≡◌, ◌↔◌, IsTrue, length};
ghost use Rattle.gm_queues.specs.Numbers.{mention_error_number};

use crate::functions::{Functions, MentionError};

impl MentionError {
    /// The number of this refusal.
    pub fn number(self) -> u8
        ensures { result ≡ mention_error_number self }
    {
        self as u8
    }
}

impl Functions {
    /// Whether there are no functions.
    pub fn is_empty(&self) -> bool
        ensures { IsTrue result ↔ (length self.now.names ≡ 0) }
    {
        self.len() == 0
    }
}
