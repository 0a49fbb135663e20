//! Why the program ends early.

ghost use Rattle.std.specs.Prelude.{◌≡◌};
ghost use Rattle.gm_play.specs.Statuses.{run_status};

use crate::error::PlayError;
use gm_options::ArgumentsError;
use std::alloc::AllocError;
use thiserror::Error;

/// Why the program ends early.
#[derive(Debug, Drop, Error)]
pub(crate) enum RunError {
    /// The arguments are invalid, or out of range, or aren't text.
    #[error("invalid arguments")]
    Arguments,
    /// The system gives no random bytes.
    #[error("can't get a random seed")]
    Seed,
    /// The script wasn't played to its end.
    #[error("{0}")]
    Play(#[from] PlayError),
}

impl RunError {
    /// The status that the program ends with.
    pub(crate) fn status(&self) -> u8
        ensures { result ≡ run_status self.now }
    {
        match self {
            RunError::Arguments => 2,
            RunError::Seed => 3,
            RunError::Play(PlayError::Read | PlayError::TooLong) => 2,
            RunError::Play(PlayError::Write | PlayError::Memory) => 3,
        }
    }
}

impl From<AllocError> for RunError {
    fn from(_e: AllocError) -> RunError {
        RunError::Play(PlayError::Memory)
    }
}

impl From<ArgumentsError> for RunError {
    fn from(error: ArgumentsError) -> RunError {
        match error {
            ArgumentsError::NotText => RunError::Arguments,
            ArgumentsError::Memory => RunError::Play(PlayError::Memory),
        }
    }
}
