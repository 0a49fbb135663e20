//! Why a script isn't played to its end.

ghost use Rattle.std.specs.Prelude.{◌≡◌};
ghost use Rattle.gm_play.specs.declared.error.PlayError.TheVariants.{Memory};

use std::alloc::{AllocError, AllocFailed};
use thiserror::Error;

/// Why a script isn't played to its end. The output of the lines before may be printed.
#[derive(Clone, Copy, Debug, Drop, Error)]
pub enum PlayError {
    /// The reader failed.
    #[error("can't read the script")]
    Read,
    /// The writer failed.
    #[error("can't write the output")]
    Write,
    /// The script has more than 16,777,216 bytes.
    #[error("the script is too long")]
    TooLong,
    /// There was no memory for it.
    #[error("out of memory")]
    Memory,
}

impl From<AllocError> for PlayError {
    ghost from_gives = { λ _ e. e ≡ Memory };

    fn from(_e: AllocError) -> PlayError {
        PlayError::Memory
    }
}

impl<T: Drop> From<AllocFailed<T>> for PlayError {
    ghost from_gives = { λ _ e. e ≡ Memory };

    fn from(_e: AllocFailed<T>) -> PlayError {
        PlayError::Memory
    }
}
