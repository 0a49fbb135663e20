//! Why a server can't serve.

ghost use Rattle.std.specs.Prelude.{◌≡◌};
ghost use Rattle.gm_report.specs.Statuses.{serve_error_number, serve_error_status};

use std::alloc::AllocError;
use thiserror::Error;

/// Why a server can't serve.
#[derive(Clone, Copy, Debug, PartialEq, Eq, Drop, Error)]
pub enum ServeError {
    /// There was no memory for the book, for the state that its threads share, or for the comparison in the end; or a
    /// connection's end couldn't be entered on the tape.
    #[error("out of memory")]
    Memory = 6,
    /// The tape differs from what the connections were told, the book still has a slot open, or a lane wasn't given
    /// each connection.
    #[error("the tape differs from what the connections were told")]
    Differs = 16,
    /// The listener failed.
    #[error("the listener failed")]
    Listen = 21,
    /// The system has no thread for the server.
    #[error("the system has no thread for it")]
    Threads = 22,
}

impl ServeError {
    /// The number of this error.
    pub fn number(self) -> u8
        ensures { result ≡ serve_error_number self }
    {
        self as u8
    }

    /// The exit status of a program whose server ended so.
    pub fn status(self) -> u8
        ensures { result ≡ serve_error_status self }
    {
        match self {
            ServeError::Differs => 4,
            ServeError::Memory | ServeError::Listen | ServeError::Threads => 3,
        }
    }
}

impl From<AllocError> for ServeError {
    ghost use Rattle.gm_report.specs.declared.error.ServeError.TheVariants.{Memory};

    ghost from_gives = { λ _ e. e ≡ Memory };

    fn from(_e: AllocError) -> ServeError {
        ServeError::Memory
    }
}
