//! The arguments of a program.

ghost use Rattle.std.specs.Prelude.{◌≡◌};
ghost use Rattle.gm_options.specs.declared.program.ArgumentsError.TheVariants.{Memory};

use std::alloc::AllocError;
use std::env::Env;
use std::{env, io};

/// Why a program can't get its arguments.
#[derive(Clone, Copy, Debug, PartialEq, Eq)]
pub enum ArgumentsError {
    /// One of them isn't text, or the system doesn't say what they are.
    NotText,
    /// There is no memory for them.
    Memory,
}

impl ArgumentsError {
    ghost use Rattle.gm_options.specs.Statuses.{arguments_status, arguments_text};

    /// The status that a program ends with for it.
    pub fn status(self) -> u8
        ensures { result ≡ arguments_status self }
    {
        match self {
            ArgumentsError::NotText => 2,
            ArgumentsError::Memory => 3,
        }
    }

    /// A program's message about it.
    pub fn text(self) -> &'static str
        ensures { result.now ≡ arguments_text self }
    {
        match self {
            ArgumentsError::NotText => "invalid arguments: not text",
            ArgumentsError::Memory => "out of memory",
        }
    }
}

impl From<AllocError> for ArgumentsError {
    ghost from_gives = { λ _ e. e ≡ Memory };

    fn from(_e: AllocError) -> ArgumentsError {
        ArgumentsError::Memory
    }
}

impl From<io::Error> for ArgumentsError {
    ghost use Rattle.std.specs.IoError.{error_kind};
    ghost use Rattle.gm_options.specs.Statuses.{arguments_error};

    ghost from_gives = { λ error e. e ≡ arguments_error (error_kind error) };

    fn from(error: io::Error) -> ArgumentsError {
        match error.kind() {
            io::ErrorKind::OutOfMemory => ArgumentsError::Memory,
            _ => ArgumentsError::NotText,
        }
    }
}

/// The arguments of the program, the first of which is its name.
pub fn arguments<R: Env + AllocGlobal>(rt: &R) -> Result<Vec<String>, ArgumentsError> {
    Ok(env::args(rt)?.collect(rt.alloc())?)
}
