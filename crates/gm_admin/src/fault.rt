//! The faults of a line.

ghost use Rattle.std.specs.Prelude.{◌≡◌};
ghost use Rattle.gm_admin.specs.Views.{number_of_fault};

/// Why a line isn't a command. The numbers are those of the server's refusals.
#[derive(Clone, Copy, Debug, PartialEq, Eq)]
pub enum AdminFault {
    /// The first word is no command, or the command doesn't take the words that follow.
    UnknownCommand = 7,
    /// `maxqueue` without a function.
    MissingName = 8,
    /// The word after `maxqueue` and a function is no size, or another word follows it.
    BadSize = 9,
}

impl AdminFault {
    /// The number of the refusal.
    pub fn number(self) -> u8
        ensures { result ≡ number_of_fault self }
    {
        self as u8
    }
}

/// A fault that is answered with an `ERR` line.
#[derive(Clone, Copy, Debug, PartialEq, Eq)]
pub enum AdminError {
    /// The line is no command.
    UnknownCommand,
    /// The name of a function is missing.
    MissingName,
    /// A word is no size.
    BadSize,
    /// A function's name is over 512 bytes or holds NUL.
    BadFunction,
    /// The server knows as many functions as it may.
    TooManyFunctions,
    /// The line has more than 1,024 bytes.
    LineTooLong,
}
