//! Reads the command of a line.

ghost use Rattle.std.specs.Prelude.{◌≡◌};
ghost use Rattle.gm_admin.specs.Commands.{words_of, command_of, maxqueue_of, shutdown_of};
ghost use Rattle.gm_admin.specs.Views.{commanded_result};

use crate::fault::AdminFault;
use crate::sizes::size;
use crate::words::{is_word, next_word};

/// A command of gearmand(8)'s administrative protocol.
#[derive(Clone, Copy, Debug, PartialEq, Eq)]
pub enum Command<'a> {
    /// Lists the functions with their jobs.
    Status,
    /// Lists the connections with the functions that they can do.
    Workers,
    /// Limits the jobs, waiting and running, of a function; a size of 0 is no limit.
    MaxQueue { name: &'a [u8], size: u32 },
    /// Asks for the server's version.
    Version,
    /// Ends the server: at once, or gracefully when its connections have closed.
    Shutdown { graceful: bool },
}

/// The command of `maxqueue` and the words that follow.
fn read_maxqueue(rest: &[u8]) -> Result<Command<'_>, AdminFault>
    ensures { commanded_result result ≡ maxqueue_of (words_of rest.now) }
{
    let Some((name, rest)) = next_word(rest) else {
        return Err(AdminFault::MissingName);
    };
    let Some((digits, rest)) = next_word(rest) else {
        return Ok(Command::MaxQueue { name, size: 0 });
    };
    if next_word(rest).is_some() {
        return Err(AdminFault::BadSize);
    }
    match size(digits) {
        Some(size) => Ok(Command::MaxQueue { name, size }),
        None => Err(AdminFault::BadSize),
    }
}

/// The command of `shutdown` and the words that follow.
fn read_shutdown(rest: &[u8]) -> Result<Command<'_>, AdminFault>
    ensures { commanded_result result ≡ shutdown_of (words_of rest.now) }
{
    let Some((word, rest)) = next_word(rest) else {
        return Ok(Command::Shutdown { graceful: false });
    };
    if next_word(rest).is_some() || !is_word(word, b"graceful") {
        return Err(AdminFault::UnknownCommand);
    }
    Ok(Command::Shutdown { graceful: true })
}

impl<'a> Command<'a> {
    /// Reads a line, without its newline. Spaces and tabs separate its words, and the case of a command's
    /// ASCII letters doesn't matter. `status`, `workers` and `version` ignore the words that follow them.
    ///
    /// `UnknownCommand` is returned if there is no word or no such command, and for `shutdown` with other words than
    /// `graceful`; `MissingName` for `maxqueue` alone; and `BadSize` for `maxqueue` if the size isn't 1 to 10 digits
    /// with a value that fits 32 bits, after a minus or not, or is followed by a word. It takes no memory.
    pub fn read(line: &'a [u8]) -> Result<Command<'a>, AdminFault>
        ensures { commanded_result result ≡ command_of line.now }
    {
        let Some((word, rest)) = next_word(line) else {
            return Err(AdminFault::UnknownCommand);
        };
        if is_word(word, b"status") {
            Ok(Command::Status)
        } else if is_word(word, b"workers") {
            Ok(Command::Workers)
        } else if is_word(word, b"maxqueue") {
            read_maxqueue(rest)
        } else if is_word(word, b"version") {
            Ok(Command::Version)
        } else if is_word(word, b"shutdown") {
            read_shutdown(rest)
        } else {
            Err(AdminFault::UnknownCommand)
        }
    }
}
