//! Text lines as they come.

ghost use Rattle.std.specs.Prelude.{◌≡◌, ◌==◌, ℕ, IfOk};
ghost use Rattle.std.specs.List.{list_any};
ghost use Rattle.gm_admin.specs.Commands.{command_of};
ghost use Rattle.gm_admin.specs.Views.{commanded_of};
ghost use Rattle.gm_notes.specs.Settings.{Settings};
ghost use Rattle.gm_notes.specs.Past.{Past};
ghost use Rattle.gm_notes.specs.Lines.{command, maxqueue, fault_error, is_bad_word};
ghost use Rattle.gm_actions.specs.Lines.{obeyed, NamesFunction};

use gm_admin::{AdminError, AdminFault, Command};
use gm_notes::MAX_NAME;

/// The answer to a line that isn't a command.
fn error_of(fault: AdminFault) -> AdminError
    ensures { result ≡ fault_error fault }
{
    match fault {
        AdminFault::UnknownCommand => AdminError::UnknownCommand,
        AdminFault::MissingName => AdminError::MissingName,
        AdminFault::BadSize => AdminError::BadSize,
    }
}

/// Whether a NUL is among the bytes.
fn has_nul(bytes: &[u8]) -> bool
    ensures { result ≡ list_any (λ b. b == 0) bytes.now }
{
    bytes.iter().any(|b| *b == 0)
}

/// Whether a word can't be a function's name: it is too long, or has a NUL.
fn is_bad_word(word: &[u8]) -> bool
    ensures { result ≡ is_bad_word word.now }
{
    word.len() > MAX_NAME || has_nul(word)
}

/// The limit of a function, unless the word can't be one's name.
fn limit<'a>(name: &'a [u8], size: u32) -> Result<Command<'a>, AdminError>
    ensures does { (k : Settings) (c : ℕ) (past : Past) → obeyed k c result past ≡ maxqueue k c name.now size past }
    ensures named { IfOk result NamesFunction }
{
    if is_bad_word(name) {
        Err(AdminError::BadFunction)
    } else {
        Ok(Command::MaxQueue { name, size })
    }
}

/// The command of a text line, or why it is refused whatever the server holds.
pub fn read_line<'a>(line: &'a [u8]) -> Result<Command<'a>, AdminError>
    ensures does { (k : Settings) (c : ℕ) (past : Past) → obeyed k c result past ≡ command k c (command_of line.now) past }
    ensures named { IfOk result NamesFunction }
{
    match Command::read(line) {
        Ok(Command::MaxQueue { name, size }) => limit(name, size),
        Ok(asked) => Ok(asked),
        Err(fault) => Err(error_of(fault)),
    }
}
