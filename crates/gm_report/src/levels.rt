//! Levels of messages, for the journal.

use std::env::{Env, FillError};

/// Whether messages begin with their level, as sd-daemon(3) has it: `<3>` for an error, `<4>` for a warning.
#[derive(Clone, Copy, Debug, PartialEq, Eq)]
pub enum Levels {
    /// Each line is written as it is.
    Unsaid,
    /// The journal reads the messages: `journalctl -p warning` shows errors and warnings.
    Journal,
}

impl Levels {
    /// With levels if systemd says that the journal reads the service's messages (`JOURNAL_STREAM`, systemd.exec(5)).
    pub fn of_environment(rt: &impl Env) -> Levels {
        let mut place = [0; 64];
        match rt.var("JOURNAL_STREAM", &mut place) {
            Ok(_) | Err(FillError::TooLong) => Levels::Journal,
            Err(FillError::NotPresent) => Levels::Unsaid,
        }
    }

    /// The beginning of a warning: its level, or nothing.
    pub(crate) fn warning(self) -> &'static str {
        match self {
            Levels::Unsaid => "",
            Levels::Journal => "<4>",
        }
    }

    /// The beginning of an error: its level, or nothing.
    pub fn error(self) -> &'static str {
        match self {
            Levels::Unsaid => "",
            Levels::Journal => "<3>",
        }
    }
}
