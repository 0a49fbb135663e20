//! A server that served.

ghost use Rattle.std.specs.Prelude.{◌≡◌};
ghost use Rattle.gm_slots.specs.Served.{summary_of, served_status};

use crate::account::Account;
use gm_report::{ServeError, Summary};
use gm_shared::{SettleError, Settled};

/// A server that served and ended, with its book as it was settled. Only `settle_slots` makes one.
#[derive(Drop)]
pub struct Served {
    // The settled book, and whether the shares of its connections add up.
    pub(crate) book: Result<Settled, SettleError>,
    // The accounts of the slots' connections, in the slots' order; only proofs know their contents.
    pub(crate) accounts: Vec<Account>,
}

impl Served {
    /// The summary, or why its book couldn't be settled: `Memory`, or `Differs`: the tape differs from the
    /// shares, a slot is still open, or an account lacks an opening or has other limits.
    pub fn summary(&self) -> Result<Summary, ServeError>
        ensures { result ≡ summary_of self.now.book }
    {
        match &self.book {
            Ok(settled) => Ok(Summary {
                connections: settled.openings.total(),
                entries: settled.tape.len() as u64,
            }),
            Err(SettleError::Memory) => Err(ServeError::Memory),
            Err(SettleError::Differs(_)) => Err(ServeError::Differs),
        }
    }

    /// The exit status of a program that served so.
    pub fn status(&self) -> u8
        ensures { result ≡ served_status self.now }
    {
        match self.summary() {
            Ok(_) => 0,
            Err(error) => error.status(),
        }
    }
}
