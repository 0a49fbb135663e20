//! A book that threads don't share yet.

ghost use Rattle.std.specs.Prelude.{◌≡◌, IfOk};

use crate::book::Booked;
use crate::history::{History, Keeper};
use crate::tape::TapeMode;
use gm_notes::Config;
use gm_word::{PenSeat, SleepTable};
use std::alloc::{AllocError, Global};
use std::hash::RandomState;
use std::marker::Model;

/// The book of a server to which nothing has happened, with its sleep words. `Shared::open` makes of it what threads
/// share. Contracts see which table and which history it has, its settings, and whether it keeps a tape.
#[derive(Drop)]
pub struct Blank {
    pub(crate) table: SleepTable,
    pub(crate) history: History,
    pub(crate) keeper: Keeper,
    pub(crate) booked: Booked,
    pub(crate) seats: Vec<PenSeat>,
    pub(crate) slots: u32,
    pub(crate) as_gearmand: bool,
}

impl Model for Blank {
    ghost use Rattle.std.specs.Prelude.{◌≡◌};
    ghost use Rattle.gm_core.specs.Holds.{config_of};
    ghost use Rattle.gm_shared.specs.Shared.{BlankState, IsBlank, IsNew};

    ghost Value = { BlankState };

    ghost view = { λ b. record { table = b.table; history = b.history; settings = config_of b.booked.core; taped = b.booked.tape.on } };

    ghost invariant = { λ b. IsBlank b.table (config_of b.booked.core) b.slots b.booked b.seats.items × IsNew b.history b.keeper
        × (b.as_gearmand ≡ (config_of b.booked.core).as_gearmand) };
}

impl Blank {
    ghost use Rattle.gm_shared.specs.Tapes.{is_on};

    /// The book of a new server under these settings, with a tape if that is asked. Names and ids come from
    /// strangers, so its tables hash with this seed.
    pub fn new(
        alloc: Global,
        seed: RandomState,
        config: Config,
        tape: TapeMode,
    ) -> Result<Blank, AllocError>
        ensures settings { IfOk result (λ blank. blank.settings ≡ config) }
        ensures taped { IfOk result (λ blank. blank.taped ≡ is_on tape) }
    {
        let slots = config.slots();
        let as_gearmand = config.as_gearmand();
        let (booked, table, seats) = Booked::new(alloc, seed, config, tape)?;
        let (history, keeper) = History::new(alloc)?;
        Ok(Blank {
            table,
            history,
            keeper,
            booked,
            seats,
            slots,
            as_gearmand,
        })
    }

    /// How many slots the book has.
    pub fn slots(&self) -> u32
        ensures { result ≡ self.now.settings.slots }
    {
        self.slots
    }
}
