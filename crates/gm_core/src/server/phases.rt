//! The phase of a connection: whether it takes units, whether its worker sleeps, and whether it is owed a NOOP.

ghost use Rattle.std.specs.Prelude.{◌≡◌, Some, None, IsTrue, OnOk, MatchResult};
ghost use Rattle.gm_conns.specs.ConnTables.{IsOpen};
ghost use Rattle.gm_notes.specs.Notes.{takes_units};
ghost use Rattle.gm_notes.specs.Past.{Past};
ghost use Rattle.gm_notes.specs.Steps.{if_owed};
ghost use Rattle.gm_notes.specs.Workers.{wake_itself};

use super::Tables;
use gm_notes::{ApplyError, Phase};

impl Tables {
    ghost use Rattle.gm_core.specs.Holds.{Keeps, Goes};

    /// Whether a slot takes units.
    pub(super) fn can_take_units(&self, slot: u32) -> bool
        ensures value { (past : Past) → Keeps self.now past → result ≡ takes_units slot past.notes }
        ensures open { IsTrue result → IsOpen self.now.conns slot }
    {
        self.conns.is_open(slot) && !self.conns.is_shut(slot)
    }

    /// A sleeping worker awakes by itself. It needs no memory.
    pub(super) fn wake_itself(&mut self, slot: u32)
        requires { IsOpen self.old.conns slot }
        ensures goes { Goes self.old self.new (wake_itself slot) }
        ensures open { IsOpen self.new.conns slot }
        ensures functions { self.new.functions ≡ self.old.functions }
        ensures jobs { self.new.jobs ≡ self.old.jobs }
        ensures moment { self.new.moment ≡ self.old.moment }
    {
        if self.conns.phase(slot).is_asleep() {
            self.conns.set_phase(slot, Phase::Awake);
        }
    }

    /// Whether the slot is open and owed a NOOP; why not, if it isn't.
    pub(super) fn check_owed(&self, slot: u32) -> Result<(), ApplyError>
        ensures value { (past : Past) → Keeps self.now past
            → MatchResult result (λ _. if_owed slot past.notes ≡ None) (λ refused. if_owed slot past.notes ≡ Some refused) }
        ensures open { OnOk result (IsOpen self.now.conns slot) }
    {
        if !self.conns.is_open(slot) {
            return Err(ApplyError::NotOpen);
        }
        if !self.conns.phase(slot).is_owed() {
            return Err(ApplyError::NotOwed);
        }
        Ok(())
    }
}
