//! Connections that are opened, and their faults.

ghost use Rattle.std.specs.Prelude.{List};
ghost use Rattle.gm_notes.specs.Settings.{Settings};
ghost use Rattle.gm_notes.specs.Steps.{Step, Open, Fault};
ghost use Rattle.gm_notes.specs.Servers.{Answers, steps_after};

use super::Tables;
use gm_actions::append_fault;
use gm_notes::{ApplyError, Done, UnitFault};

impl Tables {
    ghost use Rattle.gm_core.specs.Holds.{Goes, AllTouched, CoreAgrees};

    /// A connection from this address is given the least slot that isn't open.
    pub(super) fn open(&mut self, addr: &[u8]) -> Result<Done, ApplyError>
        ensures answers { (k : Settings) (steps : List Step) → CoreAgrees self.old k steps
            → Answers k steps (Open addr.now) result × CoreAgrees self.new k (steps_after result (Open addr.now) steps) }
        ensures touched { AllTouched self.old.conns self.new.conns }
    {
        if !self.mode.accepts_connections() {
            return Err(ApplyError::Refusing);
        }
        let slot = self.conns.open(addr)?;
        Ok(Done {
            opened: Some(slot),
            ..Done::NONE
        })
    }

    /// A slot's stream can't be read any further: the slot is answered why, and takes no more units.
    pub(super) fn fault(&mut self, slot: u32, fault: UnitFault) -> Result<Done, ApplyError>
        ensures answers { (k : Settings) (steps : List Step) → CoreAgrees self.old k steps
            → Answers k steps (Fault slot fault) result × CoreAgrees self.new k (steps_after result (Fault slot fault) steps) }
        ensures touched { AllTouched self.old.conns self.new.conns }
    {
        if !self.can_take_units(slot) {
            return Err(ApplyError::NotOpen);
        }
        let mut text = Vec::new(self.alloc);
        append_fault(fault, &mut text)?;
        self.say(slot, text)?;
        self.conns.shut_down(slot);
        Ok(Done::NONE)
    }
}
