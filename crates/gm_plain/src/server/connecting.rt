//! Connections that come, their units, and the NOOPs that they are owed.

ghost use Rattle.std.specs.Prelude.{◌≡◌, ◌<◌, ◌≤◌, List, Some, None, true, length, MatchResult, OnOk};
ghost use Rattle.gm_notes.specs.Settings.{Settings};
ghost use Rattle.gm_notes.specs.Notes.{phase, is_owed};
ghost use Rattle.gm_notes.specs.Steps.{Step, Open, Packet, Fault, if_owed};
ghost use Rattle.gm_notes.specs.Servers.{Answers, steps_after};
ghost use Rattle.gm_plain.specs.Holds.{PlainAgrees};

use super::PlainServer;
use crate::connections::{can_take_units, free_slot, mode, seen};
use crate::jobs::{count_made, newest};
use gm_actions::append_fault;
use gm_notes::{ApplyError, Done, Note, Text, UnitFault};

impl PlainServer {
    /// A connection is given the least slot that isn't open.
    pub(super) fn open(&mut self, addr: &[u8]) -> Result<Done, ApplyError>
        ensures { (k : Settings) (steps : List Step) → PlainAgrees self.old k steps
            → Answers k steps (Open addr.now) result × PlainAgrees self.new k (steps_after result (Open addr.now) steps) }
    {
        if !mode(&self.log).accepts_connections() {
            return Err(ApplyError::Refusing);
        }
        let Some(slot) = free_slot(&self.log) else {
            return Err(ApplyError::NoSlot);
        };
        let addr = Text::copy_of(self.alloc, addr)?;
        self.make_room(2)?;
        self.note(Note::Opened { slot, addr });
        self.empty(slot);
        Ok(Done {
            opened: Some(slot),
            ..Done::NONE
        })
    }

    pub(super) fn packet(&mut self, slot: u32, kind: u32, bytes: &[u8]) -> Result<Done, ApplyError>
        requires { length bytes.now ≤ 1073741824 }
        ensures { (k : Settings) (steps : List Step) → PlainAgrees self.old k steps
            → Answers k steps (Packet slot kind bytes.now) result × PlainAgrees self.new k (steps_after result (Packet slot kind bytes.now) steps) }
    {
        if !can_take_units(&self.log, slot) {
            return Err(ApplyError::NotOpen);
        }
        let before = count_made(&self.log);
        self.read(slot, kind, bytes)?;
        let created = if count_made(&self.log) == before {
            None
        } else {
            newest(&self.log)
        };
        Ok(Done {
            created,
            ..Done::NONE
        })
    }

    pub(super) fn fault(&mut self, slot: u32, fault: UnitFault) -> Result<Done, ApplyError>
        ensures { (k : Settings) (steps : List Step) → PlainAgrees self.old k steps
            → Answers k steps (Fault slot fault) result × PlainAgrees self.new k (steps_after result (Fault slot fault) steps) }
    {
        if !can_take_units(&self.log, slot) {
            return Err(ApplyError::NotOpen);
        }
        let mut text = Vec::new(self.alloc);
        append_fault(fault, &mut text)?;
        self.make_room(1)?;
        self.say(slot, &text)?;
        self.note(Note::Shut { slot });
        Ok(Done::NONE)
    }

    /// Whether the slot is open and owed a NOOP; why not, if it isn't.
    pub(super) fn check_owed(&self, slot: u32) -> Result<(), ApplyError>
        ensures value { MatchResult result (λ _. if_owed slot self.now.log.notes ≡ None) (λ refused. if_owed slot self.now.log.notes ≡ Some refused) }
        ensures below { OnOk result (slot < self.now.config.slots) }
        ensures owed { OnOk result (is_owed (phase slot self.now.log.notes) ≡ true) }
    {
        let seen = seen(&self.log, slot);
        if !seen.is_open {
            return Err(ApplyError::NotOpen);
        }
        if !seen.phase.is_owed() {
            return Err(ApplyError::NotOwed);
        }
        Ok(())
    }
}
