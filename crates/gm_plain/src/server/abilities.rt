//! The workers' abilities, and their sleep.

ghost use Rattle.std.specs.Prelude.{◌≡◌, ◌<◌, false};
ghost use Rattle.gm_notes.specs.Submissions.{is_bad_name};
ghost use Rattle.gm_notes.specs.Past.{with_note};
ghost use Rattle.gm_plain.specs.Holds.{Does};
ghost use Rattle.gm_notes.specs.Workers.{add_ability, can_do, cant_do, pre_sleep};
ghost use Rattle.gm_notes.specs.declared.note.Note.TheVariants.{Reset};

use super::PlainServer;
use crate::abilities::{pick, wakes_at_once};
use crate::connections::seen;
use crate::function_facts::is_one_too_many;
use gm_actions::Refusal;
use gm_notes::{Note, Text};
use std::alloc::AllocError;

impl PlainServer {
    /// The worker in a slot can do a function.
    pub(super) fn can_do(
        &mut self,
        slot: u32,
        function: &[u8],
        timeout: u32,
    ) -> Result<(), AllocError>
        requires slot { slot < self.old.config.slots }
        requires named { is_bad_name function.now ≡ false }
        ensures { Does self.old result self.new (can_do self.old.config slot function.now timeout) }
    {
        if is_one_too_many(&self.log, &self.config, function) {
            return self.refuse(slot, Refusal::TooManyFunctions);
        }
        self.add_ability(slot, function, timeout)
    }

    fn add_ability(&mut self, slot: u32, function: &[u8], timeout: u32) -> Result<(), AllocError>
        requires { slot < self.old.config.slots }
        ensures { Does self.old result self.new (add_ability slot function.now timeout) }
    {
        let wakes = wakes_at_once(self.alloc, &self.log, slot, function)?;
        let mention = Text::copy_of(self.alloc, function)?;
        let function = Text::copy_of(self.alloc, function)?;
        self.make_room(2)?;
        self.mention(mention);
        self.note(Note::Can {
            slot,
            function,
            timeout,
        });
        if wakes {
            self.note(Note::Woken { slot });
        }
        Ok(())
    }

    /// The worker in a slot can't do a function any longer.
    pub(super) fn cant_do(&mut self, slot: u32, function: &[u8]) -> Result<(), AllocError>
        requires slot { slot < self.old.config.slots }
        requires named { is_bad_name function.now ≡ false }
        ensures { Does self.old result self.new (cant_do slot function.now) }
    {
        let function = Text::copy_of(self.alloc, function)?;
        self.make_room(1)?;
        self.note(Note::Cant { slot, function });
        Ok(())
    }

    /// The worker in a slot can do nothing any longer.
    pub(super) fn reset(&mut self, slot: u32) -> Result<(), AllocError>
        ensures { Does self.old result self.new (with_note (Reset slot)) }
    {
        self.make_room(1)?;
        self.note(Note::Reset { slot });
        Ok(())
    }

    /// The worker in a slot wants to sleep; if a job waits that it can do, it is woken at once.
    pub(super) fn pre_sleep(&mut self, slot: u32) -> Result<(), AllocError>
        requires { slot < self.old.config.slots }
        ensures { Does self.old result self.new (pre_sleep self.old.config slot) }
    {
        if !seen(&self.log, slot).phase.is_awake() {
            return Ok(());
        }
        let beside = pick(self.alloc, &self.log, &self.config, slot)?.is_some();
        self.make_room(3)?;
        self.note(Note::Slept { slot });
        if beside {
            self.note(Note::Woken { slot });
        }
        Ok(())
    }
}
