//! Requests as they come.

ghost use Rattle.std.specs.Prelude.{◌≡◌, ◌<◌, ◌≤◌, true, codes, length};
ghost use Rattle.std.specs.Str.{bytes_eq};
ghost use Rattle.gm_packet.specs.Kinds.{kind_of};
ghost use Rattle.gm_plain.specs.Holds.{Does};
ghost use Rattle.gm_notes.specs.Past.{with_note};
ghost use Rattle.gm_notes.specs.Requests.{packet_of, set_option};
ghost use Rattle.gm_notes.specs.declared.note.Note.TheVariants.{Named};
ghost use Rattle.gm_actions.specs.Actions.{act, HasGoodNames, CanBeTold};

use super::PlainServer;
use gm_actions::Action;
use gm_bytes::Data;
use gm_notes::{Note, Text};
use gm_packet::Response;
use std::alloc::AllocError;

impl PlainServer {
    /// Does what a packet of a slot asks.
    pub(super) fn read(&mut self, slot: u32, kind: u32, bytes: &[u8]) -> Result<(), AllocError>
        requires slot { slot < self.old.config.slots }
        requires size { length bytes.now ≤ 1073741824 }
        ensures { Does self.old result self.new (packet_of self.old.config slot (kind_of kind) bytes.now) }
    {
        match Action::read(kind, &Data::lent(bytes)) {
            Ok(action) => self.act(slot, &action),
            Err(refusal) => self.refuse(slot, refusal),
        }
    }

    /// Does what is asked of a slot.
    fn act(&mut self, slot: u32, action: &Action<'_>) -> Result<(), AllocError>
        requires slot { slot < self.old.config.slots }
        requires named { HasGoodNames action.now }
        requires told { CanBeTold action.now }
        ensures { Does self.old result self.new (act self.old.config slot action.now) }
    {
        match *action {
            Action::CanDo { function, timeout } => self.can_do(slot, function, timeout),
            Action::CantDo { function } => self.cant_do(slot, function),
            Action::ResetAbilities => self.reset(slot),
            Action::PreSleep => self.pre_sleep(slot),
            Action::Grab { with_unique } => self.grab(slot, with_unique),
            Action::Submit(asked) => self.submit(slot, &asked),
            Action::Work(packet) => self.work(slot, &packet),
            Action::GetStatus { handle } => self.tell_status(slot, handle),
            Action::Echo { body } => {
                let body = body.as_slice();
                self.give(slot, &Response::EchoRes { body })
            }
            Action::SetClientId { id } => self.set_client_id(slot, id),
            Action::SetOption { name } => self.set_option(slot, name),
            Action::Nothing => Ok(()),
        }
    }

    /// The connection in a slot names itself.
    fn set_client_id(&mut self, slot: u32, id: &[u8]) -> Result<(), AllocError>
        ensures { Does self.old result self.new (with_note (Named slot id.now)) }
    {
        let id = Text::copy_of(self.alloc, id)?;
        self.make_room(1)?;
        self.note(Note::Named { slot, id });
        Ok(())
    }

    /// The connection in a slot sets the option that there is, `exceptions`.
    fn set_option(&mut self, slot: u32, name: &[u8]) -> Result<(), AllocError>
        requires slot { slot < self.old.config.slots }
        requires named { bytes_eq name.now (codes "exceptions") ≡ true }
        ensures { Does self.old result self.new (set_option slot name.now) }
    {
        self.make_room(1)?;
        self.give(slot, &Response::OptionRes { name })?;
        self.note(Note::OptionSet { slot });
        Ok(())
    }
}
