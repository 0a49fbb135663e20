//! Requests by which connections describe themselves.

ghost use Rattle.std.specs.Prelude.{◌≡◌, true, codes};
ghost use Rattle.std.specs.Str.{bytes_eq};
ghost use Rattle.gm_conns.specs.ConnTables.{IsOpen};
ghost use Rattle.gm_notes.specs.Past.{with_note};
ghost use Rattle.gm_notes.specs.Requests.{set_option};
ghost use Rattle.gm_notes.specs.declared.note.Note.TheVariants.{Named};

use super::Tables;
use gm_packet::Response;
use std::alloc::AllocError;

impl Tables {
    ghost use Rattle.gm_core.specs.Holds.{Goes, Does};

    /// The connection in a slot names itself.
    pub(super) fn set_client_id(&mut self, slot: u32, id: &[u8]) -> Result<(), AllocError>
        requires { IsOpen self.old.conns slot }
        ensures { Does self.old result self.new (with_note (Named slot id.now)) }
    {
        self.conns.set_id(slot, id)
    }

    /// The connection in a slot sets the option that there is, `exceptions`.
    pub(super) fn set_option(&mut self, slot: u32, name: &[u8]) -> Result<(), AllocError>
        requires open { IsOpen self.old.conns slot }
        requires named { bytes_eq name.now (codes "exceptions") ≡ true }
        ensures { Does self.old result self.new (set_option slot name.now) }
    {
        self.answer(slot, &Response::OptionRes { name }, None)?;
        self.conns.set_option(slot);
        Ok(())
    }
}
