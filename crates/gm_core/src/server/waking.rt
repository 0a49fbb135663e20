//! Sleeping workers that are woken for a job.

ghost use Rattle.std.specs.Prelude.{◌<◌, length};
ghost use Rattle.gm_notes.specs.Past.{wake};
ghost use Rattle.gm_core.specs.Holds.{name_at};

use super::Tables;
use gm_notes::Phase;

impl Tables {
    ghost use Rattle.gm_core.specs.Holds.{Goes};

    /// Every sleeping worker that can do a function is owed a NOOP.
    pub(super) fn wake(&mut self, f: u32)
        requires { f < length self.old.functions.names }
        ensures { Goes self.old self.new (wake self.old.config (name_at self.old.functions.names f)) }
    {
        // Modelled in models/jobs.pml.
        let mut from = 0;
        while let Some(slot) = self.conns.next_sleeper(f, from) {
            self.conns.set_phase(slot, Phase::Owed);
            from = slot + 1;
        }
    }
}
