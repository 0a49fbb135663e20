//! The answer to GET_STATUS: a job's status, by its handle.

ghost use Rattle.std.specs.Prelude.{◌≡◌, ◌<◌, ◌≤◌, false, length};
ghost use Rattle.gm_packet.specs.Packets.{has_nul};
ghost use Rattle.gm_notes.specs.Jobs.{job_of_handle};
ghost use Rattle.gm_plain.specs.Holds.{Does};
ghost use Rattle.gm_actions.specs.Effects.{known_told, unknown_told};
ghost use Rattle.gm_notes.specs.Requests.{tell_status};

use super::{PlainServer, response_packet};
use crate::jobs::{job_of_handle, known, place};
use gm_actions::{known_status, unknown_status};
use std::alloc::AllocError;

impl PlainServer {
    /// Tells a slot the status of the job that a handle names.
    pub(super) fn tell_status(&mut self, slot: u32, handle: &[u8]) -> Result<(), AllocError>
        requires slot { slot < self.old.config.slots }
        requires plain { has_nul handle.now ≡ false }
        requires short { length handle.now ≤ 1073741824 }
        ensures { Does self.old result self.new (λ past. tell_status self.old.config slot handle.now (job_of_handle self.old.config handle.now past.notes) past) }
    {
        let Some(job) = job_of_handle(&self.log, &self.config, handle) else {
            return self.tell_unknown(slot, handle);
        };
        if !place(&self.log, job).is_live() {
            return self.tell_unknown(slot, handle);
        }
        self.tell_known(slot, handle, job)
    }

    fn tell_unknown(&mut self, slot: u32, handle: &[u8]) -> Result<(), AllocError>
        requires slot { slot < self.old.config.slots }
        requires plain { has_nul handle.now ≡ false }
        requires short { length handle.now ≤ 1073741824 }
        ensures { Does self.old result self.new (unknown_told slot handle.now) }
    {
        self.give(slot, &unknown_status(handle))
    }

    fn tell_known(&mut self, slot: u32, handle: &[u8], job: u64) -> Result<(), AllocError>
        requires slot { slot < self.old.config.slots }
        requires plain { has_nul handle.now ≡ false }
        requires short { length handle.now ≤ 1073741824 }
        ensures { Does self.old result self.new (λ past. known_told slot handle.now job past) }
    {
        let known = known(&self.log, job);
        let running = known.place.is_running();
        let status = known_status(handle, running, known.report);
        let packet = response_packet(self.alloc, &status)?;
        self.outboxes.give(slot, &packet)
    }
}
