//! The answer to GET_STATUS: a job's status, by its handle.

ghost use Rattle.std.specs.Prelude.{◌≡◌, ℕ, ◌<◌, ◌^◌, codes};
ghost use Rattle.std.specs.Option.{unwrap_or};
ghost use Rattle.gm_conns.specs.ConnTables.{IsOpen};
ghost use Rattle.gm_notes.specs.Jobs.{handle, job_of_handle};
ghost use Rattle.gm_jobs.specs.Live.{AreCarried};
ghost use Rattle.gm_actions.specs.Actions.{IsWord, report_of};
ghost use Rattle.gm_notes.specs.Requests.{tell_status};

use super::Tables;
use super::answering::prepare;
use gm_actions::{Report, known_status, number_in, unknown_status};
use gm_jobs::Job;
use std::alloc::AllocError;

/// How far a job is: a numerator and a denominator, `0` and `0` before the first report.
fn report_of(job: &Job) -> Report<'_>
    ensures value { report_of result ≡ unwrap_or job.now.report (codes "0", codes "0") }
    ensures carried { AreCarried result.numerator.now result.denominator.now }
{
    let (numerator, denominator) = job.report().unwrap_or((b"0", b"0"));
    Report {
        numerator,
        denominator,
    }
}

impl Tables {
    ghost use Rattle.gm_core.specs.Holds.{Does};

    /// Tells a slot the status of the job that a handle names.
    pub(super) fn tell_status(&mut self, slot: u32, handle: &[u8]) -> Result<(), AllocError>
        requires open { IsOpen self.old.conns slot }
        requires word { IsWord handle.now }
        ensures { Does self.old result self.new (λ past. tell_status self.old.config slot handle.now (job_of_handle self.old.config handle.now past.notes) past) }
    {
        match number_in(&self.config, handle) {
            Some(job) => self.tell_numbered(slot, handle, job),
            None => self.answer(slot, &unknown_status(handle), None),
        }
    }

    /// Tells a slot how far the job of the number in a handle is, if it is live.
    fn tell_numbered(&mut self, slot: u32, text: &[u8], job: u64) -> Result<(), AllocError>
        requires open { IsOpen self.old.conns slot }
        requires word { IsWord text.now }
        requires number { text.now ≡ handle self.old.config job }
        ensures { Does self.old result self.new (λ past. tell_status self.old.config slot text.now (job_of_handle self.old.config text.now past.notes) past) }
    {
        let Some(found) = self.jobs.by_number(job) else {
            return self.answer(slot, &unknown_status(text), None);
        };
        let running = found.place().is_running();
        let response = known_status(text, running, report_of(found));
        prepare(&mut self.conns, &mut self.text, slot, &response, None)?;
        self.text.put(&mut self.conns, slot);
        Ok(())
    }
}
