//! Time that goes on.

ghost use Rattle.std.specs.Prelude.{◌≡◌, List, OnOk};
ghost use Rattle.gm_notes.specs.Settings.{Settings};
ghost use Rattle.gm_notes.specs.Jobs.{made};
ghost use Rattle.gm_notes.specs.Closings.{expire_one, expire_each, rising};
ghost use Rattle.gm_notes.specs.Steps.{Step, Tick};
ghost use Rattle.gm_notes.specs.Servers.{Answers, steps_after};
ghost use Rattle.gm_plain.specs.Holds.{Goes, Does, Grew, PlainAgrees};

use super::PlainServer;
use crate::connections::moment;
use crate::jobs::{count_made, is_late, job_at, listeners, place};
use gm_actions::handle;
use gm_notes::{ApplyError, Done, Note};
use gm_packet::Response;
use std::alloc::AllocError;

impl PlainServer {
    /// The moment is this one, or stays if this one is past; running jobs whose deadline is reached have failed. Out of
    /// memory, it takes back all that came since.
    pub(super) fn tick(&mut self, now: u64) -> Result<Done, ApplyError>
        ensures { (k : Settings) (steps : List Step) → PlainAgrees self.old k steps
            → Answers k steps (Tick now) result × PlainAgrees self.new k (steps_after result (Tick now) steps) }
    {
        let notes = self.log.len();
        let outboxes = self.outboxes.copy(self.alloc)?;
        self.make_room(1)?;
        let moment = now.max(moment(&self.log));
        self.note(Note::Now { moment });
        match self.expire_each() {
            Ok(()) => Ok(Done::NONE),
            Err(_) => {
                self.log.truncate(notes);
                self.outboxes = outboxes;
                Err(ApplyError::Memory)
            }
        }
    }

    /// A running job whose deadline is reached has failed; its listeners get WORK_FAIL, and its worker nothing.
    fn expire_one(&mut self, job: u64) -> Result<(), AllocError>
        ensures does { Does self.old result self.new (expire_one self.old.config job) }
        ensures made { made self.new.log.notes ≡ made self.old.log.notes }
        ensures grew { Grew self.old self.new }
    {
        if !place(&self.log, job).is_running() || !is_late(&self.log, job) {
            return Ok(());
        }
        let slots = listeners(self.alloc, &self.log, job)?;
        let handle = handle(self.alloc, &self.config, job)?;
        self.give_all(&slots, &Response::WorkFail { handle: &handle })?;
        self.note(Note::Ended { job });
        Ok(())
    }

    /// The running jobs whose deadline is reached have failed, in the order of their numbers. Out of memory,
    /// only the first of them have.
    fn expire_each(&mut self) -> Result<(), AllocError>
        ensures goes { OnOk result (Goes self.old self.new (λ past. expire_each self.old.config (rising past) past)) }
        ensures grew { Grew self.old self.new }
    {
        for index in 0..count_made(&self.log) {
            let job = job_at(&self.log, index);
            self.expire_one(job)?;
        }
        Ok(())
    }
}
