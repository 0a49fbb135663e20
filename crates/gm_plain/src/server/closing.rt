//! Connections that go.

ghost use Rattle.std.specs.Prelude.{◌≡◌, ◌<◌, List, true, IsErrOf};
ghost use Rattle.gm_notes.specs.Settings.{Settings};
ghost use Rattle.gm_notes.specs.Jobs.{job, job_state, made};
ghost use Rattle.gm_notes.specs.JobStates.{is_running_at};
ghost use Rattle.gm_notes.specs.Closings.{discard_one, discard_each, give_back_one, give_back_each, return_or_lose, wake_for, rising};
ghost use Rattle.gm_notes.specs.Steps.{Step, Close};
ghost use Rattle.gm_notes.specs.Servers.{Answers, steps_after};
ghost use Rattle.gm_plain.specs.Holds.{Goes, PlainAgrees, wake_one_for};
ghost use Rattle.gm_notes.specs.declared.event.ApplyError.TheVariants.{Memory};

use super::PlainServer;
use crate::abilities::is_to_wake;
use crate::connections::is_open;
use crate::jobs::{count_made, is_last_try, is_wanted, job_at, place};
use gm_notes::{ApplyError, Done, Note};

impl PlainServer {
    /// The connection in a slot closes, and what waited for it is dropped; its jobs wait again, are lost, or go too. It
    /// needs no memory.
    pub(super) fn close(&mut self, slot: u32) -> Result<Done, ApplyError>
        ensures answers { (k : Settings) (steps : List Step) → PlainAgrees self.old k steps
            → Answers k steps (Close slot) result × PlainAgrees self.new k (steps_after result (Close slot) steps) }
        ensures memory { IsErrOf result Memory → ⊥ }
    {
        if !is_open(&self.log, slot) {
            return Err(ApplyError::NotOpen);
        }
        self.wake_itself(slot);
        self.note(Note::Closed { slot });
        self.empty(slot);
        self.discard_each();
        self.give_back_each(slot);
        Ok(Done::NONE)
    }

    /// A waiting job that nobody wants is discarded.
    fn discard_one(&mut self, job: u64)
        ensures goes { Goes self.old self.new (discard_one job) }
        ensures made { made self.new.log.notes ≡ made self.old.log.notes }
    {
        if place(&self.log, job).is_waiting() && !is_wanted(&self.log, job) {
            self.note(Note::Discarded { job });
        }
    }

    /// The waiting jobs that nobody wants are discarded, in the order of their numbers.
    fn discard_each(&mut self)
        ensures { Goes self.old self.new (λ past. discard_each (rising past) past) }
    {
        for index in 0..count_made(&self.log) {
            let job = job_at(&self.log, index);
            self.discard_one(job);
        }
    }

    /// The worker in a slot is owed a NOOP if it sleeps and can do the job.
    fn wake_one(&mut self, number: u64, slot: u32)
        requires { slot < self.old.config.slots }
        ensures goes { Goes self.old self.new (λ past. wake_one_for (job number past.notes) slot past) }
        ensures made { made self.new.log.notes ≡ made self.old.log.notes }
    {
        if is_to_wake(&self.log, slot, number) {
            self.note(Note::Woken { slot });
        }
    }

    /// Every sleeping worker that can do a job is owed a NOOP.
    pub(super) fn wake(&mut self, number: u64)
        ensures goes { Goes self.old self.new (λ past. wake_for self.old.config (job number past.notes) past) }
        ensures made { made self.new.log.notes ≡ made self.old.log.notes }
    {
        for slot in 0..self.config.slots() {
            self.wake_one(number, slot);
        }
    }

    /// A job that runs at a slot waits again, or is lost if that was its last try.
    fn return_or_lose(&mut self, slot: u32, job: u64)
        requires runs { is_running_at slot (job_state job self.old.log.notes) ≡ true }
        ensures goes { Goes self.old self.new (return_or_lose self.old.config job) }
        ensures made { made self.new.log.notes ≡ made self.old.log.notes }
    {
        if is_last_try(&self.config, &self.log, job) {
            self.note(Note::Lost { job });
        } else {
            self.note(Note::Returned { job });
            self.wake(job);
        }
    }

    /// A job that ran at a slot is given back if it is wanted, and is discarded if not.
    fn give_back_one(&mut self, slot: u32, job: u64)
        ensures goes { Goes self.old self.new (give_back_one self.old.config slot job) }
        ensures made { made self.new.log.notes ≡ made self.old.log.notes }
    {
        if !place(&self.log, job).is_running_at(slot) {
            return;
        }
        if is_wanted(&self.log, job) {
            self.return_or_lose(slot, job);
        } else {
            self.note(Note::Discarded { job });
        }
    }

    /// The jobs that ran at a slot wait again, are lost, or are discarded, in the order of their numbers.
    fn give_back_each(&mut self, slot: u32)
        ensures { Goes self.old self.new (λ past. give_back_each self.old.config slot (rising past) past) }
    {
        for index in 0..count_made(&self.log) {
            let job = job_at(&self.log, index);
            self.give_back_one(slot, job);
        }
    }
}
