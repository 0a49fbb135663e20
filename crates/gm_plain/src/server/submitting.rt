//! Submissions.

ghost use Rattle.std.specs.Prelude.{◌≡◌, ℕ, ◌<◌, ◌≤◌, None, Some, false};
ghost use Rattle.gm_packet.specs.Answers.{job_created};
ghost use Rattle.gm_notes.specs.Notes.{phase};
ghost use Rattle.gm_notes.specs.Jobs.{handle, next_number, made};
ghost use Rattle.gm_plain.specs.Logs.{Spends};
ghost use Rattle.gm_actions.specs.Actions.{submission_of};
ghost use Rattle.gm_actions.specs.Carried.{IsCarried};
ghost use Rattle.gm_notes.specs.Past.{give, with_mention};
ghost use Rattle.gm_plain.specs.Holds.{Goes, Does};
ghost use Rattle.gm_notes.specs.Submissions.{is_bad_name, keep_or_listen, make, join_or_make, submit};

use super::PlainServer;
use crate::function_facts::{is_full, is_mentioned, is_one_too_many};
use crate::jobs::{joined, next_number};
use gm_actions::{Refusal, Submission, handle};
use gm_notes::{Note, Text};
use gm_packet::Response;
use std::alloc::AllocError;

impl PlainServer {
    /// Joins a job, or makes one.
    pub(super) fn submit(&mut self, slot: u32, asked: &Submission<'_>) -> Result<(), AllocError>
        requires slot { slot < self.old.config.slots }
        requires named { is_bad_name asked.now.function.now ≡ false }
        requires carried { IsCarried asked.now.function.now asked.now.unique.now asked.now.body.bytes.now }
        ensures { Does self.old result self.new (submit self.old.config slot (submission_of asked.now)) }
    {
        match joined(&self.log, asked.function, asked.unique) {
            Some(job) => self.join(slot, asked, job),
            None => self.make_new(slot, asked),
        }
    }

    fn join(&mut self, slot: u32, asked: &Submission<'_>, job: u64) -> Result<(), AllocError>
        requires slot { slot < self.old.config.slots }
        ensures { Does self.old result self.new (join_or_make self.old.config slot (submission_of asked.now) (Some job)) }
    {
        self.make_room(1)?;
        self.give_created(slot, job)?;
        self.keep_or_listen(slot, asked, job);
        Ok(())
    }

    fn make_new(&mut self, slot: u32, asked: &Submission<'_>) -> Result<(), AllocError>
        requires slot { slot < self.old.config.slots }
        requires carried { IsCarried asked.now.function.now asked.now.unique.now asked.now.body.bytes.now }
        ensures { Does self.old result self.new (join_or_make self.old.config slot (submission_of asked.now) None) }
    {
        if is_one_too_many(&self.log, &self.config, asked.function) {
            return self.refuse(slot, Refusal::TooManyFunctions);
        }
        if is_full(&self.log, asked.function) {
            return self.refuse(slot, Refusal::QueueFull);
        }
        match next_number(&self.log, &self.config) {
            Some(job) => self.make(slot, asked, job),
            None => self.refuse(slot, Refusal::NoNumbers),
        }
    }

    fn make(&mut self, slot: u32, asked: &Submission<'_>, job: u64) -> Result<(), AllocError>
        requires slot { slot < self.old.config.slots }
        requires carried { IsCarried asked.now.function.now asked.now.unique.now asked.now.body.bytes.now }
        requires number { next_number self.old.config self.old.log.notes ≡ Some job }
        ensures { Does self.old result self.new (make self.old.config slot (submission_of asked.now) (Some job)) }
    {
        let mention = Text::copy_of(self.alloc, asked.function)?;
        let function = Text::copy_of(self.alloc, asked.function)?;
        let unique = Text::copy_of(self.alloc, asked.unique)?;
        let body = Text::copy_of(self.alloc, asked.body.as_slice())?;
        self.make_room(4)?;
        self.give_created(slot, job)?;
        self.mention(mention);
        self.note(Note::Made {
            job,
            function,
            priority: asked.priority,
            unique,
            body,
        });
        self.keep_or_listen(slot, asked, job);
        self.wake(job);
        Ok(())
    }

    fn give_created(&mut self, slot: u32, job: u64) -> Result<(), AllocError>
        requires { slot < self.old.config.slots }
        ensures does { Does self.old result self.new (give slot (job_created (handle self.old.config job))) }
        ensures log { self.new.log ≡ self.old.log }
    {
        let handle = handle(self.alloc, &self.config, job)?;
        self.give(slot, &Response::JobCreated { handle: &handle })
    }

    /// The function is mentioned, if it wasn't. There is room for a note.
    pub(super) fn mention(&mut self, function: Text)
        requires { 1 ≤ self.old.log.free }
        ensures goes { Goes self.old self.new (with_mention function) }
        ensures room { Spends 1 self.old.log self.new.log }
        ensures made { made self.new.log.notes ≡ made self.old.log.notes }
        ensures phases { (c : ℕ) → phase c self.new.log.notes ≡ phase c self.old.log.notes }
    {
        if !is_mentioned(&self.log, function.as_slice()) {
            self.note(Note::Mention { function });
        }
    }

    /// A background submission keeps the job, another listens to it. There is room for a note.
    fn keep_or_listen(&mut self, slot: u32, asked: &Submission<'_>, job: u64)
        requires slot { slot < self.old.config.slots }
        requires room { 1 ≤ self.old.log.free }
        ensures { Goes self.old self.new (keep_or_listen slot (submission_of asked.now) job) }
    {
        if asked.background {
            self.note(Note::Kept { job });
        } else {
            self.note(Note::Listens { job, slot });
        }
    }
}
