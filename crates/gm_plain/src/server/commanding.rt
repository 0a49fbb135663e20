//! The administrators' commands in text lines.

ghost use Rattle.std.specs.Prelude.{◌≡◌, ◌<◌, ◌≤◌, true, false, List, Ok};
ghost use Rattle.gm_admin.specs.Answers.{status_text, workers_text, ok_text, version_text};
ghost use Rattle.gm_admin.specs.Commands.{command_of};
ghost use Rattle.gm_admin.specs.Views.{commanded_of};
ghost use Rattle.gm_notes.specs.Settings.{Settings};
ghost use Rattle.gm_notes.specs.Notes.{slots_from};
ghost use Rattle.gm_notes.specs.Past.{with_output};
ghost use Rattle.gm_notes.specs.Lines.{refuse_line, status_rows, worker_rows, is_bad_word, maxqueue, shut_one, shut_each, shutdown};
ghost use Rattle.gm_notes.specs.Lines.{command};
ghost use Rattle.gm_notes.specs.Steps.{Step, Line};
ghost use Rattle.gm_notes.specs.Servers.{Answers, steps_after};
ghost use Rattle.gm_plain.specs.Holds.{Goes, Does, PlainAgrees};
ghost use Rattle.gm_plain.specs.Logs.{Spends};
ghost use Rattle.gm_actions.specs.Lines.{NamesFunction};

use super::PlainServer;
use crate::connections::{can_take_units, mode};
use crate::function_facts::is_one_too_many;
use crate::lists::{status_text, workers_text};
use gm_actions::read_line;
use gm_admin::{AdminError, Command, write_fault, write_ok, write_version};
use gm_notes::{ApplyError, Done, Mode, Note, Text};
use std::alloc::AllocError;

impl PlainServer {
    /// A text line of a slot.
    pub(super) fn line(&mut self, slot: u32, bytes: &[u8]) -> Result<Done, ApplyError>
        ensures { (k : Settings) (steps : List Step) → PlainAgrees self.old k steps
            → Answers k steps (Line slot bytes.now) result × PlainAgrees self.new k (steps_after result (Line slot bytes.now) steps) }
    {
        if !can_take_units(&self.log, slot) {
            return Err(ApplyError::NotOpen);
        }
        self.command(slot, bytes)?;
        Ok(Done::NONE)
    }

    fn command(&mut self, slot: u32, bytes: &[u8]) -> Result<(), AllocError>
        requires { slot < self.old.config.slots }
        ensures { Does self.old result self.new (command self.old.config slot (command_of bytes.now)) }
    {
        match read_line(bytes) {
            Ok(asked) => self.obey(slot, &asked),
            Err(error) => self.refuse_line(slot, error),
        }
    }

    fn obey(&mut self, slot: u32, asked: &Command<'_>) -> Result<(), AllocError>
        requires slot { slot < self.old.config.slots }
        requires named { NamesFunction asked.now }
        ensures { Does self.old result self.new (command self.old.config slot (Ok (commanded_of asked.now))) }
    {
        match *asked {
            Command::Status => self.list_functions(slot),
            Command::Workers => self.list_connections(slot),
            Command::MaxQueue { name, size } => self.maxqueue(slot, name, size),
            Command::Version => self.tell_version(slot),
            Command::Shutdown { graceful: true } => self.go_gracefully(slot),
            Command::Shutdown { graceful: false } => self.stop(slot),
        }
    }

    /// Answers a line that is refused.
    fn refuse_line(&mut self, slot: u32, error: AdminError) -> Result<(), AllocError>
        requires { slot < self.old.config.slots }
        ensures { Does self.old result self.new (refuse_line slot error) }
    {
        let mut text = Vec::new(self.alloc);
        write_fault(error, &mut text)?;
        self.say(slot, &text)
    }

    /// Tells a slot that its command was done.
    fn say_ok(&mut self, slot: u32) -> Result<(), AllocError>
        requires { slot < self.old.config.slots }
        ensures does { Does self.old result self.new (with_output slot ok_text) }
        ensures log { self.new.log ≡ self.old.log }
    {
        let mut text = Vec::new(self.alloc);
        write_ok(&mut text)?;
        self.say(slot, &text)
    }

    /// Tells a slot the version of the server.
    fn tell_version(&mut self, slot: u32) -> Result<(), AllocError>
        requires { slot < self.old.config.slots }
        ensures { Does self.old result self.new (with_output slot version_text) }
    {
        let mut text = Vec::new(self.alloc);
        write_version(&mut text)?;
        self.say(slot, &text)
    }

    fn list_functions(&mut self, slot: u32) -> Result<(), AllocError>
        requires { slot < self.old.config.slots }
        ensures { Does self.old result self.new (λ past. with_output slot (status_text (status_rows self.old.config past.notes)) past) }
    {
        let text = status_text(self.alloc, &self.log, &self.config)?;
        self.say(slot, &text)
    }

    fn list_connections(&mut self, slot: u32) -> Result<(), AllocError>
        requires { slot < self.old.config.slots }
        ensures { Does self.old result self.new (λ past. with_output slot (workers_text (worker_rows self.old.config past.notes)) past) }
    {
        let text = workers_text(self.alloc, &self.log, &self.config)?;
        self.say(slot, &text)
    }

    /// Sets the most jobs of a function that may wait or run; 0 is no limit.
    fn maxqueue(&mut self, slot: u32, name: &[u8], size: u32) -> Result<(), AllocError>
        requires slot { slot < self.old.config.slots }
        requires named { is_bad_word name.now ≡ false }
        ensures { Does self.old result self.new (maxqueue self.old.config slot name.now size) }
    {
        if is_one_too_many(&self.log, &self.config, name) {
            return self.refuse_line(slot, AdminError::TooManyFunctions);
        }
        let mention = Text::copy_of(self.alloc, name)?;
        let function = Text::copy_of(self.alloc, name)?;
        self.make_room(2)?;
        self.say_ok(slot)?;
        self.mention(mention);
        self.note(Note::Limit { function, size });
        Ok(())
    }

    /// No new connections are taken from now on.
    fn go_gracefully(&mut self, slot: u32) -> Result<(), AllocError>
        requires { slot < self.old.config.slots }
        ensures { Does self.old result self.new (shutdown self.old.config slot true) }
    {
        self.make_room(1)?;
        self.say_ok(slot)?;
        if mode(&self.log).accepts_connections() {
            self.note(Note::Went {
                mode: Mode::Graceful,
            });
        }
        Ok(())
    }

    /// No new connections are taken from now on, and those that are open are shut.
    fn stop(&mut self, slot: u32) -> Result<(), AllocError>
        requires { slot < self.old.config.slots }
        ensures { Does self.old result self.new (shutdown self.old.config slot false) }
    {
        let slots = self.config.slots();
        self.make_room(slots + 1)?;
        self.say_ok(slot)?;
        self.note(Note::Went {
            mode: Mode::Stopped,
        });
        self.shut_each();
        Ok(())
    }

    /// A connection is shut, if it is open and isn't shut. There is room for a note.
    fn shut_one(&mut self, slot: u32)
        requires { 1 ≤ self.old.log.free }
        ensures goes { Goes self.old self.new (shut_one slot) }
        ensures room { Spends 1 self.old.log self.new.log }
    {
        if can_take_units(&self.log, slot) {
            self.note(Note::Shut { slot });
        }
    }

    /// Every open connection that isn't shut is shut. There is room for a note for each.
    fn shut_each(&mut self)
        requires { self.old.config.slots ≤ self.old.log.free }
        ensures { Goes self.old self.new (λ past. shut_each (slots_from 0 self.old.config.slots) past) }
    {
        for slot in 0..self.config.slots() {
            self.shut_one(slot);
        }
    }
}
