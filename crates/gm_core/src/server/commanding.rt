//! The administrators' commands in text lines.

ghost use Rattle.std.specs.Prelude.{◌≡◌, true, false, List, Ok, IfOk};
ghost use Rattle.gm_admin.specs.Answers.{ok_text, version_text};
ghost use Rattle.gm_admin.specs.Commands.{command_of};
ghost use Rattle.gm_admin.specs.Views.{commanded_of};
ghost use Rattle.gm_conns.specs.ConnTables.{IsOpen};
ghost use Rattle.gm_notes.specs.Notes.{mode, slots_from};
ghost use Rattle.gm_notes.specs.Settings.{Settings};
ghost use Rattle.gm_notes.specs.Steps.{Step, Line};
ghost use Rattle.gm_notes.specs.Servers.{Answers, steps_after};
ghost use Rattle.gm_notes.specs.Past.{with_output};
ghost use Rattle.gm_notes.specs.Lines.{refuse_line, is_bad_word, maxqueue, go_graceful, shut_one, shut_each, shutdown, command};
ghost use Rattle.gm_actions.specs.Lines.{NamesFunction};

use super::Tables;
use gm_actions::read_line;
use gm_admin::{AdminError, Command, write_fault, write_ok, write_version};
use gm_notes::{ApplyError, Done, Mode};
use gm_queues::MentionError;
use std::alloc::{AllocError, Global};

/// That a command was done.
fn ok(alloc: Global) -> Result<Vec<u8>, AllocError>
    ensures { IfOk result (λ text. text.items ≡ ok_text) }
{
    let mut text = Vec::new(alloc);
    write_ok(&mut text)?;
    Ok(text)
}

impl Tables {
    ghost use Rattle.gm_core.specs.Holds.{IsKept, Goes, Does, AllTouched, CoreAgrees};

    /// A text line of a slot.
    pub(super) fn line(&mut self, slot: u32, bytes: &[u8]) -> Result<Done, ApplyError>
        requires { IsKept self.old }
        ensures answers { (k : Settings) (steps : List Step) → CoreAgrees self.old k steps
            → Answers k steps (Line slot bytes.now) result × CoreAgrees self.new k (steps_after result (Line slot bytes.now) steps) }
        ensures touched { AllTouched self.old.conns self.new.conns }
    {
        if !self.can_take_units(slot) {
            return Err(ApplyError::NotOpen);
        }
        self.command(slot, bytes)?;
        Ok(Done::NONE)
    }

    /// Carries out the command of a slot's line.
    fn command(&mut self, slot: u32, bytes: &[u8]) -> Result<(), AllocError>
        requires open { IsOpen self.old.conns slot }
        requires kept { IsKept self.old }
        ensures { Does self.old result self.new (command self.old.config slot (command_of bytes.now)) }
    {
        match read_line(bytes) {
            Ok(asked) => self.obey(slot, &asked),
            Err(error) => self.refuse_line(slot, error),
        }
    }

    /// A command of a slot is done.
    fn obey(&mut self, slot: u32, asked: &Command<'_>) -> Result<(), AllocError>
        requires open { IsOpen self.old.conns slot }
        requires named { NamesFunction asked.now }
        requires kept { IsKept self.old }
        ensures { Does self.old result self.new (command self.old.config slot (Ok (commanded_of asked.now))) }
    {
        match *asked {
            Command::Status => self.list_functions(slot),
            Command::Workers => self.list_connections(slot),
            Command::MaxQueue { name, size } => self.maxqueue(slot, name, size),
            Command::Version => self.tell_version(slot),
            Command::Shutdown { graceful: true } => self.go_gracefully(slot),
            Command::Shutdown { graceful: false } => self.stop(slot),
        }
    }

    /// Answers a line that is refused.
    fn refuse_line(&mut self, slot: u32, error: AdminError) -> Result<(), AllocError>
        requires { IsOpen self.old.conns slot }
        ensures { Does self.old result self.new (refuse_line slot error) }
    {
        let mut text = Vec::new(self.alloc);
        write_fault(error, &mut text)?;
        self.say(slot, text)
    }

    /// Tells a slot that its command was done.
    fn say_ok(&mut self, slot: u32) -> Result<(), AllocError>
        requires { IsOpen self.old.conns slot }
        ensures does { Does self.old result self.new (with_output slot ok_text) }
        ensures open { IsOpen self.new.conns slot }
    {
        let text = ok(self.alloc)?;
        self.say(slot, text)
    }

    /// Tells a slot the version of the server.
    fn tell_version(&mut self, slot: u32) -> Result<(), AllocError>
        requires { IsOpen self.old.conns slot }
        ensures { Does self.old result self.new (with_output slot version_text) }
    {
        let mut text = Vec::new(self.alloc);
        write_version(&mut text)?;
        self.say(slot, text)
    }

    /// Sets the most jobs of a function that may wait or run; 0 is no limit. The function is mentioned if it wasn't.
    fn maxqueue(&mut self, slot: u32, name: &[u8], size: u32) -> Result<(), AllocError>
        requires open { IsOpen self.old.conns slot }
        requires named { is_bad_word name.now ≡ false }
        ensures { Does self.old result self.new (maxqueue self.old.config slot name.now size) }
    {
        let text = ok(self.alloc)?;
        self.conns.reserve_out(slot, text.len())?;
        match self.functions.mention(name) {
            Ok(f) => {
                self.functions.set_limit(f, size);
                self.conns.put_out(slot, text.as_slice());
                Ok(())
            }
            Err(MentionError::TooManyFunctions) => {
                self.refuse_line(slot, AdminError::TooManyFunctions)
            }
            Err(MentionError::Memory) => Err(AllocError),
        }
    }

    /// No new connections are taken from now on, if any were.
    fn turn_away(&mut self)
        ensures { Goes self.old self.new (λ past. go_graceful (mode past.notes) past) }
    {
        if self.mode.accepts_connections() {
            self.mode = Mode::Graceful;
        }
    }

    /// No new connections are taken from now on.
    fn go_gracefully(&mut self, slot: u32) -> Result<(), AllocError>
        requires { IsOpen self.old.conns slot }
        ensures { Does self.old result self.new (shutdown self.old.config slot true) }
    {
        // Modelled in models/shutdown.pml.
        self.say_ok(slot)?;
        self.turn_away();
        Ok(())
    }

    /// No new connections are taken from now on, and those that are open are shut.
    fn stop(&mut self, slot: u32) -> Result<(), AllocError>
        requires { IsOpen self.old.conns slot }
        ensures { Does self.old result self.new (shutdown self.old.config slot false) }
    {
        // Modelled in models/shutdown.pml.
        self.say_ok(slot)?;
        self.mode = Mode::Stopped;
        self.shut_each();
        Ok(())
    }

    /// A connection is shut, if it is open and isn't shut.
    fn shut_one(&mut self, slot: u32)
        ensures { Goes self.old self.new (shut_one slot) }
    {
        // Modelled in models/shutdown.pml.
        if self.can_take_units(slot) {
            self.conns.shut_down(slot);
        }
    }

    /// Every open connection that isn't shut is shut.
    fn shut_each(&mut self)
        ensures { Goes self.old self.new (λ past. shut_each (slots_from 0 self.old.config.slots) past) }
    {
        for slot in 0..self.config.slots() {
            self.shut_one(slot);
        }
    }
}
