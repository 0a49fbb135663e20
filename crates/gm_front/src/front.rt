//! The front of a job server.

ghost use Rattle.std.specs.Prelude.{◌≡◌, ◌≤◌, [], ◌∷◌, ℕ, List, IfOk, slice_set};
ghost use Rattle.gm_feeder.specs.declared.units.Limits.{Limits as Limited};
ghost use Rattle.gm_notes.specs.Settings.{Settings};
ghost use Rattle.gm_notes.specs.Notes.{is_open};
ghost use Rattle.gm_notes.specs.Jobs.{job_state};
ghost use Rattle.gm_notes.specs.Steps.{run};
ghost use Rattle.gm_notes.specs.Servers.{is_closing, owes};
ghost use Rattle.gm_notes.specs.JobStates.{place_of};

use crate::feeding::take_piece;
use crate::input::{Input, StepError, Stepped};
use gm_bytes::ByteQueue;
use gm_feeder::{Feeder, Limits};
use gm_notes::{ApplyError, Done, Event, JobServer, MAX_SLOTS, Place};
use std::alloc::{AllocError, Global};

/// How many slots there is room for.
const MOST_SLOTS: usize = MAX_SLOTS as usize;

/// A job server behind its front: bytes come in pieces of any length, and the server takes the steps that they spell.
///
/// A front agrees with lists of inputs, the newest first: its server agrees with the steps that they spell, and it
/// holds the bytes of each open slot that made no unit yet.
#[derive(Drop)]
pub struct Front<S> {
    server: S,
    // One for each slot that there may be; open slots have a feeder.
    feeders: Vec<Option<Feeder>>,
    limits: Limits,
    alloc: Global,
}

impl<S: JobServer> Front<S> {
    ghost use Rattle.gm_front.specs.Inputs.{Opens, Gives, Closes, Ticks, Takes, Withdraws, Drains, input_of, Input as Spelled};
    ghost use Rattle.gm_front.specs.Inputs.{Reading, Reads};
    ghost use Rattle.gm_front.specs.Fronts.{IsHeld, Agrees, IsTaken, Serves, inputs_after};

    /// The front of a server that has taken no step yet, with room for 1,024 slots.
    pub fn new(alloc: Global, server: S, limits: Limits) -> Result<Front<S>, AllocError>
    where
        S: Drop,
        ensures { IfOk result (λ front. (k : Settings) → k.slots ≤ 1024 → S.agrees server k [] → Agrees S.agrees k limits [] front) }
    {
        let mut feeders = Vec::with_capacity(alloc, MOST_SLOTS)?;
        for _slot in 0..MOST_SLOTS {
            feeders.push(None)?;
        }
        Ok(Front {
            server,
            feeders,
            limits,
            alloc,
        })
    }

    /// Takes an input, and answers its outcome.
    ///
    /// An input is refused as its step is; a piece with `NotOpen` if its slot isn't open or is shut. Out of memory,
    /// an opening or a tick is refused, and a piece is cut: the units before it stay taken, and the slot is closed. No
    /// other input needs memory. A unit is taken with the piece that brings its last byte.
    pub fn step(&mut self, input: Input<'_>) -> Result<Stepped, StepError>
        ensures every_list { (k : Settings) (limits : Limited) (inputs : List Spelled) → Agrees S.agrees k limits inputs self.old
            → Agrees S.agrees k limits (inputs_after result (input_of input.entry) inputs) self.new }
        ensures answers { Serves S.agrees (input_of input.entry) self.old result self.new }
    {
        match input {
            Input::Open(addr) => self.open(addr),
            Input::Piece(slot, bytes) => self.give(slot, bytes),
            Input::Close(slot) => self.close(slot),
            Input::Tick(now) => self.tick(now),
            Input::Took(slot) => self.took(slot),
            Input::Withdrew(slot) => self.withdrew(slot),
            Input::Drain(slot) => Ok(self.drain(slot)),
        }
    }

    /// The server.
    pub fn server(&self) -> &S
        ensures every_list { (k : Settings) (limits : Limited) (inputs : List Spelled) → Agrees S.agrees k limits inputs self.now
            → (reading : Reading) × Reads k limits inputs reading × S.agrees result.now k reading.steps }
        ensures held { (k : Settings) (limits : Limited) (reading : Reading) → IsHeld S.agrees k limits reading self.now
            → S.agrees result.now k reading.steps }
    {
        &self.server
    }

    /// Whether a NOOP is owed to the slot; never if it isn't open.
    pub fn owed(&self, slot: u32) -> bool
        ensures noops_owed { (k : Settings) (limits : Limited) (reading : Reading) → IsHeld S.agrees k limits reading self.now
            → result ≡ owes slot (run k reading.steps) }
    {
        self.server.owed(slot)
    }

    /// Whether the slot is open.
    pub fn is_open(&self, slot: u32) -> bool
        ensures { (k : Settings) (limits : Limited) (reading : Reading) → IsHeld S.agrees k limits reading self.now
            → result ≡ is_open slot (run k reading.steps).notes }
    {
        let index = slot as usize;
        index < self.feeders.len() && self.feeders[index].is_some()
    }

    /// Whether the slot is open and takes no more units.
    pub fn shut(&self, slot: u32) -> bool
        ensures { (k : Settings) (limits : Limited) (reading : Reading) → IsHeld S.agrees k limits reading self.now
            → result ≡ is_closing slot (run k reading.steps) }
    {
        self.server.shut(slot)
    }

    /// Where a job is.
    pub fn place(&self, job: u64) -> Place
        ensures places { (k : Settings) (limits : Limited) (reading : Reading) → IsHeld S.agrees k limits reading self.now
            → result ≡ place_of (job_state job (run k reading.steps).notes) }
    {
        self.server.place(job)
    }

    fn open(&mut self, addr: &[u8]) -> Result<Stepped, StepError>
        ensures { Serves S.agrees (Opens addr.now) self.old result self.new }
    {
        let done = self.server.apply(&Event::Open { addr })?;
        if let Some(slot) = done.opened {
            let feeder = Feeder::new(self.alloc, self.limits);
            self.set_feeder(slot, Some(feeder));
        }
        Ok(self.stepped(done))
    }

    fn give(&mut self, slot: u32, piece: &[u8]) -> Result<Stepped, StepError>
        ensures { Serves S.agrees (Gives slot piece.now) self.old result self.new }
    {
        let index = slot as usize;
        if index >= self.feeders.len() || self.server.shut(slot) {
            return Err(StepError::Refused(ApplyError::NotOpen));
        }
        let Some(feeder) = &mut self.feeders[index] else {
            return Err(StepError::Refused(ApplyError::NotOpen));
        };
        match take_piece(&mut self.server, feeder, slot, piece) {
            Ok(created) => Ok(self.stepped(Done {
                opened: None,
                created,
            })),
            Err(units) => {
                // The slot is open, so its closing isn't refused.
                let _closed = self.server.apply(&Event::Close { slot });
                self.set_feeder(slot, None);
                Err(StepError::Cut { units })
            }
        }
    }

    fn close(&mut self, slot: u32) -> Result<Stepped, StepError>
        ensures { Serves S.agrees (Closes slot) self.old result self.new }
    {
        let done = self.server.apply(&Event::Close { slot })?;
        self.set_feeder(slot, None);
        Ok(self.stepped(done))
    }

    fn tick(&mut self, now: u64) -> Result<Stepped, StepError>
        ensures { Serves S.agrees (Ticks now) self.old result self.new }
    {
        let done = self.server.apply(&Event::Tick { now })?;
        Ok(self.stepped(done))
    }

    fn took(&mut self, slot: u32) -> Result<Stepped, StepError>
        ensures { Serves S.agrees (Takes slot) self.old result self.new }
    {
        self.server.took(slot)?;
        Ok(self.stepped(Done::NONE))
    }

    fn withdrew(&mut self, slot: u32) -> Result<Stepped, StepError>
        ensures { Serves S.agrees (Withdraws slot) self.old result self.new }
    {
        self.server.withdrew(slot)?;
        Ok(self.stepped(Done::NONE))
    }

    fn drain(&mut self, slot: u32) -> Stepped
        ensures { (k : Settings) (limits : Limited) (reading : Reading) → IsHeld S.agrees k limits reading self.old
            → IsTaken S.agrees k limits (Drains slot) reading result self.new }
    {
        Stepped {
            drained: self.server.drain(slot),
            done: Done::NONE,
        }
    }

    // Writes the feeder of a slot.
    fn set_feeder(&mut self, slot: u32, feeder: Option<Feeder>)
        ensures feeders { self.new.feeders.items ≡ slice_set self.old.feeders.items slot feeder }
        ensures server { self.new.server ≡ self.old.server }
        ensures limits { self.new.limits ≡ self.old.limits }
    {
        let index = slot as usize;
        if index < self.feeders.len() {
            self.feeders[index] = feeder;
        }
    }

    // The answer of an input that drains nothing.
    fn stepped(&self, done: Done) -> Stepped
        ensures done { result.done ≡ done }
        ensures drained { result.drained.bytes ≡ [] }
    {
        Stepped {
            done,
            drained: ByteQueue::new(self.alloc),
        }
    }
}
