//! A server that means what the definitions say, and little else.

ghost use Rattle.std.specs.Prelude.{◌≡◌, ◌<◌, ◌≤◌, ◌∷◌, [], IfOk, OnOk, length};
ghost use Rattle.gm_packet.specs.Answers.{answer_of, answer_packet};
ghost use Rattle.gm_packet.specs.Packets.{Fits};
ghost use Rattle.gm_plain.specs.Logs.{Spends, NoteFits, MayCome, weight};
ghost use Rattle.gm_notes.specs.Past.{with_note, with_flow, with_output, give, refuse, tell_all};
ghost use Rattle.gm_notes.specs.Flow.{Began, Emptied};
ghost use Rattle.std.specs.List.{All};
ghost use Rattle.gm_actions.specs.Refusals.{code_of};

mod abilities;
mod asking;
mod closing;
mod commanding;
mod connecting;
mod grabbing;
mod serving;
mod submitting;
mod ticking;
mod working;

use crate::connections::{mode, seen};
use crate::jobs::place;
use crate::log::Log;
use crate::outboxes::Outboxes;
use gm_actions::Refusal;
use gm_bytes::ByteQueue;
use gm_notes::{ApplyError, Config, Done, Event, JobServer, Mode, Note, Place};
use gm_packet::{Response, write_response};
use std::alloc::{AllocError, Global};

/// The packet of a response.
fn response_packet(alloc: Global, response: &Response<'_>) -> Result<Vec<u8>, AllocError>
    requires { Fits (answer_of response.now).arguments }
    ensures { IfOk result (λ packet. packet.items ≡ answer_packet (answer_of response.now)) }
{
    let mut packet = Vec::new(alloc);
    write_response(response, &mut packet)?;
    Ok(packet)
}

/// The plain server: it keeps the list of all that has happened, and answers by searching it. It is for
/// tests, and for readers who want to see the definitions run.
#[derive(Drop)]
pub struct PlainServer {
    config: Config,
    log: Log,
    outboxes: Outboxes,
    alloc: Global,
    ghost wide: { length outboxes ≡ config.slots },
    ghost slots: { log.slots ≡ config.slots },
    ghost first: { log.first ≡ config.first_job },
}

impl PlainServer {
    ghost use Rattle.gm_plain.specs.Holds.{Goes, Does, PlainAgrees};

    /// A server to which nothing has happened. It needs memory for each slot.
    pub fn new(alloc: Global, config: Config) -> Result<PlainServer, AllocError>
        ensures { IfOk result (λ server. PlainAgrees server config []) }
    {
        let outboxes = Outboxes::new(alloc, config.slots())?;
        let log = Log::new(alloc, config.slots(), config.first_job());
        Ok(PlainServer {
            config,
            log,
            outboxes,
            alloc,
        })
    }

    /// Finds memory for more notes, counted by their weight.
    fn make_room(&mut self, count: u32) -> Result<(), AllocError>
        ensures room { OnOk result (count ≤ self.new.log.free) }
        ensures goes { Goes self.old self.new (λ past. past) }
        ensures notes { self.new.log.notes ≡ self.old.log.notes }
        ensures outboxes { self.new.outboxes ≡ self.old.outboxes }
    {
        self.log.make_room(count)
    }

    /// Adds a note, which may come now, and for which there is room by its weight.
    fn note(&mut self, note: Note)
        requires room { weight note ≤ self.old.log.free }
        requires fits { NoteFits self.old.config.slots note }
        requires may_come { MayCome self.old.config.slots self.old.config.first_job note self.old.log.notes }
        ensures goes { Goes self.old self.new (with_note note) }
        ensures notes { self.new.log.notes ≡ note ∷ self.old.log.notes }
        ensures room { Spends (weight note) self.old.log self.new.log }
        ensures outboxes { self.new.outboxes ≡ self.old.outboxes }
    {
        self.log.note(note);
    }

    /// Queues an answer to a slot. Out of memory, it changes nothing.
    fn give(&mut self, slot: u32, response: &Response<'_>) -> Result<(), AllocError>
        requires slot { slot < self.old.config.slots }
        requires fits { Fits (answer_of response.now).arguments }
        ensures does { Does self.old result self.new (give slot (answer_of response.now)) }
        ensures log { self.new.log ≡ self.old.log }
    {
        let packet = response_packet(self.alloc, response)?;
        self.say(slot, &packet)
    }

    /// Queues an answer to each of these slots, as often as it is listed.
    /// Out of memory, it changes nothing.
    fn give_all(&mut self, slots: &[u32], response: &Response<'_>) -> Result<(), AllocError>
        requires slots { All (λ c. c < self.old.config.slots) slots.now }
        requires fits { Fits (answer_of response.now).arguments }
        ensures does { Does self.old result self.new (tell_all (answer_of response.now) slots.now) }
        ensures log { self.new.log ≡ self.old.log }
    {
        let packet = response_packet(self.alloc, response)?;
        self.outboxes.give_all(self.alloc, slots, &packet)
    }

    /// Queues an answer to each of these slots, and then another to each of the others.
    /// Out of memory, it changes nothing.
    fn give_both(
        &mut self,
        slots: &[u32],
        response: &Response<'_>,
        others: &[u32],
        other: &Response<'_>,
    ) -> Result<(), AllocError>
        requires slots { All (λ c. c < self.old.config.slots) slots.now }
        requires fits { Fits (answer_of response.now).arguments }
        requires others { All (λ c. c < self.old.config.slots) others.now }
        requires other_fits { Fits (answer_of other.now).arguments }
        ensures does { Does self.old result self.new (λ past. tell_all (answer_of other.now) others.now (tell_all (answer_of response.now) slots.now past)) }
        ensures log { self.new.log ≡ self.old.log }
    {
        let before = self.outboxes.copy(self.alloc)?;
        self.give_all(slots, response)?;
        match self.give_all(others, other) {
            Ok(()) => Ok(()),
            Err(fault) => {
                self.outboxes = before;
                Err(fault)
            }
        }
    }

    /// Queues a text to a slot. Out of memory, it changes nothing.
    fn say(&mut self, slot: u32, text: &[u8]) -> Result<(), AllocError>
        requires { slot < self.old.config.slots }
        ensures does { Does self.old result self.new (with_output slot text.now) }
        ensures log { self.new.log ≡ self.old.log }
    {
        self.outboxes.give(slot, text)
    }

    /// Lets go of what waited for a slot, whose connection begins or ends.
    fn empty(&mut self, slot: u32)
        requires { slot < self.old.config.slots }
        ensures began { Goes self.old self.new (with_flow (Began slot)) }
        ensures emptied { Goes self.old self.new (with_flow (Emptied slot)) }
        ensures log { self.new.log ≡ self.old.log }
    {
        drop(self.outboxes.take(slot));
    }

    /// Refuses a request of a slot.
    fn refuse(&mut self, slot: u32, refusal: Refusal) -> Result<(), AllocError>
        requires { slot < self.old.config.slots }
        ensures { Does self.old result self.new (refuse slot (code_of refusal)) }
    {
        self.give(slot, &refusal.response())
    }
}

impl JobServer for PlainServer {
    ghost use Rattle.gm_plain.specs.Holds.{PlainAgrees};

    ghost agrees = { PlainAgrees };

    fn apply(&mut self, event: &Event<'_>) -> Result<Done, ApplyError> {
        match *event {
            Event::Open { addr } => self.open(addr),
            Event::Packet { slot, kind, bytes } => self.packet(slot, kind, bytes.as_slice()),
            Event::Line { slot, bytes } => self.line(slot, bytes),
            Event::Fault { slot, fault } => self.fault(slot, fault),
            Event::Close { slot } => self.close(slot),
            Event::Tick { now } => self.tick(now),
        }
    }

    fn owed(&self, slot: u32) -> bool {
        let seen = seen(&self.log, slot);
        seen.is_open && seen.phase.is_owed()
    }

    fn shut(&self, slot: u32) -> bool {
        let seen = seen(&self.log, slot);
        seen.is_open && seen.is_shut
    }

    fn as_gearmand(&self) -> bool {
        self.config.as_gearmand()
    }

    fn mode(&self) -> Mode {
        mode(&self.log)
    }

    fn place(&self, job: u64) -> Place {
        place(&self.log, job)
    }

    fn took(&mut self, slot: u32) -> Result<(), ApplyError> {
        self.check_owed(slot)?;
        self.note(Note::Took { slot });
        Ok(())
    }

    fn withdrew(&mut self, slot: u32) -> Result<(), ApplyError> {
        self.check_owed(slot)?;
        self.note(Note::Withdrew { slot });
        Ok(())
    }

    fn drain(&mut self, slot: u32) -> ByteQueue {
        if slot < self.log.slots() {
            ByteQueue::from_vec(self.outboxes.take(slot))
        } else {
            ByteQueue::new(self.alloc)
        }
    }
}
