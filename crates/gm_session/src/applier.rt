//! How a session's units are applied.

ghost use Rattle.std.specs.Prelude.{◌≡◌, ◌≤◌, [], true, IfOk, IfErr, length, drop};
ghost use Rattle.std.specs.Io.KnownBytes.{IsAtEnd};
ghost use Rattle.gm_actions.specs.ReadEvents.{ReadsEvent};
ghost use Rattle.gm_notes.specs.Servers.{step_of, IsSized};
ghost use Rattle.gm_notes.specs.Steps.{Packet, Fault};
ghost use Rattle.gm_front.specs.Readings.{step_read};
ghost use Rattle.gm_session.specs.Effects.{Gathers, Ticks};
ghost use Rattle.gm_session.specs.Sessions.{Applies, TakesNext, Unloads, Steps, Reads, AsksInStep};

use crate::batch::Batch;
use crate::effects::{Effects, hand_in};
use crate::gate::Gate;
use crate::host::Host;
use crate::session::{FIRST_UNITS, Session, SessionEnd};
use gm_actions::{Action, ReadEvent, Refusal};
use gm_bytes::{Data, LONG, SharedBytes};
use gm_feeder::{OwnedPacket, Source};
use gm_front::{GRAB_JOB_ALL, Next, Room, mean_event, next_event};
use gm_notes::{ApplyError, Event, UnitFault};
use gm_packet::Kind;
use gm_shared::{BookName, Desk, Shared};
use std::alloc::{AllocError, Global};
use std::io::Read;
use std::net::SocketAddr;
use std::sync::Wait;
use std::time::Clock;

/// The most pieces that a session reads.
const MOST_PIECES: u64 = 1_099_511_627_776;

/// The surroundings of a session: the book at which its units are handed in, their gate, and its server.
#[derive(Drop)]
pub struct Around<'s, K: BookName, R, G> {
    pub alloc: Global,
    pub rt: &'s R,
    pub shared: &'s Shared<K>,
    pub gate: &'s G,
    /// The server; none for a session that is read by itself.
    pub host: Option<&'s Host<K>>,
}

/// The data of a packet, to be shared.
fn share(alloc: Global, packet: OwnedPacket) -> Result<SharedBytes, AllocError>
    ensures { IfOk result (λ shared. shared ≡ drop packet.data_at packet.bytes.items) }
{
    SharedBytes::new(alloc, packet.bytes)?.suffix(packet.data_at)
}

/// The part of a connection's bytes that was taken.
#[derive(Clone, Copy)]
pub(crate) enum Taken {
    /// A unit, which was applied.
    Unit { may_be_long: bool },
    /// No unit: more bytes are needed.
    Nothing,
}

/// Whether a unit may be the work of many: a text line lists all functions or workers, a grab looks at all functions of
/// its worker.
fn may_be_long(event: &Event<'_>) -> bool {
    match *event {
        Event::Line { .. } => true,
        Event::Packet { kind, .. } => {
            kind == GRAB_JOB_ALL
                || matches!(Kind::of(kind), Some(Kind::GrabJob | Kind::GrabJobUniq))
        }
        _ => false,
    }
}

/// Cuts a connection's bytes into units, and applies each at its desk, past the gate. Their effects are collected.
#[derive(Drop)]
pub(crate) struct Applier<'s, K: BookName, R, G> {
    pub(crate) around: &'s Around<'s, K, R, G>,
    pub(crate) slot: u32,
    /// The connection's peer, for operators.
    pub(crate) peer: &'s Option<SocketAddr>,
}

impl<'s, K: BookName, R: Wait + Clock, G: Gate> Applier<'s, K, R, G> {
    /// Before a grab it hands in the present second: a job's time limit counts from the last second that was handed in.
    /// A packet whose type isn't a request's is reported to operators.
    fn prepare(&self, read: &ReadEvent<'_>, effects: &mut Effects<K>)
        ensures { Ticks effects.old effects.new }
    {
        // Modelled in models/jobs.pml and ticks.pml.
        let around = self.around;
        match (&read.action, &read.event, around.host) {
            (Ok(Action::Grab { .. }), _, Some(host)) => {
                host.update(around.rt, around.shared, effects);
            }
            (Err(Refusal::UnknownCommand), Event::Packet { kind, .. }, Some(host)) => {
                host.speaker.remark_type(around.rt, *kind, *self.peer);
            }
            _ => {}
        }
    }

    /// Applies an event, before a grab with the present second. If it is refused, the session is over.
    #[inline(always)]
    #[tactic(auto, using(crate::proofs::Gathering::gathers_ticked))]
    fn apply(
        &self,
        desk: &mut Desk<K>,
        read: &ReadEvent<'_>,
        effects: &mut Effects<K>,
    ) -> Result<(), SessionEnd>
        requires size { IsSized read.now.event }
        requires reads { ReadsEvent read.now.event read.now.action }
        ensures applies { Applies K.settings K.taped desk.old.number (step_of read.now.event) result desk.old.witness.seen desk.new.witness.seen }
        ensures gathers { Gathers K.settings K.taped desk.old.number desk.old.witness.seen effects.old desk.new.witness.seen effects.new }
        ensures number { desk.new.number ≡ desk.old.number }
    {
        // Modelled in models/jobs.pml and ticks.pml.
        self.prepare(read, effects);
        match hand_in(self.around.rt, self.around.shared, desk, read, effects) {
            Ok(_) => Ok(()),
            Err(ApplyError::Memory) => Err(SessionEnd::Memory),
            Err(_) => Err(SessionEnd::Shut),
        }
    }

    /// Applies an event as gearmand's applications mean it. It isn't inlined, as each unit would clear the room for the
    /// data.
    #[inline(never)]
    fn apply_meant(
        &self,
        desk: &mut Desk<K>,
        event: Event<'_>,
        effects: &mut Effects<K>,
    ) -> Result<(), SessionEnd>
        requires { IsSized event }
        ensures applies { Applies K.settings K.taped desk.old.number (step_read true (step_of event.entry)) result desk.old.witness.seen desk.new.witness.seen }
        ensures gathers { Gathers K.settings K.taped desk.old.number desk.old.witness.seen effects.old desk.new.witness.seen effects.new }
        ensures number { desk.new.number ≡ desk.old.number }
    {
        let mut room = Room::new();
        let event = mean_event(event, &mut room);
        self.apply(desk, &ReadEvent::new(event), effects)
    }

    /// Lets a unit pass the gate, and applies it as the server reads it.
    fn apply_unit(
        &self,
        desk: &mut Desk<K>,
        index: u64,
        event: Event<'_>,
        effects: &mut Effects<K>,
    ) -> Result<(), SessionEnd>
        requires { IsSized event }
        ensures applies { Applies K.settings K.taped desk.old.number (step_read K.settings.as_gearmand (step_of event.entry)) result
            desk.old.witness.seen desk.new.witness.seen }
        ensures gathers { Gathers K.settings K.taped desk.old.number desk.old.witness.seen effects.old desk.new.witness.seen effects.new }
        ensures number { desk.new.number ≡ desk.old.number }
    {
        // Modelled in models/jobs.pml.
        self.around.gate.pass(self.around.rt, self.slot, index);
        if self.around.shared.as_gearmand {
            return self.apply_meant(desk, event, effects);
        }
        // The event is large, so it isn't moved.
        self.apply(desk, &ReadEvent::new(event), effects)
    }

    /// Takes the next unit in the feeder, or the fault there. A long packet is taken with its
    /// memory, so that its data are shared and not copied. If the session is over, it says why.
    fn take_unit(
        &self,
        session: &mut Session,
        desk: &mut Desk<K>,
        batch: &mut Batch<'s>,
        effects: &mut Effects<K>,
    ) -> Result<Taken, SessionEnd>
        ensures takes { TakesNext K.settings K.taped desk.old.number self.now.slot session.old.feeder result desk.old.witness.seen desk.new.witness.seen session.new.feeder }
        ensures gathers { Gathers K.settings K.taped desk.old.number desk.old.witness.seen effects.old desk.new.witness.seen effects.new }
        ensures number { desk.new.number ≡ desk.old.number }
    {
        // Modelled in models/jobs.pml.
        let slot = self.slot;
        let around = self.around;
        let index = session.index;
        if let Some(packet) = session.feeder.take_packet(LONG) {
            batch.admit(around.host, around.rt);
            session.index = index.saturating_add(1);
            self.take_long(desk, index, packet, effects)?;
            return Ok(Taken::Unit { may_be_long: false });
        }
        match next_event(&mut session.feeder, slot) {
            Next::Unit(event) => {
                let may_be_long = may_be_long(&event);
                batch.admit(around.host, around.rt);
                session.index = index.saturating_add(1);
                self.apply_unit(desk, index, event, effects)?;
                Ok(Taken::Unit { may_be_long })
            }
            Next::Wait => Ok(Taken::Nothing),
            Next::Fault(fault) => {
                self.take_fault(desk, fault, effects)?;
                Err(SessionEnd::Shut)
            }
        }
    }

    /// Applies a fault. It isn't inlined, nor is `take_long`, as each unit would clear their locals.
    #[inline(never)]
    fn take_fault(
        &self,
        desk: &mut Desk<K>,
        fault: UnitFault,
        effects: &mut Effects<K>,
    ) -> Result<(), SessionEnd>
        ensures applies { Applies K.settings K.taped desk.old.number (Fault self.now.slot fault) result desk.old.witness.seen desk.new.witness.seen }
        ensures gathers { Gathers K.settings K.taped desk.old.number desk.old.witness.seen effects.old desk.new.witness.seen effects.new }
        ensures number { desk.new.number ≡ desk.old.number }
    {
        let slot = self.slot;
        let around = self.around;
        if let Some(host) = around.host {
            host.speaker.count_faulty(around.rt);
        }
        let event = Event::Fault { slot, fault };
        let action = Ok(Action::Nothing);
        self.apply(desk, &ReadEvent { event, action }, effects)
    }

    /// Applies a packet that was taken with its memory.
    #[inline(never)]
    fn take_long(
        &self,
        desk: &mut Desk<K>,
        index: u64,
        packet: OwnedPacket,
        effects: &mut Effects<K>,
    ) -> Result<(), SessionEnd>
        requires { length (drop packet.data_at packet.bytes.items) ≤ 1073741824 }
        ensures applies { Applies K.settings K.taped desk.old.number
            (step_read K.settings.as_gearmand (Packet self.now.slot packet.kind (drop packet.data_at packet.bytes.items))) result
            desk.old.witness.seen desk.new.witness.seen }
        ensures gathers { Gathers K.settings K.taped desk.old.number desk.old.witness.seen effects.old desk.new.witness.seen effects.new }
        ensures number { desk.new.number ≡ desk.old.number }
    {
        let slot = self.slot;
        let kind = packet.kind;
        let Ok(data) = share(self.around.alloc, packet) else {
            return Err(SessionEnd::Memory);
        };
        let bytes = Data::shared(&data);
        self.apply_unit(desk, index, Event::Packet { slot, kind, bytes }, effects)
    }

    /// A session's turn: takes units, and the fault after them, until there is none, or their batch has ended, so that
    /// there may be more. If the session is over, it says why.
    fn unload(
        &self,
        session: &mut Session,
        desk: &mut Desk<K>,
        effects: &mut Effects<K>,
    ) -> Result<(), SessionEnd>
        ensures unloads { Unloads K.settings K.taped desk.old.number self.now.slot session.old.feeder result session.new.has_units
            desk.old.witness.seen desk.new.witness.seen session.new.feeder }
        ensures gathers { Gathers K.settings K.taped desk.old.number desk.old.witness.seen effects.old desk.new.witness.seen effects.new }
        ensures number { desk.new.number ≡ desk.old.number }
    {
        // Modelled in models/jobs.pml and polling.pml.
        let length = session.feeder.pending().len();
        let mut batch = Batch::new(session.free_units(length), length);
        loop {
            let Taken::Unit { may_be_long } = self.take_unit(session, desk, &mut batch, effects)?
            else {
                session.is_pipelining = batch.units > FIRST_UNITS;
                session.has_units = false;
                return Ok(());
            };
            if batch.has_ended(self.around.rt, may_be_long) {
                session.is_pipelining = batch.units > FIRST_UNITS;
                session.has_units = true;
                return Ok(());
            }
        }
    }

    /// Reads a piece, unless the last turn may have left whole units, and then takes its turn. If the session is
    /// over, it says why.
    pub(crate) fn step<E, S: Source<E>>(
        &self,
        session: &mut Session,
        desk: &mut Desk<K>,
        source: &mut S,
        by: &E,
        effects: &mut Effects<K>,
    ) -> Result<(), SessionEnd>
        ensures ended { IfErr result (λ end. end ≡ SessionEnd.Ended → IsAtEnd (S.remaining source.new)) }
        ensures steps { Steps K.settings K.taped desk.old.number self.now.slot session.old.feeder session.old.has_units (S.remaining source.old) (S.remaining source.new)
            (S.heard source.old) (S.heard source.new) result session.new.has_units desk.old.witness.seen desk.new.witness.seen session.new.feeder }
        ensures asks { AsksInStep session.old.has_units (S.answers source.old) (S.answers source.new) result }
        ensures socket { S.socket source.new ≡ S.socket source.old }
        ensures gathers { Gathers K.settings K.taped desk.old.number desk.old.witness.seen effects.old desk.new.witness.seen effects.new }
        ensures number { desk.new.number ≡ desk.old.number }
    {
        // Modelled in models/jobs.pml and polling.pml.
        session.fill(source, by)?;
        self.unload(session, desk, effects)
    }

    /// Reads a connection's stream to its end.
    pub(crate) fn run<I: Read>(
        &self,
        session: &mut Session,
        desk: &mut Desk<K>,
        reader: &mut I,
        effects: &mut Effects<K>,
    ) -> SessionEnd
        requires { session.old.feeder.pending ≡ [] }
        ensures ended { result ≡ SessionEnd.Ended → IsAtEnd (I.remaining reader.new) }
        ensures reads { Reads K.settings K.taped desk.old.number self.now.slot session.old.feeder.limits (I.remaining reader.old) (I.remaining reader.new) result
            desk.old.witness.seen desk.new.witness.seen }
        ensures number { desk.new.number ≡ desk.old.number }
    {
        let mut pieces_left = MOST_PIECES;
        for _ in self.around.rt.forever() {
            if !session.has_units {
                if pieces_left == 0 {
                    return SessionEnd::Turns;
                }
                pieces_left -= 1;
            }
            match self.step(session, desk, reader, &(), effects) {
                Ok(()) => {}
                Err(end) => return end,
            }
        }
        unreachable!()
    }
}
