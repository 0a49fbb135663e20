//! A desk, with the session of its slot's connection.

ghost use Rattle.std.specs.Prelude.{◌≡◌, ℕ, ℤ, List, [], Option, Some, None, true, false, length, IfOk, IfErr};
ghost use Rattle.std.specs.Option.{option_map};
ghost use Rattle.std.specs.Result.{IsErrOf};
ghost use Rattle.std.specs.Net.Tcp.{stream_raw_fd};
ghost use Rattle.gm_feeder.specs.Answers.{answer_of};
ghost use Rattle.gm_notes.specs.Steps.{Close};
ghost use Rattle.gm_shared.specs.Books.{NeedsNoMemory};
ghost use Rattle.gm_session.specs.Effects.{Keeps, Gathers};
ghost use Rattle.gm_session.specs.Hearings.{blank};
ghost use Rattle.gm_session.specs.Sessions.{Steps, AsksInStep, ends_whole};
ghost use Rattle.gm_session.specs.Talks.{IsTalk, Lends, IsHanded, talking_of, begun, is_reading, has_ended, is_dropping, is_over, IsOverAs, ended_by, cut_by, over_by, with_reading, has_timed_out_in, left_in, without_last, reading_after, StepsOn, Discards, hearings_with, Closes};

use crate::applier::{Applier, Around};
use crate::effects::Effects;
use crate::gate::Gate;
use crate::heard::Hearings;
use crate::own_desk::OwnDesk;
use crate::session::{Session, SessionEnd};
use gm_feeder::{Limits, Patience, Source};
use gm_ghost::Ghost;
use gm_notes::{ApplyError, Event};
use gm_shared::{BookName, Desk, PairSide, Receipt, Shared};
use gm_socket::{Left, LoggedSource, ReadHalf};
use std::alloc::{AllocError, Global};
use std::collections::LinkedList;
use std::io;
use std::marker::{Brand, Model};
use std::net::SocketAddr;
use std::sync::Wait;
use std::time::Clock;

/// How far the reading of a connection is.
#[derive(Clone, Copy, Debug, PartialEq, Eq)]
pub enum Reading {
    /// Its session goes on.
    Goes,
    /// Its session is over, for this reason. Bytes that still come are read and dropped.
    Drops { end: SessionEnd },
    /// Its session is over, and nothing is read any more.
    Ended { end: SessionEnd },
}

/// A connection that is read, until its slot is closed.
#[derive(Drop)]
struct Talking {
    session: Session,
    source: LoggedSource<ReadHalf>,
    /// The connection's peer, for operators.
    peer: Option<SocketAddr>,
    reading: Reading,
}

/// A slot's desk, and the session of its connection, if there is one. Whichever threads go on with the session, the
/// units handed in since the slot was last closed are the first units of the bytes read since, and it was so with each
/// connection before. Contracts see how often the slot was closed, the history that the desk has seen, the rest of the
/// session's bytes, all that was read from the connection, and the account of those that are gone.
#[derive(Drop)]
pub struct Talk<K: BookName> {
    desk: OwnDesk<K>,
    limits: Limits,
    /// The reading side of the slot, which knows the sockets of its connections. It is lent while a connection is about
    /// to come.
    side: Option<PairSide<K>>,
    talking: Option<Talking>,
    /// How often the slot was closed; at the greatest `u64` it stays there.
    closings: u64,
    ledger: Ghost<Hearings>,
}

impl<K: BookName> Model for Talk<K> {
    ghost use Rattle.std.specs.Option.{option_map};
    ghost use Rattle.gm_session.specs.Talks.{TalkState, IsTalk, talking_of};

    ghost Value = { TalkState };

    ghost view = { λ t. record {
      number = t.desk.desk.number;
      limits = t.limits;
      closings = t.closings;
      seen = t.desk.desk.witness.seen;
      hearings = t.ledger;
      side = t.side;
      talking = option_map talking_of t.talking;
    } };

    ghost invariant = { λ t. IsTalk K.settings (record {
      number = t.desk.desk.number;
      limits = t.limits;
      closings = t.closings;
      seen = t.desk.desk.witness.seen;
      hearings = t.ledger;
      side = t.side;
      talking = option_map talking_of t.talking;
    }) };
}

/// A slot's desk, the limits of its connections' units, the side that knows their sockets, unless it is lent, and the
/// account of the bytes read from them.
#[derive(Drop)]
pub struct TalkParts<K: BookName> {
    pub desk: OwnDesk<K>,
    pub limits: Limits,
    pub side: Option<PairSide<K>>,
    pub ledger: Ghost<Hearings>,
}

/// How far a connection's reading is once its session is over: if all whole units were handed in, nothing more can
/// be read.
fn over_by(end: SessionEnd) -> Reading
    ensures { result ≡ over_by end }
{
    if end.is_whole() {
        Reading::Ended { end }
    } else {
        Reading::Drops { end }
    }
}

/// How far it is once nothing is read any more of a session that is over.
fn ended_by(reading: Reading) -> Reading
    ensures { result ≡ ended_by reading }
{
    match reading {
        Reading::Drops { end } => Reading::Ended { end },
        Reading::Goes | Reading::Ended { .. } => reading,
    }
}

/// How far it is once its session is cut for this reason.
fn cut_by(end: SessionEnd, reading: Reading) -> Reading
    ensures { result ≡ cut_by end reading }
{
    match reading {
        Reading::Goes => Reading::Drops { end },
        Reading::Drops { .. } | Reading::Ended { .. } => reading,
    }
}

/// How far a connection's reading is after a turn.
fn reading_after(outcome: &Result<(), SessionEnd>) -> Reading
    ensures { result ≡ reading_after outcome.now }
{
    match outcome {
        Ok(()) => Reading::Goes,
        Err(end) => over_by(*end),
    }
}

/// Goes on with a session at its desk.
fn step_on<K: BookName, R: Wait + Clock, G: Gate>(
    desk: &mut OwnDesk<K>,
    talking: &mut Talking,
    around: &Around<'_, K, R, G>,
    by: &Patience,
    effects: &mut Effects<K>,
) -> Result<(), SessionEnd>
    ensures steps { (input : Option (List ℕ)) × (left : Option (List ℕ)) × Steps K.settings K.taped desk.old.desk.number desk.old.desk.number
        talking.old.session.feeder talking.old.session.has_units input left (Some talking.old.source.bytes) (Some talking.new.source.bytes) result
        talking.new.session.has_units desk.old.desk.witness.seen desk.new.desk.witness.seen talking.new.session.feeder }
    ensures asks { AsksInStep talking.old.session.has_units (Some talking.old.source.answers) (Some talking.new.source.answers) result }
    ensures reading { talking.new.reading ≡ reading_after result }
    ensures socket { stream_raw_fd talking.new.source.source.stream.value ≡ stream_raw_fd talking.old.source.source.stream.value }
    ensures gathers { Gathers K.settings K.taped desk.old.desk.number desk.old.desk.witness.seen effects.old desk.new.desk.witness.seen effects.new }
    ensures number { desk.new.desk.number ≡ desk.old.desk.number }
{
    let applier = Applier {
        around,
        slot: desk.desk.number(),
        peer: &talking.peer,
    };
    let outcome = applier.step(
        &mut talking.session,
        &mut desk.desk,
        &mut talking.source,
        by,
        effects,
    );
    talking.reading = reading_after(&outcome);
    outcome
}

/// Enters the connection that was closed at this desk, or one that nobody served.
fn enter<K: BookName>(ledger: &mut Ghost<Hearings>, desk: &Desk<K>, talking: &Option<Talking>)
    ensures { ledger.new ≡ hearings_with desk.now.witness.seen (option_map talking_of talking.now) ledger.old }
{
    ledger.update::<(&Desk<K>, &Option<Talking>), Brand>(&(desk, talking));
}

impl<K: BookName> Talk<K> {
    /// A desk that has seen nothing, and no connection. Its connections' units are within these limits.
    pub fn new(
        alloc: Global,
        desk: Desk<K>,
        side: PairSide<K>,
        limits: Limits,
    ) -> Result<Talk<K>, AllocError>
        requires desk { desk.witness.seen ≡ [] }
        requires side { side.passed ≡ [] }
        ensures { IfOk result (λ talk. talk ≡ record { number = desk.number; limits = limits; closings = 0; seen = []; hearings = blank; side = Some side; talking = None }) }
    {
        let none = Hearings {
            past: LinkedList::new(alloc),
            since: LinkedList::new(alloc),
        };
        let ledger = Ghost::new(alloc, &none)?;
        Ok(Talk {
            desk: OwnDesk::new(desk),
            limits,
            side: Some(side),
            talking: None,
            closings: 0,
            ledger,
        })
    }

    /// Lends the reading side of the slot, for a connection that is about to come: `begin` or `refuse` takes it back.
    /// There is none while a connection is there, or if it is lent already.
    pub fn lend_side(&mut self) -> Option<PairSide<K>>
        ensures { Lends result self.old self.new }
    {
        match &self.talking {
            Some(_) => None,
            None => self.side.take(),
        }
    }

    /// Takes a connection from which nothing was read yet, and whose socket was handed to the side that was lent.
    pub fn begin(
        &mut self,
        alloc: Global,
        side: PairSide<K>,
        source: LoggedSource<ReadHalf>,
        peer: Option<SocketAddr>,
    )
        requires handed { IsHanded self.old side (stream_raw_fd source.source.stream.value) true }
        requires unread { source.bytes ≡ [] }
        ensures { self.new ≡ begun self.old side (stream_raw_fd source.source.stream.value) source.answers source.last }
    {
        // Modelled in models/serving.h.
        self.side = Some(side);
        self.talking = Some(Talking {
            session: Session::new(alloc, self.limits),
            source,
            peer,
            reading: Reading::Goes,
        });
    }

    /// Whether there is a connection from which more may be read.
    pub fn is_reading(&self) -> bool
        ensures { result ≡ is_reading self.now.talking }
    {
        // Modelled in models/serving.h.
        match &self.talking {
            Some(talking) => match talking.reading {
                Reading::Goes => true,
                Reading::Drops { .. } => true,
                Reading::Ended { .. } => false,
            },
            None => false,
        }
    }

    /// Whether there is a connection from which nothing is read any more.
    pub fn has_ended(&self) -> bool
        ensures { result ≡ has_ended self.now.talking }
    {
        // Modelled in models/serving.h.
        match &self.talking {
            Some(_) => !self.is_reading(),
            None => false,
        }
    }

    /// Nothing is read any more from the connection, whose session is over.
    pub fn stop_reading(&mut self)
        requires { is_over self.old.talking ≡ true }
        ensures stopped { self.new ≡ record self.old { talking = with_reading ended_by self.old.talking } }
        ensures ended { has_ended self.new.talking ≡ true }
    {
        // Modelled in models/serving.h.
        match &mut self.talking {
            Some(talking) => talking.reading = ended_by(talking.reading),
            None => {}
        }
    }

    /// The connection's session is over for this reason, whatever of it is left, unless it was over already.
    pub fn cut(&mut self, end: SessionEnd)
        requires { ends_whole end ≡ false }
        ensures cut { self.new ≡ record self.old { talking = with_reading (cut_by end) self.old.talking } }
        ensures dropping { is_reading self.old.talking ≡ true → is_dropping self.new.talking ≡ true }
    {
        // Modelled in models/serving.h.
        match &mut self.talking {
            Some(talking) => talking.reading = cut_by(end, talking.reading),
            None => {}
        }
    }

    /// Takes what is left to be read, after a step that didn't wait: even if it didn't read, there may be more,
    /// since what came meanwhile isn't reported again.
    pub fn take_left(&mut self) -> Left
        ensures left { result ≡ left_in self.old.talking }
        ensures taken { self.new ≡ record self.old { talking = without_last self.old.talking } }
    {
        // Modelled in models/polling.pml.
        if !self.is_reading() {
            return Left::Nothing;
        }
        match &mut self.talking {
            Some(talking) => {
                let left = talking.source.take_left();
                if talking.session.has_units {
                    Left::Perhaps
                } else {
                    left
                }
            }
            None => Left::Nothing,
        }
    }

    /// Whether the last read failed, as the system found out that the peer vanished.
    pub fn has_timed_out(&self) -> bool
        ensures { result ≡ has_timed_out_in self.now.talking }
    {
        match &self.talking {
            Some(talking) => talking.source.has_timed_out(),
            None => false,
        }
    }

    /// Goes on with the session: reads a piece, unless whole units may be left, and takes a turn. The effects of its
    /// units are added. If the session is over, it says why: `Shut` if there is none that goes on.
    pub fn step<R: Wait + Clock, G: Gate>(
        &mut self,
        around: &Around<'_, K, R, G>,
        by: &Patience,
        effects: &mut Effects<K>,
    ) -> Result<(), SessionEnd>
        ensures steps { StepsOn self.old.talking K.settings K.taped result self.old self.new }
        ensures over { is_reading self.old.talking ≡ true → IfErr result (λ end. IsOverAs (ends_whole end) self.new.talking) }
        ensures gathers { Gathers K.settings K.taped self.old.number self.old.seen effects.old self.new.seen effects.new }
    {
        // Modelled in models/polling.pml.
        match &mut self.talking {
            Some(talking) => match talking.reading {
                Reading::Goes => step_on(&mut self.desk, talking, around, by, effects),
                Reading::Drops { .. } => Err(SessionEnd::Shut),
                Reading::Ended { .. } => Err(SessionEnd::Shut),
            },
            None => Err(SessionEnd::Shut),
        }
    }

    /// Reads once from a connection whose session is over, into this room, and drops the bytes. It answers how many
    /// there were, 0 at the end of the stream. An error is the read's.
    pub fn discard(&mut self, by: &Patience, room: &mut [u8]) -> io::Result<usize>
        requires { is_dropping self.old.talking ≡ true }
        ensures { Discards self.old.talking (answer_of result (length room.new)) self.old self.new }
    {
        match &mut self.talking {
            Some(talking) => talking.source.read_by(by, room),
            None => unreachable!(),
        }
    }

    /// Closes the slot, whose connection is gone, and from which nothing is read any more. With a tape there may be no
    /// memory for that: then the slot stays open in the book.
    pub fn close(
        &mut self,
        rt: &impl Wait,
        shared: &Shared<K>,
        effects: &mut Effects<K>,
    ) -> Result<Receipt, ApplyError>
        requires { has_ended self.old.talking ≡ true }
        ensures closes { Closes K.settings K.taped result self.old self.old.side self.new }
        ensures keeps { Keeps K.settings K.taped (Close self.old.number) self.old.number result self.old.seen self.new.seen effects.old effects.new }
        ensures memory { NeedsNoMemory K.taped (Close self.old.number) → IsErrOf result ApplyError.Memory → ⊥ }
    {
        // Modelled in models/serving.h.
        let slot = self.desk.desk.number();
        let answer = self.desk.apply(rt, shared, Event::Close { slot }, effects);
        if answer.is_ok() {
            self.closings = self.closings.saturating_add(1);
            enter(&mut self.ledger, &self.desk.desk, &self.talking);
            self.talking = None;
        }
        answer
    }

    /// Closes the slot of a connection that nobody serves, whose socket was handed to the side that was lent. With a
    /// tape there may be no memory for that: then the slot stays open in the book, and the side stays lent.
    pub fn refuse(
        &mut self,
        rt: &impl Wait,
        shared: &Shared<K>,
        side: PairSide<K>,
        effects: &mut Effects<K>,
    ) -> Result<Receipt, ApplyError>
        requires { (socket : ℤ) × IsHanded self.old side socket false }
        ensures closes { Closes K.settings K.taped result self.old (Some side) self.new }
        ensures keeps { Keeps K.settings K.taped (Close self.old.number) self.old.number result self.old.seen self.new.seen effects.old effects.new }
        ensures memory { NeedsNoMemory K.taped (Close self.old.number) → IsErrOf result ApplyError.Memory → ⊥ }
    {
        // Modelled in models/serving.h.
        let slot = self.desk.desk.number();
        let answer = self.desk.apply(rt, shared, Event::Close { slot }, effects);
        if answer.is_ok() {
            self.closings = self.closings.saturating_add(1);
            enter(&mut self.ledger, &self.desk.desk, &self.talking);
            self.side = Some(side);
        }
        answer
    }

    /// The desk and the side that the slot was given, its limits, and the account of the bytes read from its
    /// connections.
    pub fn into_parts(self) -> TalkParts<K>
        ensures desk { (result.desk.desk.number ≡ self.number) × (result.desk.desk.witness.seen ≡ self.seen) }
        ensures limits { result.limits ≡ self.limits }
        ensures side { result.side ≡ self.side }
        ensures hearings { result.ledger ≡ self.hearings }
        ensures talk { IsTalk K.settings self }
    {
        let Talk {
            desk,
            limits,
            side,
            ledger,
            ..
        } = self;
        TalkParts {
            desk,
            limits,
            side,
            ledger,
        }
    }
}
