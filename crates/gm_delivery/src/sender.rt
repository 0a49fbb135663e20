//! The sender of a slot: what its connections still have to be sent, and their sockets.

ghost use Rattle.std.specs.Prelude.{◌≡◌, ◌<◌, [], length, Option, Some, None, true, false, IfOk, MatchBool};
ghost use Rattle.std.specs.Net.Tcp.{stream_raw_fd};
ghost use Rattle.gm_shared.specs.Openings.{most_openings};
ghost use Rattle.gm_shared.specs.Pairings.{IsPair, passed_with};
ghost use Rattle.gm_delivery.specs.Accounts.{no_sendings, ArePast, AreOver, WentThrough, closed};
ghost use Rattle.gm_delivery.specs.Sendings.{SenderState, is_clear, can_begin, took_all_in, SendsLeft, Refills, finished, Transmits, Decides, deed_after, Delivers, let_go_of, begun};

use crate::account::Sendings;
use crate::lane::Writing;
use crate::life::{Deed, OutboundState};
use crate::message::Message;
use crate::outbound::Outbound;
use gm_ghost::Ghost;
use gm_shared::{BookName, PairSide, Pairing, Pen};
use gm_socket::{LoggedWriter, Socket};
use std::alloc::{AllocError, Global};
use std::collections::LinkedList;
use std::marker::{Brand, Model};
use std::sync::Wait;
use std::time::Clock;

/// That a delivery was made, and nothing is left to do. Only `Sender::deliver` makes it, and a lane's word is given up
/// only for it.
#[derive(Drop)]
pub(crate) struct Delivered {
    _made: (),
}

/// The sender of a slot: the bytes and NOOPs for its connections, and the present connection. Contracts see what its
/// pen has seen and taken, the rest to send, the bytes written to the connection, and the account of those that are
/// gone.
#[derive(Drop)]
pub(crate) struct Sender<K: BookName> {
    pen: Pen<K>,
    /// How many connections began, each for the next opening of its slot; the greatest `u64` once one couldn't be told
    /// from the next, or a drain was of another opening.
    openings: u64,
    /// The rest of the present message.
    left: Option<Message>,
    /// The connection, until it is let go of.
    outbound: Option<Outbound>,
    /// The writing side of the slot, which knows the sockets of its connections.
    side: PairSide<K>,
    ledger: Ghost<Sendings>,
}

impl<K: BookName> Model for Sender<K> {
    ghost use Rattle.gm_delivery.specs.Messages.{left_in};
    ghost use Rattle.gm_delivery.specs.Sendings.{SenderState, IsSender};

    ghost Value = { SenderState };

    ghost view = { λ s. record {
      slot = s.pen.slot;
      openings = s.openings;
      seen = s.pen.witness.seen;
      takes = s.pen.seat.takes;
      tries = s.pen.seat.tries;
      left = left_in s.left;
      outbound = s.outbound;
      side = s.side;
      sendings = s.ledger;
    } };

    ghost invariant = { λ s. IsSender (record {
      slot = s.pen.slot;
      openings = s.openings;
      seen = s.pen.witness.seen;
      takes = s.pen.seat.takes;
      tries = s.pen.seat.tries;
      left = left_in s.left;
      outbound = s.outbound;
      side = s.side;
      sendings = s.ledger;
    }) };
}

/// The parts that a slot's lane hands out at the end: the pen, the account of all connections, and the side that knows
/// their sockets. `openings` is how many they are, one for each opening; the greatest `u64` if it can't tell.
#[derive(Drop)]
pub struct LaneParts<K: BookName> {
    pub pen: Pen<K>,
    pub ledger: Ghost<Sendings>,
    pub openings: u64,
    pub side: PairSide<K>,
}

/// Enters a connection that is gone.
fn enter<K: BookName>(
    ledger: &mut Ghost<Sendings>,
    pen: &Pen<K>,
    outbound: &Outbound,
    is_whole: bool,
)
    ensures { ledger.new ≡ closed pen.now.witness.seen pen.now.seat.takes outbound.now.socket outbound.now.log is_whole ledger.old }
{
    ledger.update::<(&Pen<K>, &Outbound, bool), Brand>(&(pen, outbound, is_whole));
}

impl<K: BookName> Sender<K> {
    /// A pen that was given nothing yet, the side of its slot that writes, and no connection.
    pub(crate) fn new(
        alloc: Global,
        pen: Pen<K>,
        side: PairSide<K>,
    ) -> Result<Sender<K>, AllocError>
        requires pen { (pen.witness.seen ≡ []) × (pen.seat.takes ≡ 0) }
        requires side { side.passed ≡ [] }
        ensures { IfOk result (λ sender. (sender.slot ≡ pen.slot) × (sender.outbound ≡ None) × (sender.sendings ≡ no_sendings)) }
    {
        let blank = Sendings {
            past: LinkedList::new(alloc),
            since: LinkedList::new(alloc),
            takes: 0,
        };
        Ok(Sender {
            pen,
            openings: 0,
            left: None,
            outbound: None,
            side,
            ledger: Ghost::new(alloc, &blank)?,
        })
    }

    /// Takes a connection, which is served or isn't, lets go of one that is there, and hands its socket to both sides
    /// of the slot. It says whether it could: only if this is the other side of the slot. The connection can be sent
    /// to, unless a count of 64 bits can't tell its opening from the one after it.
    pub(crate) fn begin(
        &mut self,
        writing: LoggedWriter<Socket>,
        reading: &mut PairSide<K>,
        pairing: &mut Pairing<K>,
        is_served: bool,
    ) -> bool
        requires unwritten { (writing.bytes ≡ []) × (writing.answers ≡ []) }
        ensures begun { MatchBool result (self.new ≡ begun (stream_raw_fd writing.writer.stream.value) [] is_served (let_go_of self.old)) (self.new ≡ let_go_of self.old) }
        ensures paired { MatchBool result (IsPair reading.old self.old.side × (reading.new ≡ passed_with (Some (stream_raw_fd writing.writer.stream.value, is_served)) reading.old))
            ((IsPair reading.old self.old.side → ⊥) × (reading.new ≡ reading.old)) }
        ensures slots { pairing.new ≡ pairing.old }
    {
        // Modelled in models/lane.h.
        self.release();
        let socket = writing.writer().descriptor();
        if !pairing.pair(reading, &mut self.side, socket, is_served) {
            return false;
        }
        let begins = self.openings < u64::MAX - 1;
        self.openings = if begins { self.openings + 1 } else { u64::MAX };
        self.outbound = Some(Outbound::new(writing, begins));
        true
    }

    /// Sends the rest, and then the bytes and the NOOP that wait in the book, and decides the next step. If nothing is
    /// left to do, the lane may be given up.
    pub(crate) fn deliver<R: Wait + Clock>(
        &mut self,
        by: &Writing<'_, K, R>,
        ends: bool,
        has_ended: bool,
    ) -> Result<Delivered, Deed>
        ensures { Delivers K.settings K.taped ends has_ended result self.old self.new }
    {
        // Modelled in models/lane.h.
        let is_clear = self.transmit(by, ends);
        let Some(outbound) = &mut self.outbound else {
            return Ok(Delivered { _made: () });
        };
        match outbound.next(by, !is_clear, has_ended) {
            Deed::Serve => Ok(Delivered { _made: () }),
            Deed::HangUp => {
                self.left = None;
                Ok(Delivered { _made: () })
            }
            Deed::Send => Err(Deed::Send),
            Deed::Linger => Err(Deed::Linger),
            Deed::LetGo => Err(Deed::LetGo),
        }
    }

    /// Sends the rest, and then all that waits in the book: the bytes, and a NOOP if one is owed. Bytes that wait for
    /// another opening of the slot than the connection's aren't sent. If the book is asked for bytes, it is asked
    /// for the NOOP first. If all was sent, and the slot is shut or the connection is to end, nothing more is sent, and
    /// the sending side of the socket is shut, which tells the peer. It says whether the connection can be sent to, and
    /// nothing is left.
    fn transmit<R: Wait + Clock>(&mut self, by: &Writing<'_, K, R>, ends: bool) -> bool
        ensures transmits { Transmits K.settings K.taped ends self.old self.new }
        ensures clear { result ≡ is_clear self.new }
    {
        // Modelled in models/lane.h.
        if !self.send_left(by) {
            return false;
        }
        let Some(is_shut) = self.refill(by) else {
            return false;
        };
        let is_clear = self.send_left(by);
        if is_clear && (is_shut || ends) {
            self.finish();
            return false;
        }
        is_clear
    }

    /// Sends the rest of the present message. It says whether the connection can be sent to, and nothing is left.
    fn send_left<R: Wait + Clock>(&mut self, by: &Writing<'_, K, R>) -> bool
        ensures sends { SendsLeft self.old self.new }
        ensures clear { result ≡ is_clear self.new }
    {
        // Modelled in models/lane.h.
        match &mut self.outbound {
            Some(outbound) => outbound.send(&mut self.left, by),
            None => false,
        }
    }

    /// Takes the bytes and the NOOP that the pen gives, which are left to be sent then, and says whether the slot is
    /// shut. If it gives nothing, or bytes for another opening of the slot, the connection is cut, and the answer is
    /// none.
    fn refill<R: Wait + Clock>(&mut self, by: &Writing<'_, K, R>) -> Option<bool>
        requires { is_clear self.old ≡ true }
        ensures { Refills K.settings K.taped result self.old self.new }
    {
        // Modelled in models/lane.h.
        let shared = by.context.shared;
        let took = self.pen.take(shared);
        let drained = self.pen.drain(by.context.rt, shared);
        let Some(outbound) = &mut self.outbound else {
            return None;
        };
        match drained {
            Ok(drained) if drained.opening == self.openings => {
                self.left = Some(Message::new(drained.bytes, took));
                Some(drained.shut)
            }
            Ok(_) => {
                self.openings = u64::MAX;
                outbound.cut();
                None
            }
            Err(_) => {
                outbound.cut();
                None
            }
        }
    }

    /// All was sent, and no more is.
    fn finish(&mut self)
        requires { is_clear self.old ≡ true }
        ensures { self.new ≡ finished self.old }
    {
        // Modelled in models/lane.h.
        match &mut self.outbound {
            Some(outbound) => outbound.finish(),
            None => {}
        }
    }

    /// Whether the last write took all.
    pub(crate) fn takes_more(&self) -> bool
        ensures { result ≡ took_all_in self.now.outbound }
    {
        match &self.outbound {
            Some(outbound) => outbound.takes_more(),
            None => false,
        }
    }

    /// Lets go of the connection after a delivery, as nothing is read from it any more.
    pub(crate) fn let_go(&mut self, has_ended: bool)
        requires { deed_after self.old has_ended ≡ Deed.LetGo }
        ensures { self.new ≡ let_go_of self.old }
    {
        // Modelled in models/lane.h.
        self.release();
    }

    /// Takes a connection that nobody serves, and lets go of it at once. It says whether its socket could be handed to
    /// both sides of the slot.
    pub(crate) fn refuse(
        &mut self,
        writing: LoggedWriter<Socket>,
        reading: &mut PairSide<K>,
        pairing: &mut Pairing<K>,
    ) -> bool
        requires unwritten { (writing.bytes ≡ []) × (writing.answers ≡ []) }
        ensures begun { MatchBool result (self.new ≡ let_go_of (begun (stream_raw_fd writing.writer.stream.value) [] false (let_go_of self.old))) (self.new ≡ let_go_of self.old) }
        ensures paired { MatchBool result (IsPair reading.old self.old.side × (reading.new ≡ passed_with (Some (stream_raw_fd writing.writer.stream.value, false)) reading.old))
            ((IsPair reading.old self.old.side → ⊥) × (reading.new ≡ reading.old)) }
        ensures slots { pairing.new ≡ pairing.old }
    {
        // Modelled in models/endings.pml and shutdown.pml.
        if !self.begin(writing, reading, pairing, false) {
            return false;
        }
        self.release();
        true
    }

    /// Ends the connection, if there is one, and lets go of it.
    fn release(&mut self)
        ensures { self.new ≡ let_go_of self.old }
    {
        // Modelled in models/lane.h.
        if let Some(outbound) = self.outbound.take() {
            let is_whole = match outbound.state() {
                OutboundState::Open => match &self.left {
                    None => true,
                    Some(message) => message.is_empty(),
                },
                OutboundState::Finished => true,
                OutboundState::Cut => false,
            };
            enter(&mut self.ledger, &self.pen, &outbound, is_whole);
        }
        self.left = None;
    }

    /// The pen, and the account of all connections: to each was written a prefix of the bytes that the pen was given
    /// at its opening of the slot, and each went through the socket that the side knows of it.
    pub(crate) fn into_parts(self) -> LaneParts<K>
        ensures past { ArePast result.pen.slot result.ledger.past result.pen.witness.seen result.pen.seat.takes }
        ensures counted { result.openings < most_openings → (length result.ledger.past ≡ result.openings) × AreOver result.pen.slot result.ledger.past result.pen.witness.seen }
        ensures side { WentThrough result.ledger.past result.side.passed }
        ensures slot { result.pen.slot ≡ self.slot }
    {
        let mut sender = self;
        sender.release();
        let Sender {
            pen,
            openings,
            side,
            ledger,
            ..
        } = sender;
        LaneParts {
            pen,
            ledger,
            openings,
            side,
        }
    }
}
