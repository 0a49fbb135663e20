//! A slot's lane: one thread at a time delivers the slot's bytes to its connection's socket.

ghost use Rattle.std.specs.Prelude.{◌≡◌, ◌<◌, [], length, Some, true, false, IfSome, IsSome, IfOk, MatchBool, MatchOption};
ghost use Rattle.std.specs.Net.Tcp.{stream_raw_fd};
ghost use Rattle.gm_shared.specs.Openings.{most_openings};
ghost use Rattle.gm_shared.specs.Pairings.{passed_with};
ghost use Rattle.gm_delivery.specs.Accounts.{ArePast, AreOver, WentThrough};
ghost use Rattle.gm_delivery.specs.Leftovers.{IsLeftBy, Tried, TriesOver, TriedOver, TriedLeft, Left, Attempted};
ghost use Rattle.gm_delivery.specs.declared.finish.Deliverer.TheVariants.{Reader as ByReader, Other as ByOther};

use crate::finish::{Deliverer, Finish, Leftover};
use crate::life::Deed;
use crate::sender::{Delivered, LaneParts, Sender};
use crate::stage::{INPUT_ENDED, MUST_END, Stage};
use gm_feeder::Patience;
use gm_lane_word::{Attempt, Claim, Due, LaneWord, Tally};
use gm_report::Speaker;
use gm_shared::{BookName, PairSide, Pairing, Pen, Shared};
use gm_socket::{LoggedWriter, Socket};
use std::alloc::{AllocError, Global};
use std::sync::{Mutex, Wait};
use std::time::Clock;

/// How many attempts a thread makes in a row, if the lane is touched again and again.
const MOST_ATTEMPTS: u32 = 16;

/// The surroundings of a delivery: the book in which the bytes and NOOPs wait, the stage of the server, and the
/// speaker, which reports peers that vanished.
#[derive(Clone, Copy)]
pub struct DeliveryContext<'s, K: BookName, R> {
    pub rt: &'s R,
    pub shared: &'s Shared<K>,
    pub server: &'s Stage,
    pub speaker: &'s Speaker,
}

/// How a thread writes: what is asked of its connection, and whether it waits for a slow peer.
#[derive(Drop)]
pub(crate) struct Writing<'a, K: BookName, R> {
    pub(crate) context: &'a DeliveryContext<'a, K, R>,
    pub(crate) asked: &'a Stage,
    pub(crate) patience: Patience,
}

/// A slot's part for sending. The bytes to send are with the thread that has the lane, so its lock is waited for only
/// when a connection comes.
#[derive(Drop)]
pub struct Lane<K: BookName> {
    slot: u32,
    // It is given up only for a delivery.
    word: LaneWord<Delivered>,
    sender: Mutex<Sender<K>>,
    /// Whether the connection is asked to end, as a stage.
    asked: Stage,
}

impl<K: BookName> Lane<K> {
    /// A lane with this pen, which was given nothing yet, the side of its slot that writes, and no connection.
    pub fn new(alloc: Global, pen: Pen<K>, side: PairSide<K>) -> Result<Lane<K>, AllocError>
        requires pen { (pen.witness.seen ≡ []) × (pen.seat.takes ≡ 0) }
        requires side { side.passed ≡ [] }
        ensures { IfOk result (λ lane. lane.slot ≡ pen.slot) }
    {
        // Modelled in models/lane.h.
        Ok(Lane {
            slot: pen.slot(),
            word: LaneWord::new(alloc)?,
            sender: Mutex::new(Sender::new(alloc, pen, side)?),
            asked: Stage::new(),
        })
    }

    /// The slot's number.
    pub fn number(&self) -> u32
        ensures { result ≡ self.now.slot }
    {
        self.slot
    }

    /// The slot's pen, and the account of all its connections (`Sender::into_parts`).
    pub fn into_parts(self) -> LaneParts<K>
        ensures past { ArePast result.pen.slot result.ledger.past result.pen.witness.seen result.pen.seat.takes }
        ensures counted { result.openings < most_openings → (length result.ledger.past ≡ result.openings) × AreOver result.pen.slot result.ledger.past result.pen.witness.seen }
        ensures side { WentThrough result.ledger.past result.side.passed }
    {
        let Lane { sender, .. } = self;
        sender.into_inner().into_parts()
    }

    /// Takes a connection, whose socket is handed to both sides of its slot: none means that this isn't the other side,
    /// and then there is no connection. The last one left the lane to its finisher, so a thread has to try before
    /// touches count.
    pub fn open<R: Wait + Clock>(
        &self,
        context: &DeliveryContext<'_, K, R>,
        writing: LoggedWriter<Socket>,
        reading: &mut PairSide<K>,
        pairing: &mut Pairing<K>,
    ) -> Option<Leftover>
        requires unwritten { (writing.bytes ≡ []) × (writing.answers ≡ []) }
        ensures paired { MatchOption result (reading.new ≡ reading.old) (λ _. reading.new ≡ passed_with (Some (stream_raw_fd writing.writer.stream.value, true)) reading.old) }
        ensures tried { IfSome result (λ leftover. (leftover.slot ≡ self.now.slot) × TriedOver self.now.word leftover.tally × IsLeftBy ByOther leftover.finish) }
        ensures slots { pairing.new ≡ pairing.old }
    {
        // Modelled in models/lane.h.
        self.asked.restart();
        if !self
            .sender
            .lock(context.rt)
            .begin(writing, reading, pairing, true)
        {
            return None;
        }
        match self.word.take_over() {
            Ok(claim) => Some(self.deliver_claimed(context, claim, Deliverer::Other)),
            Err(tally) => Some(Leftover::new(self.slot, None, Deliverer::Other, Some(tally))),
        }
    }

    /// Takes a connection, and lets go of it at once, because no thread serves it. It says whether its socket could be
    /// handed to both sides of its slot.
    pub fn refuse(
        &self,
        rt: &impl Wait,
        writing: LoggedWriter<Socket>,
        reading: &mut PairSide<K>,
        pairing: &mut Pairing<K>,
    ) -> bool
        requires unwritten { (writing.bytes ≡ []) × (writing.answers ≡ []) }
        ensures paired { MatchBool result (reading.new ≡ passed_with (Some (stream_raw_fd writing.writer.stream.value, false)) reading.old) (reading.new ≡ reading.old) }
        ensures slots { pairing.new ≡ pairing.old }
    {
        // Modelled in models/endings.pml and shutdown.pml.
        self.sender.lock(rt).refuse(writing, reading, pairing)
    }

    /// Tells the lane that there may be something to send, and sends it, unless another thread has the lane and so
    /// tries after this.
    pub fn touch<R: Wait + Clock>(&self, context: &DeliveryContext<'_, K, R>, due: Due) -> Leftover
        requires { due.slot ≡ self.now.slot }
        ensures slot { result.slot ≡ self.now.slot }
        ensures tried { Tried self.now.word result.tally }
        ensures by { IsLeftBy ByOther result.finish }
    {
        // Modelled in models/lane.h.
        match self.word.touch(due) {
            Ok(claim) => self.deliver_claimed(context, claim, Deliverer::Other),
            Err(tally) => Leftover::new(self.slot, None, Deliverer::Other, Some(tally)),
        }
    }

    /// Tells the lane that there may be something to send, which is left to the finisher, or to the thread that tries
    /// anyway.
    pub fn touch_for_finisher(&self, due: Due) -> Leftover
        requires { due.slot ≡ self.now.slot }
        ensures slot { result.slot ≡ self.now.slot }
        ensures left { Left self.now.word result.tally }
        ensures by { IsLeftBy ByOther result.finish }
    {
        // Modelled in models/lane.h.
        match self.word.leave(due) {
            Ok(tally) => Leftover::new(
                self.slot,
                Some(Finish::Again),
                Deliverer::Other,
                Some(tally),
            ),
            // Another thread tries after this touch.
            Err(tally) => Leftover::new(self.slot, None, Deliverer::Other, Some(tally)),
        }
    }

    /// Asks for the connection's end, because its input ended or for another reason, and goes on with that. The thread
    /// that reads from the connection calls it; it has no effect if that was asked already. The work that can't be done
    /// at once is left to the finisher.
    pub fn end<R: Wait + Clock>(
        &self,
        context: &DeliveryContext<'_, K, R>,
        has_input_ended: bool,
    ) -> Leftover
        ensures slot { result.slot ≡ self.now.slot }
        ensures tried { IfSome result.tally (TriesOver self.now.word) }
        ensures by { IsLeftBy ByReader result.finish }
    {
        // Modelled in models/lane.h.
        let asked = if has_input_ended {
            INPUT_ENDED
        } else {
            MUST_END
        };
        if !self.asked.rise(asked) {
            return Leftover::new(self.slot, None, Deliverer::Reader, None);
        }
        self.deliver(context, Deliverer::Reader)
    }

    /// Sends what there is to send, and does what else is to be done for the connection; or leaves that to the thread
    /// that has the lane, which tries after this.
    pub fn deliver<R: Wait + Clock>(
        &self,
        context: &DeliveryContext<'_, K, R>,
        deliverer: Deliverer,
    ) -> Leftover
        ensures slot { result.slot ≡ self.now.slot }
        ensures tried { TriedOver self.now.word result.tally }
        ensures by { IsLeftBy deliverer result.finish }
    {
        // Modelled in models/lane.h.
        match self.word.take_over() {
            Ok(claim) => self.deliver_claimed(context, claim, deliverer),
            Err(tally) => Leftover::new(self.slot, Some(Finish::Pending), deliverer, Some(tally)),
        }
    }

    /// Delivers as the finisher, without waiting, if others left something to it.
    pub fn deliver_left<R: Wait + Clock>(&self, context: &DeliveryContext<'_, K, R>) -> Leftover
        ensures slot { result.slot ≡ self.now.slot }
        ensures tried { TriedLeft self.now.word result.tally }
    {
        // Modelled in models/lane.h.
        let finisher = Deliverer::Finisher(Patience::Hurries);
        match self.word.take_over_left() {
            Ok(claim) => self.deliver_claimed(context, claim, finisher),
            Err(tally) => Leftover::new(self.slot, None, finisher, Some(tally)),
        }
    }

    /// Makes an attempt, and another if the lane was touched since.
    fn deliver_claimed<'a, R: Wait + Clock>(
        &'a self,
        context: &DeliveryContext<'_, K, R>,
        claim: Claim<'a, Delivered>,
        deliverer: Deliverer,
    ) -> Leftover
        requires lane { claim.lane ≡ self.now.word }
        requires untouched { claim.hand_overs ≡ 0 }
        ensures slot { result.slot ≡ self.now.slot }
        ensures tried { Attempted claim.entry result.tally }
        ensures by { IsLeftBy deliverer result.finish }
    {
        // Modelled in models/lane.h.
        let mut claim = claim;
        let mut attempts_left = MOST_ATTEMPTS;
        loop {
            let (attempt, outcome) = claim.attempt(|attempt| self.attempt(
                context, attempt, deliverer,
            ));
            let delivered = match outcome {
                Ok(delivered) => delivered,
                Err(finish) => return Leftover::new(
                    self.slot,
                    Some(finish),
                    deliverer,
                    Some(attempt.hand_over()),
                ),
            };
            claim = match attempt.finish(delivered) {
                Ok(tally) => return Leftover::new(self.slot, None, deliverer, Some(tally)),
                Err(again) => again,
            };
            attempts_left -= 1;
            if attempts_left == 0 {
                return Leftover::new(
                    self.slot,
                    Some(Finish::Again),
                    deliverer,
                    Some(claim.hand_over()),
                );
            }
        }
    }

    /// Sends what there is to send, and does what else is to be done for the connection. An error means that the lane
    /// can't be given up, and says what is left to do.
    fn attempt<R: Wait + Clock>(
        &self,
        context: &DeliveryContext<'_, K, R>,
        _attempt: &Attempt<'_, Delivered>,
        deliverer: Deliverer,
    ) -> Result<Delivered, Finish>
        requires { _attempt.now.lane ≡ self.now.word }
    {
        // Modelled in models/lane.h.
        let mut sender = self.sender.lock(context.rt);
        let patience = match deliverer {
            Deliverer::Finisher(patience) => patience,
            Deliverer::Reader | Deliverer::Other => Patience::Hurries,
        };
        let by = Writing {
            context,
            asked: &self.asked,
            patience,
        };
        // Under the lock, so that it is asked of this connection; and first, so that all is sent that was queued before
        // its end was asked for.
        let asked = self.asked.asked(context.server);
        let has_ended = asked.has_ended;
        let ends = asked.is_ending && !has_ended;
        match sender.deliver(&by, ends, has_ended) {
            Ok(delivered) => Ok(delivered),
            // A write that may wait has waited. The system reports that a socket takes bytes again only after one that
            // it took in part.
            Err(Deed::Send) if patience == Patience::Waits || sender.takes_more() => {
                Err(Finish::Again)
            }
            // A thread that only queued something leaves that to the finisher.
            Err(Deed::LetGo) => match deliverer {
                Deliverer::Other => Err(Finish::Pending),
                Deliverer::Finisher(_) | Deliverer::Reader => {
                    sender.let_go(has_ended);
                    Err(Finish::Gone)
                }
            },
            Err(_) => Err(Finish::Pending),
        }
    }
}
