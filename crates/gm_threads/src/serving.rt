//! How a connection is served, by either kind of threads: it is read by turns and ended, and the work that others leave
//! at its lane is done.

ghost use Rattle.std.specs.Prelude.{◌≡◌, ℤ, true, false, is_none, IfErr};
ghost use Rattle.gm_feeder.specs.declared.source.Answer.{Answer};
ghost use Rattle.gm_session.specs.Sessions.{ends_by, ends_whole};
ghost use Rattle.gm_session.specs.Talks.{Discards, IsHanded, IsOverAs, has_ended, is_dropping, is_over, is_reading};

use crate::state::ServerState;
use gm_delivery::{Deliverer, Finish, Leftover, ServerStage};
use gm_feeder::Patience;
use gm_notes::ApplyError;
use gm_poll::{Call, Poller};
use gm_report::Trouble;
use gm_session::{Around, Effects, Gate, SessionEnd, Talk};
use gm_shared::{BookName, PairSide, Receipt};
use gm_slots::Slot;
use gm_socket::Left;
use std::io::ErrorKind;
use std::sync::Wait;
use std::sync::atomic::Ordering;
use std::time::Clock;

/// How many bytes at most are read and dropped at a time from a connection that is to end.
const DROPPED: usize = 4_096;

/// Reads and drops the bytes that still come from a connection that is to end. This is done before its socket is
/// closed, because otherwise the system forgets the bytes that the peer hasn't read yet. It says whether more may come.
pub(crate) fn discard<K: BookName>(talk: &mut Talk<K>, patience: Patience) -> bool
    requires { is_dropping talk.old.talking ≡ true }
    ensures discards { (answer : Answer) × Discards talk.old.talking answer talk.old talk.new × (result ≡ is_none (ends_by answer)) }
    ensures over { is_over talk.new.talking ≡ true }
{
    // Modelled in models/polling.pml.
    let mut room = [0; DROPPED];
    match talk.discard(&patience, &mut room) {
        Ok(count) => count > 0,
        Err(error) => match error.kind() {
            ErrorKind::WouldBlock => true,
            ErrorKind::Interrupted => true,
            _ => false,
        },
    }
}

impl<K: BookName> ServerState<K> {
    /// Goes on with a connection that is to be read: reads a piece, unless units are left, and takes a turn; or ends
    /// it.
    pub(crate) fn turn<R: Wait + Clock, G: Gate>(
        &self,
        rt: &R,
        gate: &G,
        slot: &Slot<K>,
        talk: &mut Talk<K>,
        patience: Patience,
    )
        requires { is_reading talk.old.talking ≡ true }
    {
        // Modelled in models/serving.h.
        if !self.read(rt, gate, slot, talk, patience) {
            self.end(rt, slot, talk);
        }
    }

    /// Reads once from the connection: a piece, whose units a turn takes, of whose effects others are notified; or, after
    /// the session is over, bytes that are dropped. It says whether more may come.
    fn read<R: Wait + Clock, G: Gate>(
        &self,
        rt: &R,
        gate: &G,
        slot: &Slot<K>,
        talk: &mut Talk<K>,
        patience: Patience,
    ) -> bool
        requires { is_reading talk.old.talking ≡ true }
        ensures { result ≡ false → is_over talk.new.talking ≡ true }
    {
        // Modelled in models/polling.pml and serving.h.
        let outcome = if self.progress.stage.has_reached(ServerStage::Stopped as u8) {
            talk.cut(SessionEnd::Stopped);
            Err(SessionEnd::Stopped)
        } else {
            let around = Around {
                alloc: self.alloc,
                rt,
                shared: &self.shared,
                gate,
                host: Some(&self.host),
            };
            let mut effects = Effects::new();
            let outcome = talk.step(&around, &patience, &mut effects);
            self.notify(rt, Some(slot.lane.number()), &mut effects);
            effects.discharge();
            outcome
        };
        match outcome {
            Ok(()) => true,
            Err(end) if end.is_whole() => {
                if talk.has_timed_out() {
                    self.host.speaker.count_timed_out(rt);
                }
                false
            }
            Err(end) => {
                if end == SessionEnd::Memory {
                    self.host.speaker.remark(rt, Trouble::Cut, 0);
                }
                self.wake_for(slot.lane.end(&self.delivery(rt), false));
                discard(talk, patience)
            }
        }
    }

    /// Ends a connection whose session is over, and from which nothing is read any more.
    pub(crate) fn end<R: Wait + Clock>(&self, rt: &R, slot: &Slot<K>, talk: &mut Talk<K>)
        requires { is_over talk.old.talking ≡ true }
    {
        // Modelled in models/serving.h.
        talk.stop_reading();
        let leftover = slot.lane.end(&self.delivery(rt), true);
        if self.wake_for(leftover) == Some(Finish::Gone) {
            self.close(rt, talk);
        }
    }

    /// Does the work that a finisher's delivery left, and says what it was: a slot whose connection was let go of is
    /// closed.
    pub(crate) fn finish<R: Wait + Clock>(
        &self,
        rt: &R,
        slot: &Slot<K>,
        leftover: Leftover,
    ) -> Option<Finish>
        ensures { result ≡ leftover.finish }
    {
        // Modelled in models/serving.h.
        let finish = self.wake_for(leftover);
        if finish == Some(Finish::Gone) {
            let mut talk = slot.talk.lock(rt);
            // Its lane is let go of only after its input has ended.
            if talk.has_ended() {
                self.close(rt, &mut talk);
            }
        }
        finish
    }

    /// Closes the slot of a connection that is gone, and from which nothing is read any more.
    fn close<R: Wait + Clock>(&self, rt: &R, talk: &mut Talk<K>)
        requires { has_ended talk.old.talking ≡ true }
    {
        // Modelled in models/serving.h.
        let mut effects = Effects::new();
        let answer = talk.close(rt, &self.shared, &mut effects);
        self.count_out(rt, &answer, effects);
    }

    /// Closes the slot of a connection that nobody serves, whose socket was handed to the side that was lent.
    pub(crate) fn refuse<R: Wait + Clock>(&self, rt: &R, talk: &mut Talk<K>, side: PairSide<K>)
        requires { (socket : ℤ) × IsHanded talk.old side socket false }
    {
        // Modelled in models/serving.h.
        let mut effects = Effects::new();
        let answer = talk.refuse(rt, &self.shared, side, &mut effects);
        self.count_out(rt, &answer, effects);
    }

    /// Counts out a connection whose slot was closed, and notifies others of the effects of that. With a tape there may
    /// be no memory for the closing. Then the slot stays open in the book, and the server ends.
    fn count_out<R: Wait + Clock>(
        &self,
        rt: &R,
        answer: &Result<Receipt, ApplyError>,
        effects: Effects<K>,
    ) {
        // Modelled in models/serving.h.
        let mut effects = effects;
        if let Err(ApplyError::Memory) = answer {
            self.progress.stage.rise(ServerStage::Failed as u8);
        }
        self.notify(rt, None, &mut effects);
        effects.discharge();
        self.progress.connections.fetch_sub(1, Ordering::SeqCst);
    }

    /// Serves a slot without waiting, as the thread that has many, and puts it back. It says whether the slot has more
    /// to do now.
    pub(crate) fn visit<R: Wait + Clock, G: Gate>(
        &self,
        rt: &R,
        gate: &G,
        poller: &mut Poller,
        call: Call,
    ) -> bool {
        // Modelled in models/polling.pml and serving.h.
        let Some(slot) = self.slot(call.slot) else {
            return false;
        };
        let context = self.delivery(rt);
        let leftover = if call.is_woken {
            slot.lane
                .deliver(&context, Deliverer::Finisher(Patience::Hurries))
        } else {
            slot.lane.deliver_left(&context)
        };
        let finish = self.finish(rt, slot, leftover);
        let mut talk = slot.talk.lock(rt);
        if talk.is_reading() {
            self.turn(rt, gate, slot, &mut talk, Patience::Hurries);
        }
        let is_now = match talk.take_left() {
            Left::Perhaps => true,
            Left::Little => call.is_odd,
            Left::Nothing => false,
        };
        poller.put_back(call.slot, is_now, finish == Some(Finish::Pending));
        is_now
    }
}
