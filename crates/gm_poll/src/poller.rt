//! A thread's poller: it waits for the connections of the thread's slots.

ghost use Rattle.std.specs.Prelude.{◌≡◌, ◌+◌, ◌/◌, ◌^◌, ◌<◌, ◌&&◌, ◌||◌, ◌⊎◌, ℕ, List, not, true, IsTrue, IfOk, All, max, nat_lt, length, slice_set};
ghost use Rattle.std.specs.Int.{div_ceil};
ghost use Rattle.std.specs.VecDeque.{deque_len, deque_capacity};
ghost use Rattle.mio.specs.Event.{event_token, is_read_closed, is_priority};
ghost use Rattle.gm_poll.specs.Pollers.{IsNew, Heeds, IsHeard, TakesTurn, Wakes, all_marked, call_at, queued, reported, called, heard, longest_wait, is_while, looked_at, marked, served};

use crate::hub::Hub;
use gm_time::{AGAIN_MS, WAKING_TIME_MS};
use mio::event::Event;
use mio::{Events, Poll};
use std::alloc::{AllocError, Global};
use std::collections::VecDeque;
use std::marker::Model;
use std::sync::atomic::{AtomicU64, Ordering};
use std::time::{Clock, Duration, Instant};

/// How many slots are marked in a word.
pub(crate) const MARKS: usize = 64;

/// How many events it takes at a time.
const EVENTS: usize = 256;

/// The marks of 64 of a thread's slots, which others made and the thread took: it is to look at the marked ones. A
/// value of this type is let go of only by calling them.
pub(crate) struct Marks {
    /// The position of the first of the 64.
    first: usize,
    /// A bit for each.
    bits: u64,
}

impl Marks {
    /// No marks, of 64 slots from this position on.
    pub(crate) fn none(first: usize) -> Marks
        ensures { result ≡ record { first = first; bits = 0 } }
    {
        Marks { first, bits: 0 }
    }

    /// Takes the marks of 64 slots from this position on.
    pub(crate) fn take(word: &AtomicU64, first: usize) -> Marks
        ensures { result.first ≡ first }
    {
        // Modelled in models/polling.pml.
        let bits = match word.load(Ordering::SeqCst) {
            0 => 0,
            _ => word.swap(0, Ordering::SeqCst),
        };
        Marks { first, bits }
    }
}

/// A slot that a thread serves, and why it is to be served.
#[derive(Clone, Copy)]
pub struct Call {
    pub slot: u32,
    /// It was woken, or is to be looked at again: not only its socket was reported.
    pub is_woken: bool,
    /// More may be there after a short read: the peer closed its side, or an urgent byte cut the read short.
    pub is_odd: bool,
    /// It is among those to serve.
    is_ready: bool,
    /// It is among those that are looked at again.
    is_again: bool,
}

/// Waits for the slots that a thread serves. It finds all its memory when it is made. Contracts see which of its slots
/// are to be served and in which order, and why, and for how long it last asked the system and what that reported.
#[derive(Drop)]
pub struct Poller {
    poll: Poll,
    // The events that the system reported last, and how many milliseconds that could take at most.
    events: Events,
    time: u64,
    /// The thread's number, which is its first slot's, and how many threads there are, so how far its slots are apart.
    thread: u32,
    count: u32,
    calls: Vec<Call>,
    // The slots to serve that were reported or woken, each once, so that there is room for all.
    ready: VecDeque<usize>,
    // Slots with more to do after their turn: they come after the others. A slot is in at most one of the two, once.
    behind: VecDeque<usize>,
    // Those to look at again, each once.
    again: VecDeque<usize>,
    // When they were looked at last.
    looked: Option<Instant>,
}

impl Model for Poller {
    ghost use Rattle.std.specs.Prelude.{◌≤◌, vec_len};
    ghost use Rattle.std.specs.VecDeque.{deque_capacity};
    ghost use Rattle.mio.specs.Events.{items};
    ghost use Rattle.gm_poll.specs.Pollers.{PollerState, IsOrderly};

    ghost Value = { PollerState };

    ghost view = { λ p. record { thread = p.thread; count = p.count; calls = p.calls.items; ready = p.ready.items; behind = p.behind.items; again = p.again.items; time = p.time; events = items p.events } };

    ghost invariant = { λ p. IsOrderly (record { thread = p.thread; count = p.count; calls = p.calls.items; ready = p.ready.items; behind = p.behind.items; again = p.again.items; time = p.time; events = items p.events })
        × (vec_len p.calls ≤ deque_capacity p.ready)
        × (vec_len p.calls ≤ deque_capacity p.behind)
        × (vec_len p.calls ≤ deque_capacity p.again) };
}

impl Poller {
    /// For the thread with this number, of `count`, of a server with this many slots.
    pub(crate) fn new(
        alloc: Global,
        poll: Poll,
        thread: u32,
        count: u32,
        slots: u32,
    ) -> Result<Poller, AllocError>
        ensures { IfOk result (IsNew thread (max count 1) slots) }
    {
        let count = count.max(1);
        let mut calls = Vec::new(alloc);
        // The number after the last slot's may be more than a u32 holds.
        let mut slot = u64::from(thread);
        while slot < u64::from(slots) {
            calls.push(Call {
                slot: slot as u32,
                is_woken: false,
                is_odd: false,
                is_ready: false,
                is_again: false,
            })?;
            slot += u64::from(count);
        }
        Ok(Poller {
            poll,
            events: Events::with_capacity(alloc, EVENTS)?,
            time: 0,
            thread,
            count,
            ready: VecDeque::with_capacity(alloc, calls.len())?,
            behind: VecDeque::with_capacity(alloc, calls.len())?,
            again: VecDeque::with_capacity(alloc, calls.len())?,
            calls,
            looked: None,
        })
    }

    /// How many slots are to be served now.
    pub fn ready(&self) -> usize
        ensures { result ≡ length self.now.ready + length self.now.behind }
    {
        self.ready.len().saturating_add(self.behind.len())
    }

    /// Waits until there are slots to serve, or for a second. All that came meanwhile is to be served: each event that
    /// the system reported, each mark that others made, and what is to be looked at again.
    pub fn wait(&mut self, rt: &impl Clock, hub: &Hub)
        ensures time { self.new.time ≡ longest_wait self.old }
        ensures wakes { Wakes self.old self.new }
        ensures heeds { Heeds self.old self.new }
        ensures heard { All (IsHeard self.new) self.new.events }
    {
        // Modelled in models/polling.pml.
        let time = self.longest_wait();
        self.poll(time);
        self.hear();
        self.take_marks(hub);
        self.look_again(rt);
    }

    /// How many milliseconds it may wait: not at all if there are slots to serve, and less long if some are to be
    /// looked at again.
    fn longest_wait(&self) -> u64
        ensures { result ≡ longest_wait self.now }
    {
        // Modelled in models/polling.pml.
        if self.ready() > 0 {
            0
        } else if !self.again.is_empty() {
            AGAIN_MS
        } else {
            WAKING_TIME_MS
        }
    }

    /// Asks the system what came, and waits for this many milliseconds at most.
    fn poll(&mut self, time: u64)
        ensures { self.new ≡ record self.old { time = time; events = self.new.events } }
    {
        // Modelled in models/polling.pml.
        self.time = time;
        // If it fails, there are no events.
        let _ = self
            .poll
            .poll(&mut self.events, Some(Duration::from_millis(self.time)));
    }

    /// The slots of what was reported are to be served.
    fn hear(&mut self)
        ensures { self.new ≡ heard self.old.events self.old }
    {
        // Modelled in models/polling.pml.
        for event in &self.events {
            take_event(&mut self.calls, &mut self.ready, self.count, event);
        }
    }

    /// Takes the marks that others made: those slots are to be served.
    fn take_marks(&mut self, hub: &Hub)
        ensures { (words : List ℕ) × (length words ≡ div_ceil (length self.old.calls) 64) × (self.new ≡ all_marked words self.old) }
    {
        // Modelled in models/polling.pml.
        for at in 0..self.calls.len().div_ceil(MARKS) {
            let marks = hub.take_marks(self.thread, at * MARKS);
            self.call_marked(marks);
        }
    }

    /// The marked ones are to be served.
    fn call_marked(&mut self, marks: Marks)
        ensures { self.new ≡ marked marks.first marks.bits 64 self.old }
    {
        // Modelled in models/polling.pml.
        let Marks { first, bits } = marks;
        if bits == 0 {
            return;
        }
        for bit in 0..MARKS {
            if bits & 1 << bit != 0 {
                self.call(first.saturating_add(bit));
            }
        }
    }

    /// A slot is to be served, though its socket wasn't reported.
    fn call(&mut self, at: usize)
        ensures called { self.new ≡ called at self.old }
        ensures fits { length self.old.calls < 2 ^ 64 }
    {
        // Modelled in models/polling.pml.
        let Some(call) = self.calls.get_mut(at) else {
            return;
        };
        call.is_woken = true;
        queue_up(&mut self.ready, &mut call.is_ready, at, true);
    }

    /// Looks again at those that are to be, if it is time.
    fn look_again(&mut self, rt: &impl Clock)
        ensures { (self.new ≡ self.old) ⊎ (self.new ≡ looked_at self.old.again self.old) }
    {
        // Modelled in models/polling.pml.
        if self.again.is_empty() || !self.is_time(rt) {
            return;
        }
        for _ in 0..self.again.len() {
            let Some(at) = self.again.pop_front() else {
                break;
            };
            if let Some(call) = self.calls.get_mut(at) {
                call.is_again = false;
            }
            self.call(at);
        }
    }

    /// Whether it is a while since they were looked at.
    fn is_time(&mut self, rt: &impl Clock) -> bool
        ensures { self.new ≡ self.old }
    {
        // Modelled in models/polling.pml.
        let now = Instant::now(rt).ok();
        let is_time = is_while(&self.looked, &now);
        if is_time {
            self.looked = now;
        }
        is_time
    }

    /// The next slot to serve, if there is one.
    pub fn next(&mut self) -> Option<Call>
        ensures { TakesTurn result self.old self.new }
    {
        // Modelled in models/polling.pml.
        let at = match self.ready.pop_front() {
            Some(at) => at,
            None => self.behind.pop_front()?,
        };
        let call = self.calls.get_mut(at)?;
        let next = *call;
        call.is_ready = false;
        call.is_woken = false;
        Some(next)
    }

    /// A slot was served: it is to be served again once the others were that are to be served now, or when it is
    /// called; and it is looked at again in a while or not.
    pub fn put_back(&mut self, slot: u32, is_now: bool, is_again: bool)
        ensures { self.new ≡ served (slot / self.old.count) is_now is_again self.old }
    {
        // Modelled in models/polling.pml.
        let at = (slot / self.count.max(1)) as usize;
        let Some(call) = self.calls.get_mut(at) else {
            return;
        };
        call.is_odd = call.is_odd && is_now;
        queue_up(&mut self.behind, &mut call.is_ready, at, is_now);
        queue_up(&mut self.again, &mut call.is_again, at, is_again);
    }
}

/// Whether a while has passed from one time to the other. It has if a time isn't known.
fn is_while(from: &Option<Instant>, to: &Option<Instant>) -> bool
    ensures { result ≡ is_while AGAIN_MS from.now to.now }
{
    // Modelled in models/polling.pml.
    match (from, to) {
        (Some(from), Some(to)) => to.duration_since(*from) >= Duration::from_millis(AGAIN_MS),
        _ => true,
    }
}

/// Puts a position at the queue's end if it comes there and isn't there yet, as its flag says.
fn queue_up(queue: &mut VecDeque<usize>, is_there: &mut bool, at: usize, comes: bool)
    requires { not is_there.old && comes ≡ true → deque_len queue.old < deque_capacity queue.old }
    ensures positions { queue.new.items ≡ queued (not is_there.old && comes) at queue.old.items }
    ensures there { is_there.new ≡ (is_there.old || comes) }
    ensures room { deque_capacity queue.new ≡ deque_capacity queue.old }
{
    // Modelled in models/polling.pml.
    if comes && !*is_there {
        *is_there = true;
        let _ = queue.push_back(at);
    }
}

/// The slot of an event is to be served.
fn take_event(calls: &mut Vec<Call>, ready: &mut VecDeque<usize>, count: u32, event: &Event)
    requires count { 0 < count }
    requires room { IsTrue (not (call_at calls.old.items ((event_token event.now).0 / count)).is_ready) → (event_token event.now).0 / count < length calls.old.items → deque_len ready.old < deque_capacity ready.old }
    ensures calls { let at = (event_token event.now).0 / count in
        calls.new.items ≡ slice_set calls.old.items at (reported (is_read_closed event.now || is_priority event.now) (call_at calls.old.items at)) }
    ensures positions { let at = (event_token event.now).0 / count in
        ready.new.items ≡ queued (not (call_at calls.old.items at).is_ready && nat_lt at (length calls.old.items)) at ready.old.items }
    ensures capacity { deque_capacity ready.new ≡ deque_capacity ready.old }
{
    // Modelled in models/polling.pml.
    let at = event.token().0 / count.max(1) as usize;
    let Some(call) = calls.get_mut(at) else {
        return;
    };
    if event.is_read_closed() || event.is_priority() {
        call.is_odd = true;
    }
    queue_up(ready, &mut call.is_ready, at, true);
}
