//! The threads that serve connections: how they wait, and how they are woken. Their work then is the same for both ways
//! (`serving`).

use crate::state::ServerState;
use crossbeam_utils::sync::{Parker, Unparker};
use gm_delivery::{Deliverer, Finish, ServerStage};
use gm_feeder::Patience;
use gm_poll::{Hub, Poller};
use gm_session::Gate;
use gm_shared::BookName;
use gm_slots::Slot;
use gm_time::AGAIN_MS;
use std::alloc::{AllocError, Global};
use std::io;
use std::os::fd::RawFd;
use std::sync::atomic::{AtomicU8, Ordering};
use std::sync::{Condvar, Mutex, Wait};
use std::thread::{Scope, Threads};
use std::time::{Clock, Duration};

/// The two threads of a slot, as other threads wake them.
#[derive(Drop)]
pub struct Pair {
    /// The finisher's.
    parker: Mutex<Parker>,
    unparker: Unparker,
    /// A connection came to the slot, or none comes any more.
    arrived: Condvar,
    /// How many of the two were made: the finisher is the first.
    made: AtomicU8,
}

impl Pair {
    fn new(alloc: Global) -> Result<Pair, AllocError> {
        let parker = Parker::new(alloc)?;
        let unparker = parker.unparker().clone()?;
        Ok(Pair {
            parker: Mutex::new(parker),
            unparker,
            arrived: Condvar::new(),
            made: AtomicU8::new(0),
        })
    }
}

/// The threads that serve connections, as other threads wake them.
#[derive(Drop)]
pub enum Crews {
    /// Two for each slot, made when its first connection comes: its reader, and its finisher.
    Pairs(Vec<Pair>),
    /// A few for all slots, each for its own: they read and finish.
    Few(Hub),
}

impl Crews {
    /// Two threads for each of this many slots.
    pub fn pairs(alloc: Global, slots: u32) -> Result<Crews, AllocError> {
        let mut pairs = Vec::with_capacity(alloc, slots as usize)?;
        for _ in 0..slots {
            pairs.push(Pair::new(alloc)?)?;
        }
        Ok(Crews::Pairs(pairs))
    }

    /// Whether they are a few for all slots.
    pub(crate) fn are_few(&self) -> bool {
        matches!(self, Crews::Few(_))
    }

    /// Has the slot's finisher look at its lane.
    pub(crate) fn wake(&self, slot: u32) {
        // Modelled in models/lane.h.
        match self {
            Crews::Pairs(pairs) => {
                if let Some(pair) = pairs.get(slot as usize) {
                    pair.unparker.unpark();
                }
            }
            Crews::Few(hub) => hub.wake(slot),
        }
    }

    /// Has all finishers look at their lanes.
    pub(crate) fn wake_all(&self) {
        // Modelled in models/serving.h.
        match self {
            Crews::Pairs(pairs) => {
                for pair in pairs {
                    pair.unparker.unpark();
                }
            }
            Crews::Few(hub) => hub.wake_all(),
        }
    }

    /// Has the connection that came to the slot read. It has this descriptor.
    pub(crate) fn begin(&self, slot: u32, fd: RawFd) -> io::Result<()> {
        // Modelled in models/endings.pml.
        match self {
            Crews::Pairs(pairs) => {
                if let Some(pair) = pairs.get(slot as usize) {
                    pair.arrived.notify_one();
                }
                Ok(())
            }
            Crews::Few(hub) => {
                hub.register(slot, fd)?;
                Ok(())
            }
        }
    }
}

/// Starts the threads that are there from the start, one for each poller, and says whether it could.
pub(crate) fn start<'s, E, K: BookName + Send + Sync, G: Gate, R: Threads + Wait + Clock + Sync>(
    scope: &Scope<'s, E>,
    rt: &'s R,
    state: &'s ServerState<K>,
    gate: &'s G,
    pollers: Vec<Poller>,
) -> bool {
    let Crews::Few(hub) = &state.crews else {
        return true;
    };
    for poller in pollers {
        if scope
            .spawn(move || run_few(rt, state, gate, hub, poller))
            .is_err()
        {
            return false;
        }
    }
    true
}

/// Starts the threads of a slot that it has not, and says whether it could.
pub(crate) fn prepare<'s, E, K: BookName + Send + Sync, G: Gate, R: Threads + Wait + Clock + Sync>(
    scope: &Scope<'s, E>,
    rt: &'s R,
    state: &'s ServerState<K>,
    gate: &'s G,
    slot: &'s Slot<K>,
) -> bool {
    // Modelled in models/endings.pml and shutdown.pml.
    let Crews::Pairs(pairs) = &state.crews else {
        return true;
    };
    let Some(pair) = pairs.get(slot.lane.number() as usize) else {
        return false;
    };
    if pair.made.load(Ordering::SeqCst) < 1 {
        if scope
            .spawn(move || run_finisher(rt, state, slot, pair))
            .is_err()
        {
            return false;
        }
        pair.made.store(1, Ordering::SeqCst);
    }
    if pair.made.load(Ordering::SeqCst) < 2 {
        if scope
            .spawn(move || run_reader(rt, state, gate, slot, pair))
            .is_err()
        {
            return false;
        }
        pair.made.store(2, Ordering::SeqCst);
    }
    true
}

/// Has all threads leave. They have no connection any more.
pub(crate) fn dismiss<K: BookName>(rt: &impl Wait, state: &ServerState<K>) {
    // Modelled in models/serving.h.
    state.progress.stage.rise(ServerStage::Ended as u8);
    state.crews.wake_all();
    if let Crews::Pairs(pairs) = &state.crews {
        for (slot, pair) in state.slots.iter().zip(pairs.iter()) {
            // Under the lock, so that its reader waits already or sees the stage.
            let talk = slot.talk.lock(rt);
            pair.arrived.notify_one();
            drop(talk);
        }
    }
}

/// Reads connection after connection of a slot, until none comes any more.
fn run_reader<'s, K: BookName, G: Gate, R: Wait + Clock>(
    rt: &'s R,
    state: &'s ServerState<K>,
    gate: &G,
    slot: &Slot<K>,
    pair: &Pair,
) {
    // Modelled in models/polling.pml and serving.h.
    let mut talk = slot.talk.lock(rt);
    for _ in rt.forever() {
        if talk.is_reading() {
            state.turn(rt, gate, slot, &mut talk, Patience::Waits);
        } else if state.progress.has_ended() {
            break;
        } else {
            talk = pair.arrived.wait(rt, talk);
        }
    }
}

/// Does the work that others leave at a slot's lane, until no connection comes any more.
fn run_finisher<'s, K: BookName, R: Wait + Clock>(
    rt: &'s R,
    state: &'s ServerState<K>,
    slot: &Slot<K>,
    pair: &Pair,
) {
    // Modelled in models/deliver.pml and serving.h.
    let parker = pair.parker.lock(rt);
    let mut finish = None;
    for _ in rt.forever() {
        match finish {
            Some(Finish::Pending) => parker.park_timeout(rt, Duration::from_millis(AGAIN_MS)),
            _ => parker.park(rt),
        }
        if state.progress.has_ended() {
            break;
        }
        let waits = Deliverer::Finisher(Patience::Waits);
        finish = state.finish(rt, slot, slot.lane.deliver(&state.delivery(rt), waits));
    }
}

/// Serves each called slot once, up to one whose turn was long.
fn serve_round<'s, K: BookName, G: Gate, R: Wait + Clock>(
    rt: &'s R,
    state: &'s ServerState<K>,
    gate: &G,
    poller: &mut Poller,
) {
    // Modelled in models/polling.pml.
    for _ in 0..poller.ready() {
        let Some(call) = poller.next() else {
            break;
        };
        if state.visit(rt, gate, poller, call) {
            // Events that came during a long turn are received before the next one, so they wait only once for the
            // turns of the others.
            break;
        }
    }
}

/// Serves the slots of a thread that has many, until no connection comes any more.
fn run_few<'s, K: BookName, G: Gate, R: Wait + Clock>(
    rt: &'s R,
    state: &'s ServerState<K>,
    gate: &G,
    hub: &Hub,
    poller: Poller,
) {
    // Modelled in models/polling.pml and serving.h.
    let mut poller = poller;
    for _ in rt.forever() {
        poller.wait(rt, hub);
        if state.progress.has_ended() {
            break;
        }
        serve_round(rt, state, gate, &mut poller);
    }
}
