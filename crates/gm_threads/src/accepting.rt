//! The control thread: it takes connections, and hands in ticks.

ghost use Rattle.std.specs.Prelude.{◌≡◌, [], pos};

use crate::crews;
use crate::keepalive::set_peer_timeout;
use crate::progress::Progress;
use crate::serving::discard;
use crate::state::ServerState;
use gm_delivery::ServerStage;
use gm_feeder::Patience;
use gm_notes::ApplyError;
use gm_poll::Poller;
use gm_report::{Announcer, ServeError, Trouble};
use gm_session::{Gate, SessionEnd};
use gm_shared::{BookName, Pairing};
use gm_slots::Slot;
use gm_socket::{Halves, LoggedWriter, Socket};
use gm_time::{ACCEPT_TIMEOUT_MS, AGAIN_MS, FULL_TIME_MS, VISITING_TIME_MS, now_ms};
use libc::{EBADF, EINVAL, EMFILE, ENOTSOCK};
use std::alloc::{AllocError, Global};
use std::io::{ErrorKind, Write};
use std::net::{SocketAddr, TcpListener, TcpStream};
use std::os::fd::OwnedFd;
use std::sync::Wait;
use std::sync::atomic::Ordering;
use std::thread::{Scope, Threads};
use std::time::{Clock, Duration};
use std::{io, thread};

/// The error of a system that is out of file descriptors (errno(3)).
const ENFILE: i32 = 23;

/// The error of a socket that doesn't listen in this way (accept(2)).
const EOPNOTSUPP: i32 = 95;

/// Sets up a listener: `accept` returns if no connection comes for a while, and a socket that it gives has the other
/// options from the start, as the system hands them down.
pub(crate) fn prepare_listener(listener: &TcpListener, peer_timeout: u16) -> io::Result<()> {
    let same = TcpStream::from(OwnedFd::from(listener.try_clone()?));
    same.set_read_timeout(Some(Duration::from_millis(ACCEPT_TIMEOUT_MS)))?;
    same.set_write_timeout(Some(Duration::from_millis(AGAIN_MS)))?;
    set_peer_timeout(&same, peer_timeout);
    same.set_nodelay(true)
}

/// Whether this error says that the listener itself failed. Other errors of `accept` come from one connection, or from
/// others that are open, and pass.
fn is_fatal(error: &io::Error) -> bool {
    // Modelled in models/shutdown.pml.
    match error.raw_os_error() {
        Some(code) => { code == EINVAL || code == EBADF || code == ENOTSOCK || code == EOPNOTSUPP }
        None => false,
    }
}

/// Whether no connection came, or the one that did is gone.
fn is_usual(error: &io::Error) -> bool {
    matches!(
        error.kind(),
        ErrorKind::WouldBlock
            | ErrorKind::TimedOut
            | ErrorKind::Interrupted
            | ErrorKind::ConnectionAborted
    )
}

/// Waits until each connection has ended.
fn wait_for_ends(rt: &(impl Wait + Clock), progress: &Progress) {
    // Modelled in models/shutdown.pml.
    for _ in rt.forever() {
        if progress.connections() == 0 {
            return;
        }
        thread::sleep(rt, Duration::from_millis(ACCEPT_TIMEOUT_MS));
    }
}

/// Why a connection is refused, with the system's error if there is one.
struct Rejection {
    trouble: Trouble,
    error: i32,
}

impl Rejection {
    fn new(trouble: Trouble) -> Rejection
        ensures { result ≡ record { trouble = trouble; error = pos 0 } }
    {
        Rejection { trouble, error: 0 }
    }
}

impl From<AllocError> for Rejection {
    ghost use Rattle.gm_report.specs.declared.notices.Trouble.TheVariants.{Memory};

    ghost from_gives = { λ _ e. e ≡ record { trouble = Memory; error = pos 0 } };

    fn from(_e: AllocError) -> Rejection {
        Rejection::new(Trouble::Memory)
    }
}

/// The control thread's state.
#[derive(Drop)]
pub(crate) struct Control<'s, K: BookName> {
    state: &'s ServerState<K>,
    /// Hands each connection's socket to both sides of its slot.
    pairing: Pairing<K>,
    /// The second in which the server's status was last reported.
    told: u64,
    /// Until when a connection for which there is no slot is refused at once.
    full_until_ms: u64,
}

impl<'s, K: BookName + Send + Sync> Control<'s, K> {
    pub(crate) fn new(state: &'s ServerState<K>, pairing: Pairing<K>) -> Control<'s, K> {
        Control {
            state,
            pairing,
            told: 0,
            full_until_ms: 0,
        }
    }

    /// Gives a connection to its slot, and has it served.
    fn begin<R: Wait + Clock>(
        &mut self,
        rt: &R,
        slot: &Slot<K>,
        halves: Halves,
        peer: SocketAddr,
    ) -> Result<(), Rejection> {
        // Modelled in models/endings.pml, polling.pml and shutdown.pml.
        let state = self.state;
        let Halves { reading, writing } = halves;
        let fd = reading.source().descriptor();
        // Under the lock, so that the connection isn't over before its socket is known.
        let mut talk = slot.talk.lock(rt);
        let Some(mut side) = talk.lend_side() else {
            return Err(self.lose());
        };
        let Some(leftover) = slot
            .lane
            .open(&state.delivery(rt), writing, &mut side, &mut self.pairing)
        else {
            return Err(self.lose());
        };
        talk.begin(state.alloc, side, reading, Some(peer));
        state.wake_for(leftover);
        if let Err(error) = state.crews.begin(slot.lane.number(), fd) {
            talk.cut(SessionEnd::NoThread);
            discard(&mut talk, Patience::Hurries);
            state.end(rt, slot, &mut talk);
            return Err(Rejection {
                trouble: Trouble::Events,
                error: error.raw_os_error().unwrap_or(0),
            });
        }
        Ok(())
    }

    /// Closes the slot of a connection that no thread can serve.
    fn refuse<R: Wait + Clock>(
        &mut self,
        rt: &R,
        slot: &Slot<K>,
        writing: LoggedWriter<Socket>,
    ) -> Rejection
        requires { (writing.bytes ≡ []) × (writing.answers ≡ []) }
    {
        // Modelled in models/endings.pml and shutdown.pml.
        let mut talk = slot.talk.lock(rt);
        let Some(mut side) = talk.lend_side() else {
            return self.lose();
        };
        if !slot.lane.refuse(rt, writing, &mut side, &mut self.pairing) {
            return self.lose();
        }
        self.state.refuse(rt, &mut talk, side);
        Rejection::new(Trouble::Threads)
    }

    /// A slot has another connection still, or the two sides that it has are of two slots. It stays open in the book
    /// then, so the server ends.
    fn lose(&self) -> Rejection {
        let progress = &self.state.progress;
        progress.stage.rise(ServerStage::Failed as u8);
        progress.connections.fetch_sub(1, Ordering::SeqCst);
        Rejection::new(Trouble::Slots)
    }

    /// Opens a slot for a connection from this address, at the control desk.
    fn open_slot<R: Wait + Clock>(&self, rt: &R, addr: &[u8]) -> Result<Option<u32>, ApplyError> {
        // Modelled in models/shutdown.pml.
        let mut desk = self.state.host.desk().lock(rt);
        self.state.open(rt, &mut desk, addr)
    }

    /// Opens a slot for a connection. With I/O threads slots may be taken by connections that are gone, and that no
    /// thread has visited yet: if there is no slot, the threads have a moment for that, and it is tried once more. Once
    /// that was in vain, connections are refused at once for a while, as a flood of them would wait one after another.
    fn find_slot<R: Wait + Clock>(
        &mut self,
        rt: &R,
        addr: &[u8],
    ) -> Result<Option<u32>, ApplyError> {
        let opened = self.open_slot(rt, addr);
        if !matches!(opened, Err(ApplyError::NoSlot))
            || !self.state.crews.are_few()
            || now_ms(rt) < self.full_until_ms
        {
            return opened;
        }
        thread::sleep(rt, Duration::from_millis(VISITING_TIME_MS));
        let opened = self.open_slot(rt, addr);
        if matches!(opened, Err(ApplyError::NoSlot)) {
            self.full_until_ms = now_ms(rt).saturating_add(FULL_TIME_MS);
        }
        opened
    }

    /// Opens a connection, and has it served. One that is refused is closed without a byte.
    fn open<E, R: Threads + Wait + Clock + Sync, G: Gate>(
        &mut self,
        scope: &Scope<'s, E>,
        rt: &'s R,
        gate: &'s G,
        stream: TcpStream,
        peer: SocketAddr,
    ) -> Result<(), Rejection> {
        // Modelled in models/endings.pml and shutdown.pml.
        let state = self.state;
        let ip = peer.ip();
        let addr = format!(in state.alloc; "{ip}")?;
        let halves = Halves::new(state.alloc, stream)?;
        let number = match self.find_slot(rt, addr.as_bytes()) {
            Ok(Some(number)) => number,
            Err(ApplyError::Memory) => return Err(Rejection::new(Trouble::Memory)),
            _ => return Err(Rejection::new(Trouble::Slots)),
        };
        let Some(slot) = state.slot(number) else {
            return Err(Rejection::new(Trouble::Slots));
        };
        state.progress.connections.fetch_add(1, Ordering::SeqCst);
        if !crews::prepare(scope, rt, state, gate, slot) {
            return Err(self.refuse(rt, slot, halves.writing));
        }
        self.begin(rt, slot, halves, peer)
    }

    /// Takes a connection that came, unless it is gone, or refuses it, and reports that. After a graceful stop each is
    /// refused.
    fn admit<E, R: Threads + Wait + Clock + Sync, G: Gate>(
        &mut self,
        scope: &Scope<'s, E>,
        rt: &'s R,
        gate: &'s G,
        stream: TcpStream,
        peer: SocketAddr,
    ) {
        // Modelled in models/ticks.pml.
        // Its listener's timeout is for `accept`.
        let Ok(()) = stream.set_read_timeout(None) else {
            return;
        };
        let speaker = &self.state.host.speaker;
        match self.open(scope, rt, gate, stream, peer) {
            Ok(()) => speaker.clear(rt),
            Err(Rejection { trouble, error }) => {
                if self.state.progress.is_running() {
                    speaker.remark(rt, trouble, error);
                }
            }
        }
    }

    /// Waits if no connection can be taken at present, and reports that: other connections have to be closed first.
    fn hold_on(&self, rt: &(impl Wait + Clock), error: &io::Error) {
        let code = error.raw_os_error().unwrap_or(0);
        let trouble = if code == EMFILE || code == ENFILE {
            Trouble::Descriptors
        } else {
            Trouble::Accept
        };
        self.state.host.speaker.remark(rt, trouble, code);
        thread::sleep(rt, Duration::from_millis(ACCEPT_TIMEOUT_MS));
    }

    /// Reports the server's status, once in a second.
    fn tell(&mut self, rt: &impl Wait, announcer: &mut Announcer<'_, impl Write>) {
        let second = self.state.host.last_second();
        if self.told != second {
            self.told = second;
            let speaker = &self.state.host.speaker;
            let connections = self.state.progress.connections();
            announcer.tell(rt, speaker, connections, self.state.slot_count);
        }
    }

    /// Takes connections and hands in ticks until the server can end.
    fn take_all<E, R: Threads + Wait + Clock + Sync, G: Gate>(
        &mut self,
        scope: &Scope<'s, E>,
        rt: &'s R,
        gate: &'s G,
        announcer: &mut Announcer<'_, impl Write>,
    ) -> Result<(), ServeError> {
        // Modelled in models/shutdown.pml and ticks.pml.
        for _ in rt.forever() {
            self.state.update_time(rt);
            self.tell(rt, announcer);
            match self.state.listener.accept() {
                Ok((stream, peer)) => self.admit(scope, rt, gate, stream, peer),
                Err(error) if is_usual(&error) => {}
                Err(error) if is_fatal(&error) => return Err(ServeError::Listen),
                Err(error) => self.hold_on(rt, &error),
            }
            if self.state.progress.can_end() {
                break;
            }
        }
        if self
            .state
            .progress
            .stage
            .has_reached(ServerStage::Failed as u8)
        {
            return Err(ServeError::Memory);
        }
        Ok(())
    }

    /// Starts the threads that are there from the start, says that the server is ready, and takes connections until it
    /// can end.
    fn serve<E, R: Threads + Wait + Clock + Sync, G: Gate>(
        &mut self,
        scope: &Scope<'s, E>,
        rt: &'s R,
        gate: &'s G,
        pollers: Vec<Poller>,
        announcer: &mut Announcer<'_, impl Write>,
    ) -> Result<(), ServeError> {
        if !crews::start(scope, rt, self.state, gate, pollers) {
            return Err(ServeError::Threads);
        }
        if !announcer.announce(rt, &self.state.host.speaker) {
            return Ok(());
        }
        self.take_all(scope, rt, gate, announcer)
    }

    /// Serves until the server can end, and has each remaining connection end. It hands out the pairing of the slots'
    /// sides.
    pub(crate) fn run<E, R: Threads + Wait + Clock + Sync, G: Gate>(
        mut self,
        scope: &Scope<'s, E>,
        rt: &'s R,
        gate: &'s G,
        pollers: Vec<Poller>,
        announcer: &mut Announcer<'_, impl Write>,
    ) -> (Result<(), ServeError>, Pairing<K>) {
        // Modelled in models/shutdown.pml.
        let outcome = self.serve(scope, rt, gate, pollers, announcer);
        if outcome.is_err() {
            self.state.stop();
            wait_for_ends(rt, &self.state.progress);
        }
        crews::dismiss(rt, self.state);
        let Control { pairing, .. } = self;
        (outcome, pairing)
    }
}
