//! `serve`: opens the book, starts the threads, and settles the book at the end.

ghost use Rattle.std.specs.Prelude.{◌≡◌, IfOk, IsOk};
ghost use Rattle.gm_shared.specs.Tapes.{is_on};
ghost use Rattle.gm_slots.specs.Served.{SettledSo, EndsSo};

use crate::accepting::{Control, prepare_listener};
use crate::crews::Crews;
use crate::settings::Settings;
use crate::state::ServerState;
use gm_feeder::Limits;
use gm_poll::Poller;
use gm_report::{Announcer, Levels, ServeError, Speaker};
use gm_session::Gate;
use gm_shared::{Blank, BlankPairing, BookName, Pairing, TapeMode};
use gm_slots::Served;
use std::alloc::Global;
use std::hash::RandomState;
use std::io::Write;
use std::marker::Brand;
use std::net::TcpListener;
use std::sync::{Arc, Wait};
use std::thread::Threads;
use std::time::Clock;
use std::{io, thread};

/// Runs the control thread, and hands out the pairing of the slots' sides. All other threads have ended then.
fn run_control<'x, K: BookName + Send + Sync, R: Threads + Wait + Clock + Sync, G: Gate, W: Write>(
    rt: &'x R,
    state: &'x ServerState<K>,
    pairing: Pairing<K>,
    pollers: Vec<Poller>,
    gate: &'x G,
    announcer: &'x mut Announcer<'_, W>,
) -> (Result<(), ServeError>, Pairing<K>) {
    let control = Control::new(state, pairing);
    thread::scope(
        thread::scope_env(),
        rt,
        |scope| control.run(scope, rt, gate, pollers, announcer),
    )
}

/// Whether a tape is kept.
fn mode(tape: bool) -> TapeMode
    ensures { is_on result ≡ tape }
{
    if tape { TapeMode::On } else { TapeMode::Off }
}

/// How a server serves: where its connections come from, what serves them, and when a peer is given up.
#[derive(Drop)]
pub struct Service {
    /// Where the connections come from.
    pub listener: TcpListener,
    /// How large a unit may be.
    pub limits: Limits,
    /// After about how many seconds, up to 32,767, a peer is disconnected that vanished or leaves what was sent to it
    /// unread; at 0 the system decides.
    pub peer_timeout: u16,
    /// The threads that serve connections, as other threads wake them.
    pub crews: Crews,
    /// Writes the messages for operators while the server runs.
    pub speaker: Arc<Speaker, Global>,
    /// The hash seed of the book's tables, since names and ids are untrusted input.
    pub seed: RandomState,
}

/// Serves with a book that has a name, and settles the book in the end. It hands back the history, the tape, the share
/// of each desk and pen, and the account of each connection.
pub(crate) fn serve_book<
    K: BookName + Send + Sync,
    R: Threads + Wait + Clock + Sync,
    G: Gate,
    W: Write,
>(
    rt: &R,
    alloc: Global,
    blank: Blank,
    sockets: BlankPairing,
    service: Service,
    pollers: Vec<Poller>,
    gate: &G,
    announcer: &mut Announcer<'_, W>,
) -> Result<Served, ServeError>
    requires table { blank.table ≡ K.table }
    requires history { blank.history ≡ K.history }
    requires settings { blank.settings ≡ K.settings }
    requires taped { blank.taped ≡ K.taped }
    requires sockets { sockets ≡ K.sockets }
    ensures { IfOk result (λ served. SettledSo K.settings K.taped service.limits K.history served.book served.accounts.items) }
{
    let (state, pairing) = ServerState::<K>::new(rt, alloc, blank, sockets, service)?;
    let (outcome, pairing) = run_control(rt, &state, pairing, pollers, gate, announcer);
    outcome?;
    Ok(state.settle(pairing)?)
}

/// Serves the connections that a listener takes, until one of them asks for a shutdown (the Gearman PROTOCOL document,
/// "Administrative Protocol") and all are closed. Names and ids come from strangers, so the book's tables hash with
/// this seed. Each unit passes the gate. If the settings ask for a tape, every accepted call is kept on it, and in
/// the end it is compared with what each connection's desk and pen were told.
///
/// `Memory` comes if there is no memory for the book or for its end, and with a tape if there is none to enter the end
/// of a connection, which stops the server; `Differs` if the tape differs from what was told, a slot is still open,
/// or an account lacks an opening or has other limits; `Listen` if the listener fails. With a tape it answers `Ok`
/// exactly if the two agree.
pub fn serve<R: Threads + Wait + Clock + Eprint + Copy + Send + Sync + 'static, G: Gate>(
    rt: &R,
    alloc: Global,
    seed: RandomState,
    listener: TcpListener,
    settings: Settings,
    gate: &G,
) -> Result<Served, ServeError>
    ensures ends { IfOk result (EndsSo settings.config settings.tape settings.limits) }
    ensures settled { IfOk result (λ served. IsOk served.book) }
{
    let slots = settings.config.slots();
    let service = Service {
        listener,
        limits: settings.limits,
        peer_timeout: 0,
        crews: Crews::pairs(alloc, slots)?,
        speaker: Speaker::start(rt, alloc, slots, Levels::Unsaid)?,
        seed,
    };
    let mut nowhere = io::sink();
    let mut announcer = Announcer::new(&mut nowhere);
    let pollers = Vec::new(alloc);
    let served = serve_with(rt, alloc, settings, service, pollers, gate, &mut announcer)?;
    match served.summary() {
        Ok(_) => Ok(served),
        Err(error) => {
            drop(served);
            Err(error)
        }
    }
}

/// As `serve`, for a caller that has made the service: the listener, the limits, the crews, the speaker and the seed
/// are the service's. The pollers are those of I/O threads, none if each connection has threads of its own. The
/// announcer reports that the server listens or is ready, and its status. Errors are those of `serve`, but a book that
/// couldn't be settled comes in `Served`.
pub fn serve_with<R: Threads + Wait + Clock + Sync, G: Gate, W: Write>(
    rt: &R,
    alloc: Global,
    settings: Settings,
    service: Service,
    pollers: Vec<Poller>,
    gate: &G,
    announcer: &mut Announcer<'_, W>,
) -> Result<Served, ServeError>
    ensures { IfOk result (EndsSo settings.config settings.tape service.limits) }
{
    let Settings { config, tape, .. } = settings;
    let Ok(()) = prepare_listener(&service.listener, service.peer_timeout) else {
        return Err(ServeError::Listen);
    };
    let blank = Blank::new(alloc, service.seed, config, mode(tape))?;
    let sockets = BlankPairing::new(alloc)?;
    serve_book::<Brand, R, G, W>(rt, alloc, blank, sockets, service, pollers, gate, announcer)
}
