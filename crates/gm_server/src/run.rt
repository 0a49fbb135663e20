//! Runs the program on its arguments.

ghost use Rattle.std.specs.Prelude.{◌≡◌, ◌↔◌, Some, None, Ok, false, true, IfOk, IfErr, Result, is_ok, map};
ghost use Rattle.std.specs.Result.{IsErrOf};
ghost use Rattle.clap.specs.Words.{kind_of};
ghost use Rattle.gm_server.specs.Arguments.{asked_settings};
ghost use Rattle.gm_slots.specs.Served.{EndsSo};
ghost use Rattle.gm_server.specs.Statuses.{ended_status};
ghost use Rattle.gm_server.specs.Outcomes.{is_of_words, said_as, said_of, SaysSo, FailsSo, DoesSo, EndsAs};

use crate::outcome::{Outcome, RunError, report, status_of};
use clap::error::ErrorKind;
use gm_notes::{Config, MAX_FUNCTIONS};
use gm_options::{Args, parse_args};
use gm_report::{Announcer, Levels, ServeError, Speaker, Summary, first_socket, handed_sockets};
use gm_session::OpenGate;
use gm_threads::{Crews, Hub, Poller, Served, Service, Settings, serve_with};
use std::alloc::{AllocError, Global};
use std::convert::AsStr;
use std::env::Env;
use std::hash::RandomState;
use std::io;
use std::io::Write;
use std::net::{Net, TcpListener, TcpStream};
use std::random::RandomSource;
use std::sync::{Arc, Wait};
use std::thread::Threads;
use std::time::Clock;

/// How the program ended that only wrote to standard output.
fn said(outcome: io::Result<()>) -> Result<Outcome, RunError>
    ensures { result ≡ said_as (is_ok outcome) }
{
    match outcome {
        Ok(()) => Ok(Outcome::Said),
        Err(_) => Err(RunError::Output),
    }
}

/// Says what is wrong with the arguments, or prints the help or the version that they ask for.
fn print_help_or_error<W: Write>(
    rt: &impl Eprint,
    error: &clap::Error,
    w: &mut W,
) -> Result<Outcome, RunError>
    ensures { SaysSo (kind_of error.now) result }
{
    if error.kind() == ErrorKind::OutOfMemory {
        return Err(RunError::Serve(ServeError::Memory));
    }
    if error.use_stderr() {
        // A failure of standard error is ignored.
        let _ = rt.eprint(error);
        return Err(RunError::Arguments);
    }
    said(write!(w, "{error}"))
}

/// The settings that are asked for.
fn settings_of(alloc: Global, args: Args<'_>) -> Result<Settings, RunError>
    ensures config { IfOk result (λ settings. settings.config ≡ asked_settings args.entry) }
    ensures fails { IfErr result (FailsSo args.entry) }
    ensures limits { IfOk result (λ settings. settings.limits ≡ args.entry.server.limits) }
    ensures tape { IfOk result (λ settings. settings.tape ≡ args.entry.tape) }
{
    let name = Vec::from_slice(alloc, args.name.as_bytes())?;
    let Ok(config) = Config::new(name, 1, args.server.slots, MAX_FUNCTIONS) else {
        return Err(RunError::Name);
    };
    Ok(Settings {
        config: config
            .with_round_robin(args.server.round_robin)
            .with_retries(args.server.job_retries)
            .with_as_gearmand(args.server.as_gearmand),
        limits: args.server.limits,
        tape: args.tape,
    })
}

/// Prints the settings on a line, and on further ones those that programs don't expect there, if they are given.
fn print_settings<W: Write>(args: Args<'_>, w: &mut W) -> io::Result<()> {
    let Args {
        port,
        listen,
        name,
        peer_timeout,
        has_peer_timeout,
        io_threads,
        has_io_threads,
        tape,
        ..
    } = args;
    let slots = args.server.slots;
    let max_data = args.server.limits.max_bytes;
    let tape = u8::from(tape);
    let round_robin = u8::from(args.server.round_robin);
    let job_retries = args.server.job_retries;
    writeln!(
        w,
        "port={port} listen={listen} slots={slots} name={name} max-data={max_data} tape={tape} round-robin={round_robin} job-retries={job_retries}"
    )?;
    if has_peer_timeout {
        writeln!(w, "peer-timeout={peer_timeout}")?;
    }
    if has_io_threads {
        writeln!(w, "io-threads={io_threads}")?;
    }
    if args.server.as_gearmand {
        writeln!(w, "as-gearmand=1")?;
    }
    w.flush()
}

/// Whether it takes a socket that is handed over, if this many are. If not, it makes one at its own address.
fn takes_socket(sockets: Option<u32>, has_address: bool) -> Result<bool, RunError>
    ensures fails { IfErr result (λ error. is_of_words error ≡ false) }
    ensures own { (result ≡ Ok false) ↔ (sockets ≡ Some 0) }
    ensures taken { (result ≡ Ok true) ↔ ((sockets ≡ Some 1) × (has_address ≡ false)) }
    ensures address { IsErrOf result RunError.AddressBesideSocket ↔ ((sockets ≡ Some 1) × (has_address ≡ true)) }
    ensures count { (sockets ≡ Some 0 → ⊥) → (sockets ≡ Some 1 → ⊥) → IsErrOf result RunError.SocketCount }
{
    match sockets {
        Some(0) => Ok(false),
        Some(1) if has_address => Err(RunError::AddressBesideSocket),
        Some(1) => Ok(true),
        _ => Err(RunError::SocketCount),
    }
}

/// The listener: the socket that is handed over, or one at the address of the arguments.
fn open_listener<R: Net<Listener = TcpListener, Stream = TcpStream> + Env + AllocGlobal>(
    rt: &R,
    args: Args<'_>,
) -> Result<TcpListener, RunError>
    ensures { IfErr result (λ error. is_of_words error ≡ false) }
{
    let Args { port, listen, .. } = args;
    if takes_socket(handed_sockets(rt), args.has_address)? {
        return match first_socket() {
            Ok(listener) => Ok(listener),
            Err(error) => Err(RunError::Socket(error)),
        };
    }
    match TcpListener::bind(rt, (listen, port)) {
        Ok(listener) => Ok(listener),
        Err(error) => {
            let alloc = rt.alloc();
            let address = format!(in alloc; "{listen}:{port}")?;
            if error.kind() == io::ErrorKind::AddrInUse {
                return Err(RunError::Taken(address, error));
            }
            Err(RunError::Listen(address, error))
        }
    }
}

/// The crews of threads that serve connections, as the arguments ask.
fn crews_of(rt: &impl Net, alloc: Global, args: Args<'_>) -> Result<(Crews, Vec<Poller>), RunError>
    ensures { IfErr result (λ error. is_of_words error ≡ false) }
{
    let slots = args.server.slots;
    if args.io_threads == 0 {
        return Ok((Crews::pairs(alloc, slots)?, Vec::new(alloc)));
    }
    match Hub::new(rt, alloc, u32::from(args.io_threads), slots) {
        Ok((hub, pollers)) => Ok((Crews::Few(hub), pollers)),
        Err(error) if error.kind() == io::ErrorKind::OutOfMemory => Err(RunError::from(AllocError)),
        Err(error) => Err(RunError::Events(error)),
    }
}

/// The summary of how the server ended.
fn said_of(ended: &Result<Served, ServeError>) -> Result<Summary, ServeError>
    ensures { result ≡ said_of ended.now }
{
    match ended {
        Ok(served) => served.summary(),
        Err(error) => Err(*error),
    }
}

/// Says how the server ended.
fn tell_end(
    rt: &(impl Wait + Clock + Eprint),
    speaker: &Speaker,
    ended: Result<Served, ServeError>,
) -> Result<Served, RunError>
    ensures served { IfOk result (λ served. ended ≡ Ok served) }
    ensures fails { IfErr result (λ error. is_of_words error ≡ false) }
{
    // No contract says what a program writes to standard error: docs/check counts this line.
    speaker.remark_end(rt, said_of(&ended));
    match ended {
        Ok(served) => Ok(served),
        Err(error) => Err(RunError::Ended(error)),
    }
}

/// Serves as the arguments ask.
fn serve_on<
    R: Threads
        + Wait
        + Clock
        + RandomSource
        + Net<Listener = TcpListener, Stream = TcpStream>
        + Env
        + Eprint
        + AllocGlobal
        + Copy
        + Send
        + Sync
        + 'static,
    W: Write,
>(rt: &R, args: Args<'_>, settings: Settings, w: &mut W) -> Result<Served, RunError>
    ensures ends { IfOk result (EndsSo settings.config settings.tape settings.limits) }
    ensures fails { IfErr result (λ error. is_of_words error ≡ false) }
{
    let Ok(seed) = RandomState::new(rt) else {
        return Err(RunError::Seed);
    };
    let listener = open_listener(rt, args)?;
    let alloc = rt.alloc();
    let speaker = Speaker::start(rt, alloc, args.server.slots, Levels::of_environment(rt))?;
    let (crews, pollers) = crews_of(rt, alloc, args)?;
    let service = Service {
        listener,
        limits: settings.limits,
        peer_timeout: args.peer_timeout,
        crews,
        speaker: Arc::try_clone(&speaker)?,
        seed,
    };
    let mut announcer = Announcer::new(w)
        .with_systemd(rt)
        .with_as_gearmand(args.server.as_gearmand);
    let ended = serve_with(
        rt,
        alloc,
        settings,
        service,
        pollers,
        &OpenGate,
        &mut announcer,
    );
    if !announcer.is_well {
        drop(ended);
        return Err(RunError::Output);
    }
    tell_end(rt, &speaker, ended)
}

/// Does what these arguments ask for.
fn run_args<
    R: Threads
        + Wait
        + Clock
        + RandomSource
        + Net<Listener = TcpListener, Stream = TcpStream>
        + Env
        + Eprint
        + AllocGlobal
        + Copy
        + Send
        + Sync
        + 'static,
    W: Write,
>(rt: &R, args: Args<'_>, w: &mut W) -> Result<Outcome, RunError>
    ensures { DoesSo args.entry result }
{
    let settings = settings_of(rt.alloc(), args)?;
    if args.check {
        return said(print_settings(args, w));
    }
    Ok(Outcome::Served(serve_on(rt, args, settings, w)?))
}

/// Runs the program on its arguments (the first is its name) with this standard output, and says how it ended.
pub(crate) fn outcome_of<
    S: AsStr,
    R: Threads
        + Wait
        + Clock
        + RandomSource
        + Net<Listener = TcpListener, Stream = TcpStream>
        + Env
        + Eprint
        + AllocGlobal
        + Copy
        + Send
        + Sync
        + 'static,
    W: Write,
>(rt: &R, words: &[S], w: &mut W) -> Result<Outcome, RunError>
    ensures { EndsAs (map S.text words.now) result }
{
    let ended = match parse_args(rt.alloc(), words) {
        Ok(args) => run_args(rt, args, w),
        Err(error) => print_help_or_error(rt, &error, w),
    };
    report(rt, &ended);
    ended
}

/// Runs the program on its arguments (the first is its name) with this standard output, and answers the status that it
/// is to end with (`status_of`). `--port`, `--listen`, `--job-retries` and `--round-robin` are named as in gearmand(8);
/// the others are this program's own.
pub fn run_words<
    S: AsStr,
    R: Threads
        + Wait
        + Clock
        + RandomSource
        + Net<Listener = TcpListener, Stream = TcpStream>
        + Env
        + Eprint
        + AllocGlobal
        + Copy
        + Send
        + Sync
        + 'static,
    W: Write,
>(rt: &R, words: &[S], w: &mut W) -> u8
    ensures { (ended : Result Outcome RunError) × EndsAs (map S.text words.now) ended × (result ≡ ended_status ended) }
{
    status_of(outcome_of(rt, words, w))
}
