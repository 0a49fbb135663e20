//! How the program ended.

ghost use Rattle.std.specs.Prelude.{◌≡◌};
ghost use Rattle.gm_server.specs.Statuses.{run_status, ended_status};

use gm_report::{Levels, ServeError};
use gm_threads::Served;
use std::alloc::AllocError;
use std::env::Env;
use std::io;
use thiserror::Error;

/// Why the program ended early.
#[derive(Debug, Drop, Error)]
pub enum RunError {
    /// The arguments are invalid, and that was said.
    #[error("invalid arguments")]
    Arguments,
    /// The name can't be part of a job handle.
    #[error("invalid --name: use 1 to 40 letters, digits, dots and hyphens")]
    Name,
    /// A port or an address is given, and a socket is handed over.
    #[error("invalid arguments: a socket from systemd has its own address, so leave out --port and --listen")]
    AddressBesideSocket,
    /// Several sockets are handed over, or the environment gives no number of them.
    #[error("invalid LISTEN_FDS: gmd takes one socket from systemd")]
    SocketCount,
    /// It can't listen on the socket that is handed over.
    #[error("can't listen on the socket from systemd: {0}")]
    Socket(io::Error),
    /// It can't listen.
    #[error("can't listen on {0}: {1}")]
    Listen(String, io::Error),
    /// It can't listen, since another program does.
    #[error("can't listen on {0}: {1}. The command ss -ltnp shows which program listens there")]
    Taken(String, io::Error),
    /// The system gives no random bytes.
    #[error("can't get a random seed")]
    Seed,
    /// It can't wait for many connections at once.
    #[error("can't wait for many connections at once, for --io-threads: {0}")]
    Events(io::Error),
    /// Standard output can't be written.
    #[error("can't write to standard output")]
    Output,
    /// It can't serve.
    #[error("{0}")]
    Serve(ServeError),
    /// It stopped serving, and that was said.
    #[error("{0}")]
    Ended(ServeError),
}

impl RunError {
    /// The status that the program ends with.
    fn status(&self) -> u8
        ensures { result ≡ run_status self.now }
    {
        match self {
            RunError::Arguments
            | RunError::Name
            | RunError::AddressBesideSocket
            | RunError::SocketCount => 2,
            RunError::Ended(error) => error.status(),
            RunError::Socket(_)
            | RunError::Listen(..)
            | RunError::Taken(..)
            | RunError::Seed
            | RunError::Events(_)
            | RunError::Output
            | RunError::Serve(_) => 3,
        }
    }
}

/// The outcome of the program.
#[derive(Drop)]
pub enum Outcome {
    /// It said what was asked for: the settings, the help or the version.
    Said,
    /// It served to the end, and said how that was.
    Served(Served),
}

impl From<AllocError> for RunError {
    ghost use Rattle.gm_report.specs.declared.error.ServeError.TheVariants.{Memory};
    ghost use Rattle.gm_server.specs.declared.outcome.RunError.TheVariants.{Serve};

    ghost from_gives = { λ _ e. e ≡ Serve Memory };

    fn from(_e: AllocError) -> RunError {
        RunError::Serve(ServeError::Memory)
    }
}

/// Says on standard error why the program ended, if that wasn't said. A failure of standard error is ignored.
pub(crate) fn report<R: Eprint + Env>(rt: &R, ended: &Result<Outcome, RunError>) {
    match ended {
        Ok(_) | Err(RunError::Arguments | RunError::Ended(_)) => {}
        Err(error) => {
            let level = Levels::of_environment(rt).error();
            let _ = eprintln!(rt; "{level}gmd: {error}");
        }
    }
}

/// The status that the program is to end with: 0 after a shutdown, a check, the help or the version; 2 for invalid
/// arguments, also for an address in addition to a socket from systemd, and if it is handed other than one; 3 if it
/// can't listen, the system gives no random seed, no descriptor or no thread, standard output can't be written, or
/// memory ran out at the start or, with a tape, at the end of a connection or of the server; 4 if the tape differs from
/// what the connections were told, the book still has a slot open, or a lane wasn't given each connection.
pub fn status_of(ended: Result<Outcome, RunError>) -> u8
    ensures { result ≡ ended_status ended }
{
    let status = match &ended {
        Ok(Outcome::Said) => 0,
        Ok(Outcome::Served(served)) => served.status(),
        Err(error) => error.status(),
    };
    drop(ended);
    status
}
