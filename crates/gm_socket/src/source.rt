//! The bytes read from a connection, with a log of the reads.

ghost use Rattle.std.specs.Prelude.{◌≡◌, [], None, IfOk};
ghost use Rattle.gm_socket.specs.Sources.{left_by, has_timed_out};

use crate::log::Log;
use gm_feeder::{Answer, Patience, Source};
use std::alloc::{AllocError, Global};
use std::io;
use std::io::ErrorKind;
use std::marker::{Brand, Model};

/// Whether a read left something to read.
#[derive(Clone, Copy, Debug, PartialEq, Eq)]
pub enum Left {
    /// There may be more to read: the read was filled, or nothing was read yet.
    Perhaps,
    /// Nothing, unless the peer closed its side, or an urgent byte cut the read short.
    Little,
    /// Nothing: a read would have to wait.
    Nothing,
}

/// A source, and a log of all that it gave since it was taken, and of what its calls answered. The log exists in proofs
/// only. The bytes that were to come when it was taken are the log's, and then those that are still to come.
#[derive(Drop)]
pub struct LoggedSource<I: Source<Patience>> {
    source: I,
    log: Log,
    /// The last call's answer, until it is taken.
    last: Option<Answer>,
}

impl<I: Source<Patience>> Model for LoggedSource<I> {
    ghost use Rattle.std.specs.Io.KnownBytes.{Consumes};
    ghost use Rattle.gm_socket.specs.Sources.{SourceState, IsLast};

    ghost Value = { SourceState I };

    ghost view = { λ r. record { source = r.source; before = r.log.before; bytes = r.log.bytes; answers = r.log.answers; last = r.last } };

    ghost invariant = { λ r. Consumes r.log.before (I.remaining r.source) r.log.bytes × IsLast r.last r.log.answers };
}

impl<I: Source<Patience> + Drop> LoggedSource<I> {
    /// Takes a source. The log is empty. An error means that there was no memory for it.
    pub fn new(alloc: Global, source: I) -> Result<LoggedSource<I>, AllocError>
        ensures { IfOk result (λ logged. logged ≡ record { source = source; before = I.remaining source; bytes = []; answers = []; last = None }) }
    {
        let log = Log::new::<I, Brand>(alloc, &source)?;
        Ok(LoggedSource {
            source,
            log,
            last: None,
        })
    }

    /// The source.
    pub fn source(&self) -> &I
        ensures { result.now ≡ self.now.source }
    {
        &self.source
    }

    /// Takes what the last read left. If nothing was read since it was taken, there may be more.
    pub fn take_left(&mut self) -> Left
        ensures left { result ≡ left_by self.old.last }
        ensures taken { self.new ≡ record self.old { last = None } }
    {
        // Modelled in models/polling.pml.
        match self.last.take() {
            None => Left::Perhaps,
            Some(Answer::Moved { count, of }) => {
                if count < of {
                    Left::Little
                } else {
                    Left::Perhaps
                }
            }
            Some(Answer::Failed(ErrorKind::WouldBlock)) => Left::Nothing,
            Some(Answer::Failed(_)) => Left::Perhaps,
        }
    }

    /// Whether the last read failed, because the system found out that the peer vanished.
    pub fn has_timed_out(&self) -> bool
        ensures { result ≡ has_timed_out self.now.last }
    {
        match self.last {
            Some(Answer::Failed(ErrorKind::TimedOut)) => true,
            _ => false,
        }
    }
}

impl<I: Source<Patience>> Source<Patience> for LoggedSource<I> {
    ghost use Rattle.std.specs.Prelude.{Some};

    ghost remaining = { λ r. I.remaining r.source };

    ghost heard = { λ r. Some r.bytes };

    ghost answers = { λ r. Some r.answers };

    ghost socket = { λ r. I.socket r.source };

    fn read_by(&mut self, by: &Patience, room: &mut [u8]) -> io::Result<usize> {
        // Modelled in models/polling.pml.
        match self.source.read_by(by, room) {
            Ok(count) => {
                let of = room.len();
                let answer = Answer::Moved { count, of };
                self.log.add(&room[..count], &answer);
                self.last = Some(answer);
                Ok(count)
            }
            Err(error) => {
                let answer = Answer::Failed(error.kind());
                self.log.add(&[], &answer);
                self.last = Some(answer);
                Err(error)
            }
        }
    }
}
