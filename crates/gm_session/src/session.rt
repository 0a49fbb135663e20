//! A connection's session: its bytes on their way in.

ghost use Rattle.std.specs.Prelude.{◌≡◌, ◌^◌, ◌-◌, ◌<◌, ◌≤◌, true, false, [], None, IfErr};
ghost use Rattle.std.specs.Io.KnownBytes.{IsAtEnd};
ghost use Rattle.std.specs.IoError.{error_kind};
ghost use Rattle.gm_session.specs.Sessions.{failed_read, ends_whole, Fills, AsksToFill};

use gm_feeder::{Feeder, Limits, ReadError, Source};
use std::alloc::Global;
use std::io::{Error, ErrorKind};

/// The most bytes of a turn that doesn't wait for others: a few requests without data.
const SHORT_PIECE: usize = 256;

/// How many units of a longer turn don't wait for others either: a request or two with data. If a client sends many
/// at a time, none is free.
pub(crate) const FIRST_UNITS: u32 = 2;

/// Why a session ended.
#[derive(Clone, Copy, Debug, PartialEq, Eq)]
pub enum SessionEnd {
    /// The input is at its end.
    Ended,
    /// The reader failed.
    ReadFault,
    /// A fault in the stream was applied, or the slot was found shut or not open.
    Shut,
    /// There was no memory for a piece, or for a unit.
    Memory,
    /// It read 1,099,511,627,776 pieces.
    Turns,
    /// All connections are to end.
    Stopped,
    /// No thread can serve the connection.
    NoThread,
}

impl SessionEnd {
    /// Whether all whole units that were read were handed in, and nothing more can be read.
    pub fn is_whole(self) -> bool
        ensures { result ≡ ends_whole self }
    {
        match self {
            SessionEnd::Ended | SessionEnd::ReadFault | SessionEnd::Turns => true,
            SessionEnd::Shut | SessionEnd::Memory | SessionEnd::Stopped | SessionEnd::NoThread =>
                false,
        }
    }
}

/// The state of a session while it waits for more bytes, or for its next turn.
#[derive(Drop)]
pub struct Session {
    pub(crate) feeder: Feeder,
    /// The next unit's index.
    pub(crate) index: u64,
    /// Whether the last turn had many units, as the next one then has: if that turn is long, it waits from its first
    /// unit on.
    pub(crate) is_pipelining: bool,
    /// Whether the last turn may have left whole units.
    pub(crate) has_units: bool,
}

impl Session {
    /// A session that has read nothing.
    pub fn new(alloc: Global, limits: Limits) -> Session
        ensures fresh { result.feeder ≡ record { limits = limits; pending = []; fault = None } }
        ensures units { result.has_units ≡ false }
    {
        Session {
            feeder: Feeder::new(alloc, limits),
            index: 0,
            is_pipelining: false,
            has_units: false,
        }
    }

    /// How many units of a turn over this many bytes don't wait for other sessions.
    pub(crate) fn free_units(&self, length: usize) -> u32
        ensures short { length ≤ 256 → result ≡ 2 ^ 32 - 1 }
        ensures pipelining { 256 < length → self.now.is_pipelining ≡ true → result ≡ 0 }
        ensures first { 256 < length → self.now.is_pipelining ≡ false → result ≡ 2 }
    {
        if length <= SHORT_PIECE {
            u32::MAX
        } else if self.is_pipelining {
            0
        } else {
            FIRST_UNITS
        }
    }
}

impl Session {
    /// Reads a piece, unless whole units may be left. If the session is over, it says why.
    pub(crate) fn fill<E, S: Source<E>>(&mut self, source: &mut S, by: &E) -> Result<(), SessionEnd>
        ensures fills { Fills self.old.has_units (S.remaining source.old) (S.remaining source.new) (S.heard source.old) (S.heard source.new) self.old.feeder self.new.feeder result }
        ensures ended { IfErr result (λ end. end ≡ SessionEnd.Ended → IsAtEnd (S.remaining source.new)) }
        ensures asks { AsksToFill self.old.has_units (S.answers source.old) (S.answers source.new) result }
        ensures socket { S.socket source.new ≡ S.socket source.old }
        ensures units { self.new.has_units ≡ self.old.has_units }
    {
        // Modelled in models/polling.pml.
        if self.has_units {
            return Ok(());
        }
        match self.feeder.read_from(source, by) {
            Ok(0) => Err(SessionEnd::Ended),
            Ok(_) => Ok(()),
            Err(ReadError::Feed(_)) => Err(SessionEnd::Memory),
            Err(ReadError::Read(error)) => failed_read(&error),
        }
    }
}

/// The outcome of a read that failed: it gave nothing if it was broken off or would have waited; otherwise the session
/// is over.
fn failed_read(error: &Error) -> Result<(), SessionEnd>
    ensures { result ≡ failed_read (error_kind error.now) }
{
    // Modelled in models/polling.pml.
    match error.kind() {
        ErrorKind::Interrupted | ErrorKind::WouldBlock => Ok(()),
        _ => Err(SessionEnd::ReadFault),
    }
}
