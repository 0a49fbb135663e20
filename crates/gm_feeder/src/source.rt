//! Where a connection's bytes come from.

use std::io;
use std::io::{ErrorKind, Read};

/// Whether a call may have its thread wait for a peer.
#[derive(Clone, Copy, Debug, PartialEq, Eq)]
pub enum Patience {
    /// It may.
    Waits,
    /// It does what can be done at once.
    Hurries,
}

/// The answer of a call that reads or writes.
#[derive(Clone, Copy)]
pub enum Answer {
    /// It gave or took this many bytes, of the room or of the bytes that it was handed.
    Moved { count: usize, of: usize },
    /// It failed so.
    Failed(ErrorKind),
}

/// A source of bytes. The caller says whether a read waits. Of some sources contracts know all that they gave, and what
/// each call answered.
pub trait Source<E> {
    ghost use Rattle.std.specs.Prelude.{◌≡◌, List, ℕ, ℤ, Option, length};
    ghost use Rattle.std.specs.Io.{ReadsAtMost};
    ghost use Rattle.std.specs.Io.KnownBytes.{ReadConsumes, WriteAppends};
    ghost use Rattle.gm_feeder.specs.declared.source.Answer.{Answer};
    ghost use Rattle.gm_feeder.specs.Answers.{Answered, answer_of};

    // The bytes that it will give from here on, if they are known.
    ghost remaining: { Self → Option (List ℕ) };

    // The bytes that it gave so far, if they are known.
    ghost heard: { Self → Option (List ℕ) };

    // The answers of the calls so far, the newest first, if they are known.
    ghost answers: { Self → Option (List Answer) };

    // The number of the socket that it reads from, if it is known.
    ghost socket: { Self → Option ℤ };

    /// Reads into the room, by one call, and answers how many bytes these are: none at its end.
    fn read_by(&mut self, by: &E, room: &mut [u8]) -> io::Result<usize>
        ensures bound { ReadsAtMost result room.new }
        ensures bytes { ReadConsumes (remaining self.old) (remaining self.new) result room.new }
        ensures heard { WriteAppends (heard self.old) (heard self.new) result room.new }
        ensures answered { Answered (answers self.old) (answers self.new) (answer_of result (length room.new)) }
        ensures socket { socket self.new ≡ socket self.old };
}

/// A reader needs no such argument, and its bytes aren't recorded.
impl<I: Read> Source<()> for I {
    ghost use Rattle.std.specs.Prelude.{None};

    ghost remaining = { I.remaining };

    ghost heard = { λ _. None };

    ghost answers = { λ _. None };

    ghost socket = { λ _. None };

    fn read_by(&mut self, _by: &(), room: &mut [u8]) -> io::Result<usize> {
        self.read(room)
    }
}
