//! Where a connection's bytes are written.

use std::io;

/// Takes bytes. Contracts may know all that it holds, and what each call answered.
pub trait KnownWriter {
    ghost use Rattle.std.specs.Prelude.{◌≡◌, List, ℕ, ℤ, Bool, Option};
    ghost use Rattle.gm_feeder.specs.declared.source.Answer.{Answer};

    // The bytes that it holds, if they are known.
    ghost contents: { Self → Option (List ℕ) };

    // The answers of the calls so far, the newest first, if they are known.
    ghost answers: { Self → Option (List Answer) };

    // The number of the socket that it writes to, if it is known.
    ghost socket: { Self → Option ℤ };

    // Whether its time is over, so that nothing more is to be written.
    ghost is_over: { Self → Bool };

    /// Whether its time is over, so that nothing more is to be written.
    fn is_over(&self) -> bool
        ensures { result ≡ is_over self.now };
}

/// Takes bytes. The caller says how it writes, so that a connection keeps no reference between deliveries to the thread
/// that delivers.
pub trait Wire<E>: KnownWriter {
    ghost use Rattle.std.specs.Prelude.{◌≡◌, length};
    ghost use Rattle.std.specs.Io.{WritesAtMost};
    ghost use Rattle.std.specs.Io.KnownBytes.{WriteAppends};
    ghost use Rattle.gm_feeder.specs.Answers.{Answered, answer_of};

    /// Writes some of the bytes, from the first on, by one call, and answers how many these are.
    fn write_by(&mut self, by: &E, bytes: &[u8]) -> io::Result<usize>
        ensures bound { WritesAtMost result bytes.now }
        ensures bytes { WriteAppends (Self.contents self.old) (Self.contents self.new) result bytes.now }
        ensures answered { Answered (Self.answers self.old) (Self.answers self.new) (answer_of result (length bytes.now)) }
        ensures socket { Self.socket self.new ≡ Self.socket self.old };
}
