//! A writer, and all that was written to it.

ghost use Rattle.std.specs.Prelude.{◌≡◌, [], IfOk};

use crate::log::Log;
use crate::wire::{KnownWriter, Wire};
use gm_feeder::Answer;
use std::alloc::{AllocError, Global};
use std::io;
use std::marker::{Brand, Model};

/// A writer, with a log of all that was written to it since it was taken, and of what its calls answered. The log
/// exists in proofs only. Its contents are those when it was taken, and then the log's.
#[derive(Drop)]
pub struct LoggedWriter<W: KnownWriter> {
    writer: W,
    log: Log,
}

impl<W: KnownWriter> Model for LoggedWriter<W> {
    ghost use Rattle.std.specs.Io.KnownBytes.{Appends};
    ghost use Rattle.gm_socket.specs.Sources.{WriterState};

    ghost Value = { WriterState W };

    ghost view = { λ r. record { writer = r.writer; before = r.log.before; bytes = r.log.bytes; answers = r.log.answers } };

    ghost invariant = { λ r. Appends r.log.before (W.contents r.writer) r.log.bytes };
}

impl<W: KnownWriter + Drop> LoggedWriter<W> {
    /// Takes a writer. The log is empty. An error means that there was no memory for it.
    pub fn new(alloc: Global, writer: W) -> Result<LoggedWriter<W>, AllocError>
        ensures { IfOk result (λ logged. logged ≡ record { writer = writer; before = W.contents writer; bytes = []; answers = [] }) }
    {
        let log = Log::new::<W, Brand>(alloc, &writer)?;
        Ok(LoggedWriter { writer, log })
    }

    /// The writer, to which nothing is written through this.
    pub fn writer(&self) -> &W
        ensures { result.now ≡ self.now.writer }
    {
        &self.writer
    }
}

impl<W: KnownWriter> KnownWriter for LoggedWriter<W> {
    ghost use Rattle.std.specs.Prelude.{Some};

    ghost contents = { λ r. Some r.bytes };

    ghost answers = { λ r. Some r.answers };

    ghost socket = { λ r. W.socket r.writer };

    ghost is_over = { λ r. W.is_over r.writer };

    fn is_over(&self) -> bool {
        self.writer.is_over()
    }
}

impl<E, W: Wire<E>> Wire<E> for LoggedWriter<W> {
    fn write_by(&mut self, by: &E, bytes: &[u8]) -> io::Result<usize> {
        match self.writer.write_by(by, bytes) {
            Ok(count) => {
                let of = bytes.len();
                self.log.add(&bytes[..count], &Answer::Moved { count, of });
                Ok(count)
            }
            Err(error) => {
                self.log.add(&[], &Answer::Failed(error.kind()));
                Err(error)
            }
        }
    }
}
