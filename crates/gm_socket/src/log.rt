//! A log of calls.

ghost use Rattle.std.specs.Prelude.{◌≡◌, IfOk};
ghost use Rattle.gm_socket.specs.Logs.{with_call};

use gm_feeder::Answer;
use gm_ghost::{Ghost, Worth};
use std::alloc::{AllocError, Global};
use std::collections::LinkedList;
use std::marker::{Brand, Model};

/// The contents of a log: what its owner had when the log was begun, if that is known; the bytes that calls moved
/// since; and what these calls answered, the newest first. None but an empty one is made.
#[derive(Drop)]
pub struct Logged {
    pub before: Option<LinkedList<u8>>,
    pub bytes: LinkedList<u8>,
    pub answers: LinkedList<Answer>,
}

impl Worth<Logged> for Brand {
    ghost use Rattle.std.specs.Prelude.{[], None};

    ghost worth = { record { before = None; bytes = []; answers = [] } };
}

/// A log, which exists in proofs only. Contracts see what it has.
#[derive(Drop)]
pub struct Log {
    cell: Ghost<Logged>,
}

impl Model for Log {
    ghost use Rattle.gm_socket.specs.declared.log.Logged.{Logged};

    ghost Value = { Logged };

    ghost view = { λ l. l.cell };
}

impl Log {
    /// A log that begins as the call picks by its argument.
    pub fn new<X, E: Worth<Logged>>(alloc: Global, of: &X) -> Result<Log, AllocError>
        ensures { IfOk result (λ log. log ≡ E.worth) }
    {
        let empty = Logged {
            before: None,
            bytes: LinkedList::new(alloc),
            answers: LinkedList::new(alloc),
        };
        let mut cell = Ghost::new(alloc, &empty)?;
        cell.update::<X, E>(of);
        Ok(Log { cell })
    }

    /// Adds a call: the bytes that it moved, and what it answered.
    pub fn add(&mut self, bytes: &[u8], answer: &Answer)
        ensures { self.new ≡ with_call bytes.now answer.now self.old }
    {
        self.cell
            .update::<(&[u8], &Answer), Brand>(&(bytes, answer));
    }
}
