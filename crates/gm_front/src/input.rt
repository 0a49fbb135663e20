//! The inputs of a front, and its answers.

ghost use Rattle.std.specs.Prelude.{◌≡◌};
ghost use Rattle.gm_front.specs.declared.input.StepError.TheVariants.{Refused};

use gm_bytes::ByteQueue;
use gm_notes::{ApplyError, Done};

/// An input from outside. A slot is the small number of a connection while it is open.
#[derive(Clone, Copy, Debug)]
pub enum Input<'a> {
    /// A connection is opened, from this address.
    Open(&'a [u8]),
    /// These bytes came from the connection in this slot; they may end anywhere.
    Piece(u32, &'a [u8]),
    /// The connection in this slot is gone.
    Close(u32),
    /// The moment is this one, in seconds.
    Tick(u64),
    /// The NOOP that was owed to this slot was taken.
    Took(u32),
    /// The NOOP that was owed to this slot was withdrawn.
    Withdrew(u32),
    /// The bytes that wait for this slot are asked for.
    Drain(u32),
}

/// The answer to an input that was taken.
#[derive(Drop)]
pub struct Stepped {
    /// The slot that an opening was given, and the number of the last job that a piece made.
    pub done: Done,
    /// The bytes that were drained.
    pub drained: ByteQueue,
}

/// Why an input isn't taken, or not whole.
#[derive(Clone, Copy, Debug, PartialEq, Eq)]
pub enum StepError {
    /// It was refused, and changed nothing.
    Refused(ApplyError),
    /// There was no memory for all of a piece. Its first `units` units were taken, the rest weren't, and the slot
    /// was closed.
    Cut { units: u64 },
}

impl From<ApplyError> for StepError {
    ghost from_gives = { λ refused error. error ≡ Refused refused };

    fn from(refused: ApplyError) -> StepError {
        StepError::Refused(refused)
    }
}
