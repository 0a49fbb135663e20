//! The book of a job server that threads share: its core and the book's seat at the sleep words, as one value under a
//! lock.
//!
//! Each critical section is one call: `Booked::hold` looks at the word of the event's slot, takes back the NOOP that is
//! owed there if the event wants that, lets the event take effect, and sees to it that the words follow. Nothing here
//! looks at all slots.
//!
//! `Shared::open` makes the book that threads share from a `Blank`, with a `Desk` and a `Pen` for each slot: events are
//! handed in at a desk, and a pen takes out the NOOP and the bytes that wait for its slot. A pen takes an owed NOOP
//! without the lock.
//!
//! There is one history of all calls, only in proofs: the value under the lock knows all of it, and a desk or a pen
//! knows how much of it there was at its last call. Contracts say what a call adds to it, and that its answer is the
//! definitions' there.
//!
//! If that is asked, the book keeps a tape of all accepted calls, and `settle` compares it in the end with the
//! shares of the desks and the pens.
#![tactic(auto)]

mod adding_up;
mod blank;
mod book;
mod events;
mod guarded;
mod history;
pub mod laws;
mod name;
mod openings;
mod pairing;
mod receipt;
mod settling;
mod shared;
mod surface;
mod tape;
mod what;
mod words;

pub use blank::Blank;
pub use book::Booked;
pub use history::Keeper;
pub use name::BookName;
pub use openings::Openings;
pub use pairing::{BlankPairing, PairSide, Pairing};
pub use receipt::{Drained, Receipt};
pub use settling::{SettleError, Settled, settle};
pub use shared::{Desk, Pen, Shared};
pub use tape::{Actor, Answer, Entry, Share, TapeMode, TapeStep, Told};
