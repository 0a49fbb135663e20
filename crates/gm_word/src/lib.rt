//! The sleep words: which worker is owed a NOOP, and that it is taken once.
//!
//! A worker that sleeps (PRE_SLEEP) is woken by one NOOP packet. The book, which a lock guards, says when it is owed
//! one; the thread that writes to the worker takes the NOOP, and doesn't hold the lock. So whether a NOOP is owed is
//! kept in one atomic word for each slot: 0 awake, 1 asleep, 2 owed. The book has the one `BookSeat`, and each slot a
//! `PenSeat`. Whatever their threads do, in whatever order, the word, the book's knowledge and the number of NOOPs that
//! the pen took agree after each atomic step (`laws`).
//!
//! No call waits for another thread, and each tries once.
#![tactic(auto)]

mod book;
mod closing;
pub mod laws;
mod pen;
mod phase;
mod rule;
mod table;
mod view;

pub use book::BookSeat;
pub use closing::close_words;
pub use pen::PenSeat;
pub use phase::Phase;
pub use table::SleepTable;
