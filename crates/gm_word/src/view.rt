//! The knowledge of the seats at a table. No value of these types is made: only proofs speak of them.

use crate::phase::Phase;
use std::collections::LinkedList;

/// The book's knowledge of a slot.
pub struct Line {
    pub phase: Phase,
    /// How many NOOPs the slot was owed so far.
    pub wakes: u64,
    /// How many of them the book has found taken.
    pub entered: u64,
    /// How many of them the book has withdrawn.
    pub withdrawals: u64,
    /// How often the book has asked the word for the state of one, by a look or by a try to withdraw it.
    pub looks: u64,
}

/// How many NOOPs of a slot its pen has taken.
pub struct Count {
    pub slot: u32,
    pub takes: u64,
    /// How often the pen has asked the word for one.
    pub tries: u64,
}

/// The book's knowledge.
pub struct BookPage {
    /// A line for each slot.
    pub lines: LinkedList<Line>,
    /// The slots below it have been given a pen.
    pub made: u32,
    /// The counts of the pens that were given back.
    pub back: LinkedList<Count>,
}

/// The knowledge of a seat.
pub enum WordView {
    Book(BookPage),
    Pen(Count),
    /// The pen was given back.
    Spent,
}
