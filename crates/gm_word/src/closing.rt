//! The end of a table.

ghost use Rattle.std.specs.Prelude.{◌≡◌, ◌≤◌, [], length, All, IfOk, vec_capacity};
ghost use Rattle.std.specs.Slots.{slots_items, slots_len, IsFull};
ghost use Rattle.gm_word.specs.Seats.{Settles, AtBook, lines_of};

use crate::book::BookSeat;
use crate::pen::PenSeat;
use crate::rule::Pens;
use crate::table::SleepTable;
use crate::view::WordView;
use atomic_table::{Closed, Seat};
use std::alloc::{AllocError, Global};

// Hands the pens in to the book's seat.
fn hand_in(table: &SleepTable, seat: &mut Seat<(), WordView>, mut pens: Vec<PenSeat>)
    requires table { seat.old.table_id ≡ table.now }
    requires book { AtBook seat.old (lines_of seat.old.me.0) [] }
    requires pens { All (λ pen. pen.table ≡ table.now) pens.items }
    ensures table { seat.new.table_id ≡ seat.old.table_id }
    ensures book { AtBook seat.new (lines_of seat.old.me.0) pens.items }
{
    while let Some(pen) = pens.pop() {
        let PenSeat { seat: pen, .. } = pen;
        table.words.shared.join_seat::<Pens>(seat, pen);
    }
}

// The words of a closed table.
fn read_words(closed: &Closed<(), Global>, words: &mut Vec<u64>)
    requires full { IsFull closed.now.words }
    requires empty { words.old.items ≡ [] }
    requires room { slots_len closed.now.words ≤ vec_capacity words.old }
    ensures { words.new.items ≡ slots_items closed.now.words }
{
    for slot in 0..closed.words.len() {
        words.push_reserved(closed.word(slot));
    }
}

/// Closes a table, once no thread shares it any more, and returns its last words, one for each slot. They agree
/// with the book's knowledge and with the NOOPs that the pens handed in have taken.
///
/// An error means that there was no memory for the list of words. The table, the book and the pens are gone
/// then, too.
pub fn close_words(
    alloc: Global,
    table: SleepTable,
    book: BookSeat,
    pens: Vec<PenSeat>,
) -> Result<Vec<u64>, AllocError>
    requires book { book.table ≡ table }
    requires pens { All (λ pen. pen.table ≡ table) pens.items }
    ensures { IfOk result (λ words. Settles words.items book.lines pens.items) }
{
    let mut words = Vec::with_capacity(alloc, book.phases.len())?;
    let BookSeat { mut seat, .. } = book;
    hand_in(&table, &mut seat, pens);
    let SleepTable { words: shared } = table;
    let closed = shared.close_with(seat);
    read_words(&closed, &mut words);
    closed.free();
    Ok(words)
}
