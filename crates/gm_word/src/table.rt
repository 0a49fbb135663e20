//! The table of the words.

ghost use Rattle.std.specs.Prelude.{◌≡◌, ◌<◌, IfOk, replicate};
ghost use Rattle.gm_word.specs.Lines.{fresh_line};
ghost use Rattle.gm_word.specs.Seats.{fresh_pens};

use crate::book::{AWAKE, BookSeat};
use crate::pen::PenSeat;
use crate::phase::Phase;
use crate::rule::{Pens, WordRule};
use crate::view::WordView;
use atomic_table::Table;
use std::alloc::{AllocError, Global};
use std::marker::Model;

/// The sleep words, one for each slot, which all threads share. Contracts see which table it is.
#[derive(Drop)]
pub struct SleepTable {
    pub(crate) words: Table<(), WordView, u32, WordRule, Global>,
}

impl Model for SleepTable {
    ghost use Rattle.std.specs.Prelude.{◌≡◌};
    ghost use Rattle.atomic_table.specs.Seated.{TableId, table_id_coded};

    ghost Value = { TableId };

    ghost coded = { table_id_coded };

    ghost view = { λ t. t.words.shared.table_id };

    ghost invariant = { λ t. t.words.shared.table_id.slots ≡ 0 };
}

impl SleepTable {
    /// A table of `slots` slots, at least one, whose workers are all awake; the seat of its book; and a pen for
    /// each slot, in their order. An error means that there was no memory for them.
    pub fn new(
        alloc: Global,
        slots: u32,
    ) -> Result<(SleepTable, BookSeat, Vec<PenSeat>), AllocError>
        requires { 0 < slots }
        ensures { IfOk result (λ made. (made.1.table ≡ made.0) × (made.1.lines ≡ replicate slots fresh_line)
            × (made.2.items ≡ fresh_pens made.0 slots)) }
    {
        let count = slots as usize;
        let all_awake = vec![in alloc; AWAKE; count]?;
        let phases = vec![in alloc; Phase::Awake; count]?;
        let mut pens = Vec::with_capacity(alloc, count)?;
        let (words, mut seat) = Table::of_words(alloc, all_awake.as_slice(), &slots)?;
        for slot in 0..slots {
            let pen = words.shared.split_seat::<Pens>(&mut seat);
            pens.push_reserved(PenSeat { seat: pen, slot });
        }
        Ok((SleepTable { words }, BookSeat { seat, phases }, pens))
    }
}
