//! The rule of a table of sleep words, and what each kind of step tells the seat that makes it.

ghost use Rattle.gm_word.specs.declared.view.WordView.TheVariants.{Spent};
ghost use Rattle.gm_word.specs.Lines.{withdraw, look};
ghost use Rattle.gm_word.specs.Steps.{Reached, Tells, TellsSwap, TellsPen};
ghost use Rattle.gm_word.specs.Steps.{opening_view, with_next_pen, next_pen, with_back};

use crate::view::WordView;
use atomic_table::{Join, Play, Split, TableRule};

/// The table is as steps of the eight kinds, and no others, have left it.
pub(crate) struct WordRule;

impl TableRule<(), WordView, u32> for WordRule {
    ghost holds = { λ _ s. Reached s.words s.views };

    ghost first = { opening_view };
}

/// The book writes the word of a phase: the worker goes to sleep, is woken or wakes up by itself.
pub(crate) struct Swap;

impl Play<(), WordView> for Swap {
    ghost then = { TellsSwap };
}

/// The book tries to withdraw a NOOP.
pub(crate) struct Withdraw;

impl Play<(), WordView> for Withdraw {
    ghost then = { Tells withdraw };
}

/// The book looks whether a NOOP was taken.
pub(crate) struct Look;

impl Play<(), WordView> for Look {
    ghost then = { Tells look };
}

/// A pen tries to take a NOOP.
pub(crate) struct Take;

impl Play<(), WordView> for Take {
    ghost then = { TellsPen };
}

/// The book gives the next slot its pen, and takes a pen in.
pub(crate) struct Pens;

impl Split<WordView> for Pens {
    ghost left = { with_next_pen };

    ghost right = { next_pen };
}

impl Join<WordView> for Pens {
    ghost both = { with_back };

    ghost spent = { Spent };
}
