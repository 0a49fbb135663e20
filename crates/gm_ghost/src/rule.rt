//! The rule of a list's table, and what its steps tell.

ghost use Rattle.std.specs.Prelude.{List, [], ℕ};
ghost use Rattle.gm_ghost.specs.declared.view.ListView.TheVariants.{Spent};
ghost use Rattle.gm_ghost.specs.Lists.{Kept, Enters, opening_view, holding, let_go, given, with_next, next};

use crate::view::ListView;
use atomic_table::{Join, Play, Split, TableRule};
use std::marker::{Brand, PhantomData};

/// A value with an owner, by number: an entry of a list is of one actor.
pub trait Owned {
    ghost owner: { Self → ℕ };
}

pub(crate) struct ListRule<E> {
    of: PhantomData<E>,
}

impl<E: Owned> TableRule<(), ListView<E>, ()> for ListRule<E> {
    ghost holds = { λ _ s. Kept E.owner s.views };

    ghost first = { λ _. opening_view };
}

/// The entries that a step adds, the newest first. The call that makes the step picks them.
pub trait Entered<E> {
    ghost entries: { List E };
}

impl<E> Entered<E> for Brand {
    ghost entries = { [] };
}

/// The keeper adds these entries for the actor whose note it holds.
pub(crate) struct Enter<E, A> {
    of: PhantomData<(E, A)>,
}

impl<E: Owned, A: Entered<E>> Play<(), ListView<E>> for Enter<E, A> {
    ghost then = { λ step me found after. Enters E.owner A.entries me after };
}

/// The keeper takes a note, and gives it back.
pub(crate) struct Hands;

impl<E> Join<ListView<E>> for Hands {
    ghost both = { holding };

    ghost spent = { Spent };
}

impl<E> Split<ListView<E>> for Hands {
    ghost left = { let_go };

    ghost right = { given };
}

/// The keeper makes the next actor's note.
pub(crate) struct Makes;

impl<E> Split<ListView<E>> for Makes {
    ghost left = { with_next };

    ghost right = { next };
}
