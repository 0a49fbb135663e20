//! A list that grows: one owner adds to it, and each actor knows how far it has seen it.

ghost use Rattle.std.specs.Prelude.{◌≡◌, ◌+◌, ◌++◌, [], IfOk};
ghost use Rattle.gm_ghost.specs.Lists.{Knows, AreBelow, AreOf};
ghost use Rattle.gm_ghost.specs.Owners.{kept_more, sees, next_witness, one_witness_more};

use crate::rule::{Enter, Entered, Hands, ListRule, Makes, Owned};
use crate::view::ListView;
use atomic_table::{Badge, Seat, Table};
use std::alloc::{AllocError, Global};
use std::marker::Model;
use std::mem;

/// The word at which the steps of a list are made. Nobody writes it. Contracts see which table it is.
#[derive(Drop)]
pub struct ListTable<E: Owned> {
    words: Table<(), ListView<E>, (), ListRule<E>, Global>,
}

impl<E: Owned> Model for ListTable<E> {
    ghost use Rattle.std.specs.Prelude.{◌≡◌};
    ghost use Rattle.atomic_table.specs.Seated.{TableId, table_id_coded};

    ghost Value = { TableId };

    ghost coded = { table_id_coded };

    ghost view = { λ h. h.words.shared.table_id };

    ghost invariant = { λ h. (h.words.shared.table_id.words ≡ 1) × (h.words.shared.table_id.slots ≡ 0) };
}

/// Its owner knows the whole list, and only its owner adds to it. It has no bytes.
#[derive(Drop)]
pub struct Keeper<E: Owned> {
    seat: Seat<(), ListView<E>>,
}

impl<E: Owned> Model for Keeper<E> {
    ghost use Rattle.gm_ghost.specs.Owners.{KeeperState, keeper_state, SitsAtKeeper};

    ghost Value = { KeeperState E };

    ghost view = { λ k. keeper_state k.seat.table_id k.seat.me.0 };

    ghost invariant = { λ k. SitsAtKeeper k.seat };
}

/// The part of the list that one actor has seen. It has no bytes. There is one for each actor.
#[derive(Drop)]
pub struct Witness<E: Owned> {
    badge: Badge<ListView<E>>,
}

impl<E: Owned> Model for Witness<E> {
    ghost use Rattle.gm_ghost.specs.Owners.{WitnessState, witness_state, HasNote};

    ghost Value = { WitnessState E };

    ghost view = { λ f. witness_state f.badge.table_id f.badge.views };

    ghost invariant = { λ f. HasNote f.badge.views };
}

impl<E: Owned> ListTable<E> {
    /// An empty list, and its keeper. An error means that there was no memory for its word.
    pub fn new(alloc: Global) -> Result<(ListTable<E>, Keeper<E>), AllocError>
        ensures table { IfOk result (λ made. made.1.table ≡ made.0) }
        ensures empty { IfOk result (λ made. (made.1.log ≡ []) × (made.1.made ≡ 0)) }
    {
        let zero = [0];
        let (words, seat) = Table::of_words(alloc, &zero, &())?;
        Ok((ListTable { words }, Keeper { seat }))
    }
}

impl<E: Owned> Keeper<E> {
    /// The next actor, which has seen the whole list so far.
    pub fn new_witness(&mut self, list: &ListTable<E>) -> Witness<E>
        requires { self.old.table ≡ list.now }
        ensures witness { result ≡ next_witness self.old }
        ensures keeper { self.new ≡ one_witness_more self.old }
    {
        Witness {
            badge: list
                .words
                .shared
                .split_seat::<Makes>(&mut self.seat)
                .into_badge(),
        }
    }

    /// Adds the entries that the call picks by its arguments, and lets their actor see the list. It goes on from what
    /// the actor had seen, with nothing of the actor between.
    pub fn enter<X, A: Entered<E>>(
        &mut self,
        list: &ListTable<E>,
        witness: &mut Witness<E>,
        _by: &X,
    )
        requires keeper { self.old.table ≡ list.now }
        requires witness { witness.old.table ≡ list.now }
        requires own { AreOf E.owner witness.old.who A.entries }
        ensures knows { Knows E.owner self.old.log witness.old.who witness.old.seen }
        ensures whose { AreBelow E.owner self.old.made (A.entries ++ self.old.log) }
        ensures keeper { self.new ≡ kept_more A.entries self.old }
        ensures witness { witness.new ≡ sees (A.entries ++ self.old.log) witness.old }
    {
        let table = &list.words.shared;
        let badge = mem::replace(&mut witness.badge, Badge::blank());
        table.join_seat::<Hands>(&mut self.seat, badge.into_seat());
        let _zero = table.load::<Enter<E, A>>(&mut self.seat, 0);
        witness.badge = table.split_seat::<Hands>(&mut self.seat).into_badge();
    }
}
