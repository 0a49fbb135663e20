//! A value that only proofs know.

ghost use Rattle.std.specs.Prelude.{◌≡◌, IfOk};

use atomic_table::{Play, Seat, Table, TableRule};
use std::alloc::{AllocError, Global};
use std::marker::{Model, PhantomData};

/// The next value of a ghost. The call that changes it picks one.
pub trait Worth<V> {
    ghost worth: { V };
}

/// The table is under no rule: its one seat knows whatever its owner says.
struct Free;

impl<V> TableRule<(), V, V> for Free {
    ghost holds = { λ _ _. Unit {0} };

    ghost first = { λ v. v };
}

/// The seat knows this from now on.
struct Becomes<V, E: Worth<V>> {
    of: PhantomData<(V, E)>,
}

impl<V, E: Worth<V>> Play<(), V> for Becomes<V, E> {
    ghost then = { λ step me found after. after ≡ (E.worth, me.1) };
}

/// A value that only proofs know. Contracts see it.
#[derive(Drop)]
pub struct Ghost<V> {
    words: Table<(), V, V, Free, Global>,
    seat: Seat<(), V>,
}

impl<V> Model for Ghost<V> {
    ghost use Rattle.std.specs.Prelude.{◌≡◌};

    ghost Value = { V };

    ghost view = { λ g. g.seat.me.0 };

    ghost invariant = { λ g. (g.seat.table_id ≡ g.words.shared.table_id) × (g.words.shared.table_id.words ≡ 1) };
}

impl<V> Ghost<V> {
    /// A cell that has this value, which isn't kept. An error means that there was no memory for the cell.
    pub fn new(alloc: Global, value: &V) -> Result<Ghost<V>, AllocError>
        ensures { IfOk result (λ ghost. ghost ≡ value.now) }
    {
        let zero = [0];
        let (words, seat) = Table::of_words(alloc, &zero, value)?;
        Ok(Ghost { words, seat })
    }

    /// The value becomes the one that the call picks, by its present value and the arguments, which are only for the
    /// proof.
    pub fn update<X, E: Worth<V>>(&mut self, _by: &X)
        ensures { self.new ≡ E.worth }
    {
        let words = &self.words;
        let _zero = words.shared.load::<Becomes<V, E>>(&mut self.seat, 0);
    }
}
