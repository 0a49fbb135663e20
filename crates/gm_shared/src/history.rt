//! The one history, which exists only in proofs.

ghost use Rattle.std.specs.Prelude.{◌≡◌, ◌++◌};
ghost use Rattle.gm_ghost.specs.Owners.{kept_more, sees};
ghost use Rattle.gm_shared.specs.Histories.{Knows, AreBelow, AreOf};
ghost use Rattle.gm_shared.specs.Tokens.{entries_of};

use crate::tape::Entry;
use crate::what::What;
use gm_ghost::Owned;
use std::marker::Brand;

/// The word at which the steps of the history are made.
pub(crate) type History = gm_ghost::ListTable<Entry>;

/// Knows the whole history, and adds to it.
pub type Keeper = gm_ghost::Keeper<Entry>;

/// The part of the history that one actor, a desk or a pen, has seen.
pub(crate) type Witness = gm_ghost::Witness<Entry>;

impl Owned for Entry {
    ghost use Rattle.gm_shared.specs.Histories.{entry_owner};

    ghost owner = { entry_owner };
}

/// Adds the actor's entries, and lets it see the history, which goes on from what it had seen, with nothing of the
/// actor between.
pub(crate) fn enter(
    keeper: &mut Keeper,
    history: &History,
    witness: &mut Witness,
    number: u32,
    what: What<'_>,
)
    requires keeper { keeper.old.table ≡ history.now }
    requires witness { witness.old.table ≡ history.now }
    requires own { AreOf witness.old.who (entries_of number what) }
    ensures knows { Knows keeper.old.log witness.old.who witness.old.seen }
    ensures whose { AreBelow keeper.old.made (entries_of number what.entry ++ keeper.old.log) }
    ensures keeper { keeper.new ≡ kept_more (entries_of number what.entry) keeper.old }
    ensures witness { witness.new ≡ sees (entries_of number what.entry ++ keeper.old.log) witness.old }
{
    keeper.enter::<(u32, What<'_>), Brand>(history, witness, &(number, what));
}
