//! Laws of the one history of all calls, which exists only in proofs. Each function is a law: its body does nothing,
//! and its contract is the law.

ghost use Rattle.gm_shared.specs.Laws.{OneBeginsTheOther, SeenIsOlder, OwnAreWhole};
ghost use Rattle.gm_shared.specs.Resting.{DrainedSlotsRest};

/// Of two views of the history one begins the other.
pub fn one_begins_the_other()
    ensures { OneBeginsTheOther }
{}

/// The entries that a desk or a pen adds to the history come after all of the history that it has seen.
pub fn what_was_seen_is_older()
    ensures { SeenIsOlder }
{}

/// Of a desk or a pen the history has what its calls added, in their order, each once.
pub fn own_calls_are_whole()
    ensures { OwnAreWhole }
{}

/// A slot rests if nothing was asked for it since its last drain: no bytes more wait for it, it wasn't shut, and it isn't
/// owed a NOOP that it wasn't owed then. While an open slot rests, no bytes wait for it. A drain by its pen leaves it so,
/// also a drain that is refused because the slot isn't open. A desk's call leaves each slot so that it doesn't touch, and
/// a refused call leaves each so.
pub fn drained_slots_rest()
    ensures { DrainedSlotsRest }
{}
