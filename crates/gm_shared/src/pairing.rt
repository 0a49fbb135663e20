//! Through which sockets the connections of slots went: the reader of a slot's connection and its writer are behind two
//! locks, and both know the same list of sockets. Only proofs know the list.

ghost use Rattle.std.specs.Prelude.{◌≡◌, ◌+◌, ◌++◌, IfSome, MatchBool, Some, true, false};
ghost use Rattle.gm_ghost.specs.Lists.{AreBelow};
ghost use Rattle.gm_ghost.specs.Owners.{kept_more};
ghost use Rattle.gm_shared.specs.Pairings.{IsPair, Paired, new_side, side_code, side_of, passed_by, passed_with, passages_of};

use crate::name::BookName;
use gm_ghost::{Keeper, ListTable, Owned, Witness};
use std::alloc::{AllocError, Global};
use std::marker::{Brand, Model, PhantomData};

/// That a side of a slot was handed the socket of a connection. No value is made.
pub struct Passage {
    /// Twice the slot, and one more if it is the side that writes.
    pub side: u64,
    /// The socket's number.
    pub socket: i32,
    /// Whether the connection is served. Otherwise it is closed at once.
    pub is_served: bool,
}

impl Owned for Passage {
    ghost use Rattle.gm_shared.specs.Pairings.{side_of};

    ghost owner = { side_of };
}

/// A list of passages that has no name yet.
#[derive(Drop)]
pub struct BlankPairing {
    list: ListTable<Passage>,
    keeper: Keeper<Passage>,
}

impl Model for BlankPairing {
    ghost use Rattle.std.specs.Prelude.{◌≡◌, []};
    ghost use Rattle.atomic_table.specs.Seated.{TableId};

    ghost Value = { TableId };

    ghost view = { λ b. b.list };

    ghost invariant = { λ b. (b.keeper.table ≡ b.list) × (b.keeper.log ≡ []) × (b.keeper.made ≡ 0) };
}

impl BlankPairing {
    /// An empty list. An error means that there was no memory for it.
    pub fn new(alloc: Global) -> Result<BlankPairing, AllocError> {
        let (list, keeper) = ListTable::new(alloc)?;
        Ok(BlankPairing { list, keeper })
    }
}

/// Makes the two sides of each slot, and hands each connection's socket to both sides of its slot. Contracts see how
/// many slots have their sides.
#[derive(Drop)]
pub struct Pairing<K: BookName> {
    list: ListTable<Passage>,
    keeper: Keeper<Passage>,
    slots: u32,
    of: PhantomData<K>,
}

impl<K: BookName> Model for Pairing<K> {
    ghost use Rattle.std.specs.Prelude.{◌≡◌, ◌*◌, ℕ};
    ghost use Rattle.gm_ghost.specs.Lists.{AreBelow};
    ghost use Rattle.gm_shared.specs.Pairings.{AreAlike, side_of};

    ghost Value = { ℕ };

    ghost view = { λ p. p.slots };

    ghost invariant = { λ p. (p.list ≡ K.sockets) × (p.keeper.table ≡ K.sockets) × (p.keeper.made ≡ 2 * p.slots) × AreAlike p.keeper.log
        × AreBelow side_of (2 * p.slots) p.keeper.log };
}

/// One side of a slot, which knows the sockets of all its connections so far. Contracts see the slot, whether it is the
/// side that writes, and the sockets, the last one first, with whether their connections are served.
#[derive(Drop)]
pub struct PairSide<K: BookName> {
    slot: u32,
    is_writing: bool,
    witness: Witness<Passage>,
    of: PhantomData<K>,
}

impl<K: BookName> Model for PairSide<K> {
    ghost use Rattle.std.specs.Prelude.{◌≡◌};
    ghost use Rattle.gm_shared.specs.Pairings.{SideState, side_code, passed_by};

    ghost Value = { SideState };

    ghost view = { λ s. record { slot = s.slot; is_writing = s.is_writing; passed = passed_by (side_code s.slot s.is_writing) s.witness.seen } };

    ghost invariant = { λ s. (s.witness.table ≡ K.sockets) × (s.witness.who ≡ side_code s.slot s.is_writing) };
}

/// Adds the passage of a connection's socket at one side, or none, and lets the side see the list.
fn enter<K: BookName>(
    keeper: &mut Keeper<Passage>,
    list: &ListTable<Passage>,
    side: &mut PairSide<K>,
    passage: Option<(i32, bool)>,
)
    requires list { list.now ≡ K.sockets }
    requires keeper { keeper.old.table ≡ K.sockets }
    ensures knows { passed_by (side_code side.old.slot side.old.is_writing) keeper.old.log ≡ side.old.passed }
    ensures whose { AreBelow side_of keeper.old.made (passages_of (side_code side.old.slot side.old.is_writing) passage ++ keeper.old.log) }
    ensures keeper { keeper.new ≡ kept_more (passages_of (side_code side.old.slot side.old.is_writing) passage) keeper.old }
    ensures side { side.new ≡ passed_with passage side.old }
{
    let at = (side.slot, side.is_writing, passage);
    keeper.enter::<(u32, bool, Option<(i32, bool)>), Brand>(list, &mut side.witness, &at);
}

/// Whether these are the two sides of one slot.
fn are_pair<K: BookName>(reading: &PairSide<K>, writing: &PairSide<K>) -> bool
    ensures { MatchBool result (IsPair reading.now writing.now) (IsPair reading.now writing.now → ⊥) }
{
    reading.slot == writing.slot && !reading.is_writing && writing.is_writing
}

impl<K: BookName> Pairing<K> {
    /// A list that has this name, and no sides yet.
    pub fn new(blank: BlankPairing) -> Pairing<K>
        requires { blank ≡ K.sockets }
        ensures { result ≡ 0 }
    {
        let BlankPairing { list, keeper } = blank;
        Pairing {
            list,
            keeper,
            slots: 0,
            of: PhantomData,
        }
    }

    /// The two sides of the next slot, which had no connection yet: the one that reads, and the one that writes. There
    /// are none if the slot's number would be no `u32`.
    pub fn next_sides(&mut self) -> Option<(PairSide<K>, PairSide<K>)>
        ensures { IfSome result (λ sides. (sides.0 ≡ new_side self.old false) × (sides.1 ≡ new_side self.old true) × (self.new ≡ self.old + 1)) }
    {
        let slot = self.slots;
        self.slots = slot.checked_add(1)?;
        let reading = PairSide {
            slot,
            is_writing: false,
            witness: self.keeper.new_witness(&self.list),
            of: PhantomData,
        };
        let writing = PairSide {
            slot,
            is_writing: true,
            witness: self.keeper.new_witness(&self.list),
            of: PhantomData,
        };
        Some((reading, writing))
    }

    /// Hands the socket of a connection to both sides of its slot. It says whether it could: not if they are of two
    /// slots, or one of them isn't the side that reads or that writes.
    pub fn pair(
        &mut self,
        reading: &mut PairSide<K>,
        writing: &mut PairSide<K>,
        socket: i32,
        is_served: bool,
    ) -> bool
        ensures paired { MatchBool result (Paired (socket, is_served) reading.old writing.old reading.new writing.new)
            ((IsPair reading.old writing.old → ⊥) × (reading.new ≡ reading.old) × (writing.new ≡ writing.old)) }
        ensures slots { self.new ≡ self.old }
    {
        if !are_pair(reading, writing) {
            return false;
        }
        let passage = Some((socket, is_served));
        enter(&mut self.keeper, &self.list, reading, passage);
        enter(&mut self.keeper, &self.list, writing, passage);
        true
    }

    /// Compares the two sides of a slot, which were handed the same sockets. It says whether they are the two sides of
    /// one.
    pub fn end(&mut self, reading: PairSide<K>, writing: PairSide<K>) -> bool
        ensures same { MatchBool result (IsPair reading writing × (reading.passed ≡ writing.passed)) (IsPair reading writing → ⊥) }
        ensures slots { self.new ≡ self.old }
    {
        let mut reading = reading;
        let mut writing = writing;
        if !are_pair(&reading, &writing) {
            return false;
        }
        enter(&mut self.keeper, &self.list, &mut reading, None);
        enter(&mut self.keeper, &self.list, &mut writing, None);
        true
    }
}
