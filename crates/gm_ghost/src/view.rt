//! The knowledge of the seats at a list's table. No value of these types is made: only proofs speak of them.

use std::collections::LinkedList;

/// The part of the list that an actor has seen.
pub struct Note<E> {
    pub who: u64,
    pub seen: LinkedList<E>,
}

/// The keeper's knowledge: the whole list, the newest entry first; the actors below `made` have a note; and it may hold
/// one of these notes for a moment.
pub struct KeeperPage<E> {
    pub log: LinkedList<E>,
    pub made: u64,
    pub held: Option<Note<E>>,
}

/// The knowledge of a seat.
pub enum ListView<E> {
    Keeper(KeeperPage<E>),
    Witness(Note<E>),
    Spent,
}
