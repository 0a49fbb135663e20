//! The connections of a job server, by slot.
//!
//! A slot is the small number of an open connection. `Conns` holds what the server knows of each: where it comes
//! from, its id and option, the functions that it can do, whether it sleeps, and the bytes that wait for it. It
//! also keeps sets of slots, so that the least free slot, the sleepers that can do a function, and the slots that
//! an event touched are found without going over all slots. `SlotSet` is such a set.
#![tactic(auto)]

mod able;
mod conn;
mod conns;
mod slot_set;

pub use conns::Conns;
pub use slot_set::SlotSet;
