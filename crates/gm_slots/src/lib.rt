//! The slots of a server, and how its book is settled in the end: everybody's share is there, and each connection has
//! its account.
#![tactic(auto)]

mod account;
mod ending;
mod served;
mod slot;

pub use account::Account;
pub use ending::settle_slots;
pub use served::Served;
pub use slot::{Slot, open_slots};
