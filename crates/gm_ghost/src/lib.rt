//! Values and lists that only proofs know: a value under a lock, or in one thread's hands, can say by them what
//! happened before. Each changes only when its owner says so, and costs one block of memory and a load for each
//! change.
//!
//! A statement by such a value is only as true as its setters make it. They are in the crates above, and are to be read
//! for that.
#![tactic(auto)]

mod cell;
mod list;
mod rule;
mod view;

pub use cell::{Ghost, Worth};
pub use list::{Keeper, ListTable, Witness};
pub use rule::{Entered, Owned};
pub use view::{KeeperPage, ListView, Note};
