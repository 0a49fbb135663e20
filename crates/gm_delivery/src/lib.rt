//! Delivery to one connection: the bytes that wait for its slot in the book are written to its socket, by one thread at
//! a time. A `Message` is drained bytes and the NOOP after them. A `Lane` is a slot's part for sending: a sender, with
//! the slot's pen, the rest of a message, the connection's socket, and an account of all bytes ever written to the
//! slot's connections; and the word that says which thread delivers.
#![tactic(auto)]

mod account;
mod finish;
mod lane;
mod life;
mod message;
mod outbound;
mod sender;
mod stage;
mod writing;

pub use account::{Past, Sendings};
pub use finish::{Deliverer, Finish, Leftover};
pub use lane::{DeliveryContext, Lane};
pub use message::Message;
pub use sender::LaneParts;
pub use stage::{ServerStage, Stage};
pub use writing::{Sent, WriteFault, write_turn};
