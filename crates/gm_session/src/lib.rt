//! Sessions: the bytes of one connection are cut into units, and each is handed in, past a gate, at the desk of its
//! slot. A `Talk` is a slot's desk with the session of its connection, which threads go on with by turns. The effects
//! of its units are added to `Effects`: for which slots there may be something to send then.
#![tactic(auto)]

mod alone;
mod applier;
mod batch;
mod effects;
mod gate;
mod heard;
mod host;
mod own_desk;
mod session;
mod talk;

pub use alone::read_session;
pub use applier::Around;
pub use effects::Effects;
pub use gate::{Gate, OpenGate};
pub use heard::{Heard, Hearings};
pub use host::Host;
pub use own_desk::OwnDesk;
pub use session::{Session, SessionEnd};
pub use talk::{Reading, Talk, TalkParts};
