//! The account of a slot's connections that a server hands out at its end.

use gm_delivery::Sendings;
use gm_feeder::Limits;
use gm_ghost::Ghost;
use gm_session::Hearings;

/// The bytes that were read from a slot's connections, with units within these limits, and those written to them. Only
/// proofs know them.
#[derive(Drop)]
pub struct Account {
    pub limits: Limits,
    pub heard: Ghost<Hearings>,
    pub sent: Ghost<Sendings>,
    /// To how many connections that was, one for each opening; the greatest `u64` if that can't be said.
    pub openings: u64,
}
