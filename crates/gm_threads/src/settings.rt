//! The settings of a server.

use gm_feeder::Limits;
use gm_notes::Config;

/// The settings of a server.
#[derive(Drop)]
pub struct Settings {
    /// The book's settings.
    pub config: Config,
    /// How large a unit may be.
    pub limits: Limits,
    /// Whether a tape is kept: every accepted call with its bytes and its answer, for as long as the server runs. In
    /// the end it is compared with what each connection was told.
    pub tape: bool,
}
