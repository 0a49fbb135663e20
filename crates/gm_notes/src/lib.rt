//! The meaning of the job server: the definitions, and the contract of every server.
#![tactic(auto)]

mod config;
mod event;
mod job_server;
mod joining;
mod naming;
mod note;
mod states;
mod text;

pub use config::{Config, ConfigError, MAX_FUNCTIONS, MAX_SLOTS};
pub use event::{ApplyError, Done, Event, UnitFault};
pub use job_server::JobServer;
pub use joining::is_joining;
pub use naming::{MAX_NAME, is_bad_name};
pub use note::Note;
pub use states::{Mode, Phase, Pick, Place, Priority};
pub use text::Text;
