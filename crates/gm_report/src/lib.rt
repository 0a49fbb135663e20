//! Reports to operators: on standard error, to systemd, and at the server's end.
#![tactic(auto)]

mod error;
mod levels;
mod notices;
mod ready;
mod speaking;
mod summary;
mod systemd;

pub use error::ServeError;
pub use levels::Levels;
pub use notices::Trouble;
pub use ready::Announcer;
pub use speaking::Speaker;
pub use summary::Summary;
pub use systemd::{first_socket, handed_sockets};
