//! How far a server is.

use gm_delivery::{ServerStage, Stage};
use std::sync::atomic::{AtomicU64, Ordering};

/// How far a server is, and how many connections it has.
#[derive(Drop)]
pub(crate) struct Progress {
    pub(crate) stage: Stage,
    /// How many connections are open, or about to start.
    pub(crate) connections: AtomicU64,
}

impl Progress {
    pub(crate) fn new() -> Progress {
        Progress {
            stage: Stage::new(),
            connections: AtomicU64::new(0),
        }
    }

    /// Whether the server takes no new connections, and has none; or has failed.
    pub(crate) fn can_end(&self) -> bool {
        // Modelled in models/shutdown.pml.
        self.stage.has_reached(ServerStage::Failed as u8)
            || !self.is_running() && self.connections() == 0
    }

    /// Whether the server takes connections.
    pub(crate) fn is_running(&self) -> bool {
        !self.stage.has_reached(ServerStage::Graceful as u8)
    }

    /// Whether there are no connections any more, and none comes.
    pub(crate) fn has_ended(&self) -> bool {
        // Modelled in models/shutdown.pml.
        self.stage.has_reached(ServerStage::Ended as u8)
    }

    /// How many connections are open, or about to start.
    pub(crate) fn connections(&self) -> u64 {
        // Modelled in models/shutdown.pml.
        self.connections.load(Ordering::SeqCst)
    }
}
