//! How far the server is, or what is asked of a connection, as an atomic number that only rises; and both at one look.

use std::sync::atomic::{AtomicU8, Ordering};

/// The stages of a server.
#[derive(Clone, Copy)]
pub enum ServerStage {
    /// It takes connections.
    Running,
    /// It takes no new ones, and ends once there are none.
    Graceful,
    /// The same, and each connection is to end.
    Stopped,
    /// The same, as there was no memory to enter a connection's end on the tape, so that the book still has its slot
    /// open.
    Failed,
    /// There are no connections any more, and none comes.
    Ended,
}

/// Asked by the reader of a connection: no more of its requests are taken, the waiting bytes are sent, and then no
/// more.
pub(crate) const MUST_END: u8 = 1;

/// The same, and it is let go of then, as nothing is read from it any more.
pub(crate) const INPUT_ENDED: u8 = 2;

/// What is asked of a connection at one look, by its reader and by the server.
#[derive(Clone, Copy)]
pub(crate) struct Asked {
    /// It is to end.
    pub(crate) is_ending: bool,
    /// It is to be let go of, as its input ended.
    pub(crate) has_ended: bool,
    /// All connections are to end.
    pub(crate) is_stopping: bool,
}

/// How far something is, for all threads. It goes on to a later stage only, until it begins again. Stages are numbered
/// from 0.
#[derive(Drop)]
pub struct Stage {
    code: AtomicU8,
}

impl Stage {
    /// At the first stage.
    pub fn new() -> Stage {
        Stage {
            code: AtomicU8::new(0),
        }
    }

    /// Begins again.
    pub fn restart(&self) {
        // Modelled in models/lane.h.
        self.code.store(0, Ordering::SeqCst);
    }

    /// Goes on to this stage, unless it is there already, or further. It says whether it did.
    pub fn rise(&self, code: u8) -> bool {
        // Modelled in models/lane.h.
        self.code.fetch_max(code, Ordering::SeqCst) < code
    }

    /// What is asked of a connection that is at this stage, while its server is at that one.
    pub(crate) fn asked(&self, server: &Stage) -> Asked {
        // Modelled in models/lane.h.
        let asked = self.code.load(Ordering::SeqCst);
        let is_stopping = server.code.load(Ordering::SeqCst) >= ServerStage::Stopped as u8;
        Asked {
            is_ending: is_stopping || asked >= MUST_END,
            has_ended: asked >= INPUT_ENDED,
            is_stopping,
        }
    }

    /// Whether it is at this stage, or further.
    pub fn has_reached(&self, code: u8) -> bool {
        self.code.load(Ordering::SeqCst) >= code
    }
}
