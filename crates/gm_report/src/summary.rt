//! The summary of a server that served.

/// The summary of a server that served.
#[derive(Clone, Copy)]
pub struct Summary {
    /// How many connections were opened.
    pub connections: u64,
    /// How many entries the tape has; 0 if none was kept.
    pub entries: u64,
}
