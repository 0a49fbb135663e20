//! The contents of the lines of `status` and `workers`.

/// A line of `status`: a function and its numbers.
#[derive(Clone, Copy, Debug, PartialEq, Eq)]
pub struct StatusRow<'a> {
    /// The function.
    pub name: &'a [u8],
    /// How many jobs it has, waiting or running.
    pub total: u64,
    /// How many of these run.
    pub running: u64,
    /// How many workers can do them.
    pub workers: u32,
}

/// A line of `workers`: a connection.
#[derive(Debug, Drop, PartialEq, Eq)]
pub struct WorkerRow<'a> {
    /// The slot of the connection.
    pub slot: u32,
    /// Its address.
    pub addr: &'a [u8],
    /// The name that it gave itself; empty if it gave none.
    pub id: &'a [u8],
    /// The functions that it can do, in the order in which it named them.
    pub functions: Vec<&'a [u8]>,
}
