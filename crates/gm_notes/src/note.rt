//! The facts that the past is made of.

use crate::states::{Mode, Priority};
use crate::text::Text;

/// One thing that has happened. The past of a server is the list of these.
#[derive(Debug, Drop)]
pub enum Note {
    /// A connection from this address was given the slot.
    Opened {
        slot: u32,
        addr: Text,
    },
    /// The slot takes no further units.
    Shut {
        slot: u32,
    },
    /// The connection is gone.
    Closed {
        slot: u32,
    },
    /// The connection named itself.
    Named {
        slot: u32,
        id: Text,
    },
    /// The connection wants exceptions.
    OptionSet {
        slot: u32,
    },
    /// The worker can do this function, and each job has this many seconds; 0 is no limit.
    Can {
        slot: u32,
        function: Text,
        timeout: u32,
    },
    /// The worker can't do it any longer.
    Cant {
        slot: u32,
        function: Text,
    },
    /// The worker can do nothing.
    Reset {
        slot: u32,
    },
    /// The worker went to sleep.
    Slept {
        slot: u32,
    },
    /// It is owed a NOOP.
    Woken {
        slot: u32,
    },
    /// It awoke by itself.
    Stirred {
        slot: u32,
    },
    /// The NOOP was taken.
    Took {
        slot: u32,
    },
    /// The NOOP was withdrawn.
    Withdrew {
        slot: u32,
    },
    /// A job was made, and waits.
    Made {
        job: u64,
        function: Text,
        priority: Priority,
        unique: Text,
        body: Text,
    },
    /// The job goes on without listeners.
    Kept {
        job: u64,
    },
    /// The connection listens to the job.
    Listens {
        job: u64,
        slot: u32,
    },
    /// The job runs at the slot, at the latest until the deadline.
    Assigned {
        job: u64,
        slot: u32,
        deadline: Option<u64>,
    },
    /// The job waits again.
    Returned {
        job: u64,
    },
    /// The job's last try is over: it doesn't wait again, and fails with the next tick.
    Lost {
        job: u64,
    },
    /// The job is done or has failed.
    Ended {
        job: u64,
    },
    /// The job was dropped, as nobody wants it.
    Discarded {
        job: u64,
    },
    /// The job's latest progress.
    Report {
        job: u64,
        numerator: Text,
        denominator: Text,
    },
    /// The function was mentioned.
    Mention {
        function: Text,
    },
    /// The most jobs of the function that may wait or run; 0 is no limit.
    Limit {
        function: Text,
        size: u32,
    },
    /// The clock, in seconds.
    Now {
        moment: u64,
    },
    /// The server's mode.
    Went {
        mode: Mode,
    },
}
