//! The live jobs of a job server.
//!
//! A job has a number, and is live from when it is made until it ends. `Jobs` finds a job by its number, and by its
//! function and unique id; it knows its listeners, where it runs and until when. In addition there are hints: for each
//! slot the numbers of the jobs that run there and of those to which it listens, those of the jobs that nobody wants,
//! and the deadlines. A hint is compared with its job, so it may be old; but a job without one is in none of these
//! lists, so the next job is found without a look at others.
#![tactic(auto)]

mod by_number;
mod deadlines;
mod hints;
mod index;
mod job;
mod jobs;
mod min_heap;
mod surface;
mod uniques;

pub use job::{Job, NewJob};
pub use jobs::{Back, JobError, Jobs};
pub use uniques::Vacancy;
