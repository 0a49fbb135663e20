//! The settings of a trial, and the servers and fronts that it begins with.

use crate::error::TrialError;
use gm_core::Core;
use gm_feeder::Limits;
use gm_front::Front;
use gm_notes::{Config, JobServer};
use gm_plain::PlainServer;
use std::alloc::Global;
use std::hash::RandomState;
use std::str::FromStr;

/// How large a unit may be.
pub const LIMITS: Limits = Limits {
    max_bytes: 67_108_864,
    max_line: 1024,
};

/// The settings of a server.
#[derive(Drop)]
pub struct Settings {
    pub first_job: u64,
    slots: u32,
    functions: u32,
    round_robin: bool,
    retries: u32,
    as_gearmand: bool,
    seed: RandomState,
}

/// The number that an argument spells.
pub fn number<T: FromStr>(argument: &str) -> Result<T, TrialError>
where
    T::Err: Drop,
{
    argument.parse().ok().ok_or(TrialError::Usage)
}

impl Settings {
    /// The settings that these numbers say: the first job's, those of slots and functions, whether functions take
    /// turns, to how many workers a job is given, and whether requests mean what gearmand's applications mean by them.
    pub fn parse(seed: RandomState, numbers: &[&str]) -> Result<Settings, TrialError> {
        let [first_job, slots, functions, turns, retries, as_gearmand] = numbers else {
            return Err(TrialError::Usage);
        };
        Ok(Settings {
            first_job: number(first_job)?,
            slots: number(slots)?,
            functions: number(functions)?,
            round_robin: number::<u32>(turns)? != 0,
            retries: number(retries)?,
            as_gearmand: number::<u32>(as_gearmand)? != 0,
            seed,
        })
    }

    fn config(&self, alloc: Global) -> Result<Config, TrialError> {
        let name = Vec::from_slice(alloc, b"gmd")?;
        let Ok(config) = Config::new(name, self.first_job, self.slots, self.functions) else {
            return Err(TrialError::Usage);
        };
        Ok(
            config
                .with_round_robin(self.round_robin)
                .with_retries(self.retries)
                .with_as_gearmand(self.as_gearmand),
        )
    }
}

/// A server that a trial begins with. Trials take any, so that their proofs don't spell out how the tables of each are
/// dropped.
pub trait TrialServer: JobServer + Drop {
    /// A server to which nothing has happened.
    fn with_settings(alloc: Global, settings: &Settings) -> Result<Self, TrialError>;
}

impl TrialServer for PlainServer {
    fn with_settings(alloc: Global, settings: &Settings) -> Result<PlainServer, TrialError> {
        Ok(PlainServer::new(alloc, settings.config(alloc)?)?)
    }
}

impl TrialServer for Core {
    fn with_settings(alloc: Global, settings: &Settings) -> Result<Core, TrialError> {
        Ok(Core::new(alloc, settings.seed, settings.config(alloc)?)?)
    }
}

/// A front of a new server.
pub fn new_front<S: TrialServer>(
    alloc: Global,
    settings: &Settings,
) -> Result<Front<S>, TrialError> {
    Ok(Front::new(alloc, S::with_settings(alloc, settings)?, LIMITS)?)
}
