//! The settings of a server.

ghost use Rattle.std.specs.Prelude.{◌≡◌, ◌≤◌, Some, false, length, MatchResult};
ghost use Rattle.gm_packet.specs.Packets.{has_nul};
ghost use Rattle.std.specs.List.{list_all};
ghost use Rattle.gm_notes.specs.Settings.{Settings, config_fault, is_name, is_name_byte};

use crate::text::Text;
use std::marker::Model;

/// The most slots that a server has: the most connections that may be open at once.
pub const MAX_SLOTS: u32 = 1_024;

/// The most functions that a server knows.
pub const MAX_FUNCTIONS: u32 = 65_536;

/// Why settings are refused.
#[derive(Clone, Copy, Debug, PartialEq, Eq)]
pub enum ConfigError {
    /// The name isn't 1 to 40 bytes of `[A-Za-z0-9.-]`.
    BadName = 17,
    /// The first job's number is 0.
    BadNumber = 18,
    /// There aren't 1 to 1,024 slots.
    BadSlots = 19,
    /// There aren't 1 to 65,536 functions.
    BadFunctions = 20,
}

impl ConfigError {
    ghost use Rattle.gm_notes.specs.Settings.{config_error_number};

    /// The number of this refusal.
    pub fn number(self) -> u8
        ensures { result ≡ config_error_number self }
    {
        self as u8
    }
}

/// The settings of a server: the name in job handles, the first job's number, the most
/// connections and functions that there may be at once, whether a worker's functions take turns, to how
/// many workers a job may be given, and whether requests mean what gearmand's applications mean by them.
#[derive(Debug, Drop)]
pub struct Config {
    name: Text,
    first_job: u64,
    slots: u32,
    max_functions: u32,
    round_robin: bool,
    retries: u32,
    as_gearmand: bool,
}

impl Model for Config {
    ghost use Rattle.gm_notes.specs.Settings.{Settings};

    ghost Value = { Settings };

    ghost use Rattle.gm_notes.specs.Configs.{settings_of, IsValid};

    ghost view = { settings_of };

    ghost invariant = { IsValid };
}

/// Whether each byte may be part of a name.
fn are_name_bytes(name: &[u8]) -> bool
    ensures { result ≡ list_all is_name_byte name.now }
{
    name.iter()
        .all(|b| b.is_ascii_alphanumeric() || *b == b'.' || *b == b'-')
}

/// Whether a name may be part of job handles.
fn is_name(name: &[u8]) -> bool
    ensures { result ≡ is_name name.now }
{
    !name.is_empty() && name.len() <= 40 && are_name_bytes(name)
}

impl Config {
    /// Settings with this name in job handles, this number for the first job, and at most this many connections and
    /// functions. A worker's functions don't take turns, a job may be given to any number of workers, and requests mean
    /// what this server's documents say. The first fault in the order of `ConfigError` is returned. It takes no memory.
    pub fn new(
        name: Vec<u8>,
        first_job: u64,
        slots: u32,
        max_functions: u32,
    ) -> Result<Config, ConfigError>
        ensures { let asked : Settings = record { name = name.items; first_job = first_job; slots = slots; max_functions = max_functions; round_robin = false; retries = 0; as_gearmand = false } in
            MatchResult result (λ config. (config ≡ asked)) (λ fault. config_fault asked ≡ Some fault) }
    {
        if !is_name(&name) {
            return Err(ConfigError::BadName);
        }
        if first_job == 0 {
            return Err(ConfigError::BadNumber);
        }
        if slots == 0 || slots > MAX_SLOTS {
            return Err(ConfigError::BadSlots);
        }
        if max_functions == 0 || max_functions > MAX_FUNCTIONS {
            return Err(ConfigError::BadFunctions);
        }
        Ok(Config {
            name: Text::from_vec(name),
            first_job,
            slots,
            max_functions,
            round_robin: false,
            retries: 0,
            as_gearmand: false,
        })
    }

    /// The same settings, but that a worker's functions take turns, or don't: with it a grab tries the functions
    /// that the worker added after the one of its last job, then the others in their order, and that function last.
    /// It takes no memory.
    pub fn with_round_robin(self, on: bool) -> Config
        ensures { result ≡ record self { round_robin = on } }
    {
        Config {
            name: self.name,
            first_job: self.first_job,
            slots: self.slots,
            max_functions: self.max_functions,
            round_robin: on,
            retries: self.retries,
            as_gearmand: self.as_gearmand,
        }
    }

    /// The same settings, but that a job may be given to `r` workers at most; 0 is no limit. When the last of them
    /// disconnects before it has finished, the job isn't given out again and fails with the next tick. It takes no
    /// memory.
    pub fn with_retries(self, r: u32) -> Config
        ensures { result ≡ record self { retries = r } }
    {
        Config {
            name: self.name,
            first_job: self.first_job,
            slots: self.slots,
            max_functions: self.max_functions,
            round_robin: self.round_robin,
            retries: r,
            as_gearmand: self.as_gearmand,
        }
    }

    /// The same settings, but that requests mean what gearmand's applications mean by them, or what this server's
    /// documents say. It takes no memory.
    pub fn with_as_gearmand(self, on: bool) -> Config
        ensures { result ≡ record self { as_gearmand = on } }
    {
        Config {
            name: self.name,
            first_job: self.first_job,
            slots: self.slots,
            max_functions: self.max_functions,
            round_robin: self.round_robin,
            retries: self.retries,
            as_gearmand: on,
        }
    }

    /// Whether requests mean what gearmand's applications mean by them.
    pub fn as_gearmand(&self) -> bool
        ensures { result ≡ self.now.as_gearmand }
    {
        self.as_gearmand
    }

    /// Whether a worker's functions take turns.
    pub fn round_robin(&self) -> bool
        ensures { result ≡ self.now.round_robin }
    {
        self.round_robin
    }

    /// To how many workers a job may be given; 0 is no limit.
    pub fn retries(&self) -> u32
        ensures { result ≡ self.now.retries }
    {
        self.retries
    }

    /// The name in job handles.
    pub fn name(&self) -> &[u8]
        ensures value { result.now ≡ self.now.name }
        ensures plain { has_nul result.now ≡ false }
        ensures short { length result.now ≤ 40 }
    {
        self.name.as_slice()
    }

    /// The number of the first job.
    pub fn first_job(&self) -> u64
        ensures { result ≡ self.now.first_job }
    {
        self.first_job
    }

    /// The most connections that there may be at once.
    pub fn slots(&self) -> u32
        ensures value { result ≡ self.now.slots }
        ensures bound { result ≤ 1024 }
    {
        self.slots
    }

    /// The most functions that there may be.
    pub fn max_functions(&self) -> u32
        ensures value { result ≡ self.now.max_functions }
        ensures bound { result ≤ 65536 }
    {
        self.max_functions
    }
}
