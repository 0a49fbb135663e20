//! The states of jobs, connections and the server.

/// How soon a job is given out, among those of its function.
#[derive(Clone, Copy, Debug, PartialEq, Eq)]
pub enum Priority {
    High,
    Normal,
    Low,
}

/// Where a job is.
#[derive(Clone, Copy, Debug, PartialEq, Eq)]
pub enum Place {
    /// It wasn't made yet.
    Unmade,
    /// It waits for a worker.
    Waiting,
    /// It runs at this slot.
    Running(u32),
    /// The worker of its last try went: it runs at no slot, and fails with the next tick.
    Lost,
    /// It ended or was discarded.
    Gone,
}

impl Place {
    ghost use Rattle.std.specs.Prelude.{◌≡◌};
    ghost use Rattle.gm_notes.specs.Places.{is_made, is_waiting, is_running, is_running_at, is_live};

    /// Whether the job was made.
    pub fn is_made(self) -> bool
        ensures { result ≡ is_made self }
    {
        match self {
            Place::Unmade => false,
            Place::Waiting | Place::Running(_) | Place::Lost | Place::Gone => true,
        }
    }

    /// Whether the job waits for a worker.
    pub fn is_waiting(self) -> bool
        ensures { result ≡ is_waiting self }
    {
        match self {
            Place::Waiting => true,
            Place::Unmade | Place::Running(_) | Place::Lost | Place::Gone => false,
        }
    }

    /// Whether the job runs. A lost one does.
    pub fn is_running(self) -> bool
        ensures { result ≡ is_running self }
    {
        match self {
            Place::Running(_) | Place::Lost => true,
            Place::Unmade | Place::Waiting | Place::Gone => false,
        }
    }

    /// Whether the job runs at this slot.
    pub fn is_running_at(self, slot: u32) -> bool
        ensures { result ≡ is_running_at slot self }
    {
        match self {
            Place::Running(at) => slot == at,
            Place::Unmade | Place::Waiting | Place::Lost | Place::Gone => false,
        }
    }

    /// Whether the job waits or runs.
    pub fn is_live(self) -> bool
        ensures { result ≡ is_live self }
    {
        self.is_waiting() || self.is_running()
    }
}

/// Whether a worker wants to be woken.
#[derive(Clone, Copy, Debug, PartialEq, Eq)]
pub enum Phase {
    Awake,
    Asleep,
    /// A NOOP is owed to it.
    Owed,
}

impl Phase {
    ghost use Rattle.std.specs.Prelude.{◌≡◌};
    ghost use Rattle.gm_notes.specs.Notes.{is_awake, is_asleep, is_owed};

    /// Whether it wants no NOOP.
    pub fn is_awake(self) -> bool
        ensures { result ≡ is_awake self }
    {
        match self {
            Phase::Awake => true,
            Phase::Asleep | Phase::Owed => false,
        }
    }

    /// Whether it waits for a job to wake it.
    pub fn is_asleep(self) -> bool
        ensures { result ≡ is_asleep self }
    {
        match self {
            Phase::Asleep => true,
            Phase::Awake | Phase::Owed => false,
        }
    }

    /// Whether a NOOP is owed to it.
    pub fn is_owed(self) -> bool
        ensures { result ≡ is_owed self }
    {
        match self {
            Phase::Owed => true,
            Phase::Awake | Phase::Asleep => false,
        }
    }
}

/// Whether the server goes on.
#[derive(Clone, Copy, Debug, PartialEq, Eq)]
pub enum Mode {
    Running,
    /// It takes no new connections.
    Graceful,
    /// It ends.
    Stopped,
}

impl Mode {
    ghost use Rattle.std.specs.Prelude.{◌≡◌};
    ghost use Rattle.gm_notes.specs.Notes.{accepts_connections};

    /// Whether new connections are taken.
    pub fn accepts_connections(self) -> bool
        ensures { result ≡ accepts_connections self }
    {
        match self {
            Mode::Running => true,
            Mode::Graceful | Mode::Stopped => false,
        }
    }
}

/// A job that is to be given out.
#[derive(Clone, Copy, Debug, PartialEq, Eq)]
pub struct Pick {
    pub job: u64,
    /// How many seconds it may run; 0 is no limit.
    pub timeout: u32,
}
