//! The requests of packets, as actions of a server.

ghost use Rattle.std.specs.Prelude.{◌≡◌, ◌&&◌, ◌||◌, None, IsTrue};
ghost use Rattle.std.specs.Option.{ForSome};
ghost use Rattle.gm_packet.specs.Answers.{answer_of};
ghost use Rattle.gm_actions.specs.Bodies.{EndsWith};

use gm_bytes::Data;
use gm_notes::{Config, Priority};
use gm_packet::Response;

/// A job as submitted.
#[derive(Clone, Copy)]
pub struct Submission<'a> {
    /// The function.
    pub function: &'a [u8],
    /// The unique id.
    pub unique: &'a [u8],
    /// The body.
    pub body: Data<'a>,
    /// The priority.
    pub priority: Priority,
    /// Whether nobody listens to the job.
    pub background: bool,
}

/// How far a job is.
#[derive(Clone, Copy)]
pub struct Report<'a> {
    /// The work that is done.
    pub numerator: &'a [u8],
    /// The whole work.
    pub denominator: &'a [u8],
}

/// A WORK packet of a worker: the handle of its job, the packet that is passed on, whether only to listeners with the
/// exceptions option, how far the job is, if it says so, and whether the job ends with it whatever the settings are.
#[derive(Clone, Copy)]
pub struct WorkPacket<'a> {
    /// The handle of the job.
    pub handle: &'a [u8],
    /// The packet that is passed on.
    pub response: Response<'a>,
    /// Its last argument, if that is a body.
    pub body: Option<Data<'a>>,
    ghost body_ends: { ForSome body (λ body. EndsWith body.bytes.now (answer_of response)) },
    /// Whether it goes only to listeners with the exceptions option.
    pub exceptions_only: bool,
    /// How far the job is, if that is said; all listeners get it.
    pub report: Option<Report<'a>>,
    ghost told_to_all: { IsTrue exceptions_only → report ≡ None },
    /// Whether the job ends, whatever the settings are.
    pub ends: bool,
}

impl WorkPacket<'_> {
    /// Whether the job ends: an exception ends it if requests mean what gearmand's applications mean by them.
    pub fn ends_job(&self, config: &Config) -> bool
        ensures { result ≡ (self.now.ends || (self.now.exceptions_only && config.now.as_gearmand)) }
    {
        self.ends || (self.exceptions_only && config.as_gearmand())
    }
}

/// An action that a packet asks of a server.
#[derive(Clone, Copy)]
pub enum Action<'a> {
    /// The worker can do a function, with this many seconds for each job; 0 is no limit.
    CanDo { function: &'a [u8], timeout: u32 },
    /// The worker can't do a function any longer.
    CantDo { function: &'a [u8] },
    /// The worker can do nothing any longer.
    ResetAbilities,
    /// The worker wants to sleep.
    PreSleep,
    /// The worker asks for a job.
    Grab { with_unique: bool },
    /// A job is submitted.
    Submit(Submission<'a>),
    /// The worker sends a WORK packet on its job.
    Work(WorkPacket<'a>),
    /// The client asks how far a job is.
    GetStatus { handle: &'a [u8] },
    /// The bytes are wanted back.
    Echo { body: Data<'a> },
    /// The connection names itself.
    SetClientId { id: &'a [u8] },
    /// The connection sets an option.
    SetOption { name: &'a [u8] },
    /// ALL_YOURS, which asks nothing of this server.
    Nothing,
}
