//! The promise, out to the threads: what the one history of a server's calls says. A server ends with such a history,
//! with a tape or without; it is said for every number of connections, and however their threads interleaved. Each
//! function here is a law: its contract states it, and its body is empty.

ghost use Rattle.gm_promise.specs.Promise.{NoSlotSpeaksForAnother, SessionsAreInTheHistory, BytesAreInTheHistory};
ghost use Rattle.gm_promise.specs.Promise.{InEachEntry, WhatIsSubmittedIsWorkedOn, ClientsAreTold};
ghost use Rattle.gm_promise.specs.Promise.{JobsEndOnce, NoWorkerSleepsBesideItsWork, WaitingJobsAreWanted};
ghost use Rattle.gm_slots.specs.Connections.{ConnectionsAreServed};
ghost use Rattle.gm_laws.specs.Answered.{TicksAreTaken, ShutdownIsAnswered};
ghost use Rattle.gm_laws.specs.Barred.{OnlyTheBarredIsRefused};
ghost use Rattle.gm_laws.specs.Closing.{ClosingCloses};
ghost use Rattle.gm_laws.specs.Done.{AnswersNameWhatIsNew};
ghost use Rattle.gm_laws.specs.Exceptions.{ExceptionsArePassedOn};
ghost use Rattle.gm_laws.specs.Firsts.{FirstAbilityWins};
ghost use Rattle.gm_laws.specs.Lines.{AdminTellsTheTruth, ConnectionsAreNamed};
ghost use Rattle.gm_laws.specs.Refusals.{RefusalsHaveTheirReason};
ghost use Rattle.gm_laws.specs.Sleeping.{SleepersAskedForIt, AskingIsEnough};
ghost use Rattle.gm_laws.specs.Laws.{WorkersAndClocksEndJobs};
ghost use Rattle.gm_laws.specs.Limits.{LimitsHold};
ghost use Rattle.gm_laws.specs.Listeners.{AnswersStayHome, EachListenerIsTold};
ghost use Rattle.gm_laws.specs.Submitted.{SubmissionsAreAnswered, OneAssignmentOneJob};
ghost use Rattle.gm_laws.specs.Waiting.{FirstComeFirstServed};

/// The units, faults and closings of each slot, in their order, are those that its desk handed in; and what waited for
/// it, its pen drained. No other desk or pen has a part in it.
pub fn no_slot_speaks_for_another()
    ensures { NoSlotSpeaksForAnother }
{}

/// The events that a session handed in are in the history, in order: the units of the bytes that it read, up to a cut,
/// and perhaps the fault after them.
pub fn sessions_are_in_the_history()
    ensures { SessionsAreInTheHistory }
{}

/// The bytes that a slot's pen was given since the slot was opened, followed by those that wait still, are the bytes
/// that the abstract server sends; once the slot is closed, a prefix of them.
pub fn bytes_are_in_the_history()
    ensures { BytesAreInTheHistory }
{}

/// A connection's whole life: the units handed in are the first units of the bytes read from it, and the bytes written
/// to it are a prefix of those drained for it, each NOOP after the bytes of its drain. The drained bytes, and then
/// those that still waited when the slot was closed, are all that the abstract server sent to it. Each opening of a
/// slot but one that is still open has its own account of the bytes read. Each NOOP that the slot's pen took is after
/// the bytes of one of these drains, or lost with a connection to which not all was written. The bytes read and the
/// bytes written at one opening went through one socket.
pub fn connections_are_served()
    ensures { ConnectionsAreServed }
{}

/// A job ends once: when it has ended, it is in no other state at any later moment.
pub fn a_job_ends_once()
    ensures { JobsEndOnce }
{}

/// In the step that ends a job, each connection gets it exactly as often as it listened to the job just before.
pub fn listeners_are_told()
    ensures { InEachEntry EachListenerIsTold }
{}

/// Each submission of a slot that takes units gets one answer, and nobody else gets any: JOB_CREATED of a job that
/// waits or runs, or an ERROR, and then nothing happened.
pub fn submissions_are_answered()
    ensures { InEachEntry SubmissionsAreAnswered }
{}

/// Each job is what one of the entries submitted, and the slot that is given it is told just this.
pub fn what_is_submitted_is_worked_on()
    ensures { WhatIsSubmittedIsWorkedOn }
{}

/// The job that a slot is given goes before each other of its function that waits: its priority is higher, or the same
/// and it came to wait earlier. While a job waits, no other gets in before it.
pub fn first_come_first_served()
    ensures { InEachEntry FirstComeFirstServed }
{}

/// WORK_COMPLETE and WORK_FAIL of the slot where a job runs end it, unless the slot is shut; with `as_gearmand` so does
/// WORK_EXCEPTION. So does a tick that reaches its deadline.
pub fn workers_and_clocks_end_jobs()
    ensures { InEachEntry WorkersAndClocksEndJobs }
{}

/// A slot's request is answered to that slot only. Others get only what the worker of a job reports of it, and
/// WORK_FAIL in a tick, if they listen to the job.
pub fn answers_stay_home()
    ensures { InEachEntry AnswersStayHome }
{}

/// No entry leaves a function with more jobs than before and than its limit, if it has one. Only `maxqueue` changes a
/// limit.
pub fn limits_hold()
    ensures { InEachEntry LimitsHold }
{}

/// A client that submitted a job in the foreground and was told its handle: as long as its connection isn't closed, the
/// job waits or runs, or a later step told the client of its end.
pub fn clients_are_told()
    ensures { ClientsAreTold }
{}

/// At no moment does a worker sleep that can do a job that waits.
pub fn no_worker_sleeps_beside_its_work()
    ensures { NoWorkerSleepsBesideItsWork }
{}

/// At each moment each job that waits is wanted: a background submission keeps it, or a slot listens to it.
pub fn waiting_jobs_are_wanted()
    ensures { WaitingJobsAreWanted }
{}

/// Each entry does what its step says. A Close closes its slot, and its jobs wait again, are lost or are discarded. A
/// slot sleeps, or is owed a NOOP, exactly after a PRE_SLEEP, until it grabs, closes or the NOOP is taken or withdrawn.
/// JOB_ASSIGN is queued only when the job is given. Each ERROR and `ERR` line has its reason, and only what has a
/// reason is refused. Without `--round-robin` the first ability with a waiting job wins, with `as_gearmand` the first
/// with one of the job's priority. `status`, `workers`, `version` and ECHO_RES are true, and each connection has the
/// name that it was given. Exceptions are passed on, ticks are taken, `shutdown` is answered. The answer names what is
/// new.
pub fn each_entry_does_what_it_says()
    ensures closing { InEachEntry ClosingCloses }
    ensures asking { InEachEntry AskingIsEnough }
    ensures sleepers { InEachEntry SleepersAskedForIt }
    ensures assignments { InEachEntry OneAssignmentOneJob }
    ensures refusals { InEachEntry RefusalsHaveTheirReason }
    ensures barred { InEachEntry OnlyTheBarredIsRefused }
    ensures abilities { InEachEntry FirstAbilityWins }
    ensures admin { InEachEntry AdminTellsTheTruth }
    ensures names { InEachEntry ConnectionsAreNamed }
    ensures exceptions { InEachEntry ExceptionsArePassedOn }
    ensures ticks { InEachEntry TicksAreTaken }
    ensures shutdown { InEachEntry ShutdownIsAnswered }
    ensures answers { InEachEntry AnswersNameWhatIsNew }
{}
