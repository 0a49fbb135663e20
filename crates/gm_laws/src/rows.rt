//! Worked rows: what the definitions give for whole runs of steps. Each clause here is a row, of what is queued,
//! refused, answered or owed; the functions do nothing. They test the definitions.

ghost use Rattle.gm_laws.specs.JobRows.{ExceptionsOption, ExceptionEnds, DataWithNul, QueueLimit, LimitCounts, FunctionLimit, LastNumber};
ghost use Rattle.gm_laws.specs.JobRows.{JoiningKeys, JoinsRunning, EndedJobs, OnlyItsWorker, Progress, ReportKept};
ghost use Rattle.gm_laws.specs.JobRows.{Priorities, SixPriorities, SixKeepings, SixHearings, JoinedListeners, JoinedJob};
ghost use Rattle.gm_laws.specs.JobRows.{RefusalOrder, FunctionNames, Handles, Places};
ghost use Rattle.gm_laws.specs.WorkerRows.{AbilityOrder, PriorityFirst, RoundRobin, RoundRobinAnew, OnlyItsFunctions, QueueOrder, OneWake};
ghost use Rattle.gm_laws.specs.WorkerRows.{GrabStirs, StaleNoop, StillOwed, WithdrawnNoop, TakenNoop, Deadline, NoDeadline};
ghost use Rattle.gm_laws.specs.WorkerRows.{OneWakeThen, AllWake, OnlyAbleWake, WorkBeforeSleep, WorkBeforeAbility};
ghost use Rattle.gm_laws.specs.WorkerRows.{OnlyItsWork, WorkBeforeGrab};
ghost use Rattle.gm_laws.specs.WorkerRows.{TimeLimits, TimeStands, EdgesOfTime, ExpiredTogether, DeadlineForgotten};
ghost use Rattle.gm_laws.specs.ConnectionRows.{JobRetries, LostJob, WokenByReturn};
ghost use Rattle.gm_laws.specs.ConnectionRows.{LeastSlot, MadeJobs, SlotsSpent, ClosedSlots, NothingInherited};
ghost use Rattle.gm_laws.specs.ConnectionRows.{NotItself, OrphanedJob, KeptJob, OnlyUnwanted, RunsOn, OnlyItsJobs};
ghost use Rattle.gm_laws.specs.ConnectionRows.{OptionNotInherited, SleepNotInherited, ShutNotInherited, ListenerNotInherited};
ghost use Rattle.gm_laws.specs.ConnectionRows.{WorkNotInherited, BytesWait, BytesSent, TwoSlots, ReturnedJob};
ghost use Rattle.gm_laws.specs.LineRows.{LimitLines, ShutdownLines, Shutdowns, ShutDown, SettingsInRange, Modes, ShutSlots};
ghost use Rattle.gm_laws.specs.LineRows.{PlainAnswers, TrailingNul, Faults, WorkersText, OpenConnections, StatusText, AdminLines};
ghost use Rattle.gm_laws.specs.LineRows.{RefusalNumbers};

/// Of jobs.
pub fn jobs()
    // High priority goes before normal, and normal before low.
    ensures priorities { Priorities }
    // In the background too, high goes before normal before low.
    ensures six_priorities { SixPriorities }
    // Only background jobs stay when their client disconnects, at each priority.
    ensures six_keepings { SixKeepings }
    // At each priority a foreground client gets the outcome, a background client doesn't.
    ensures six_hearings { SixHearings }
    // A client that submits a job twice gets its answers twice.
    ensures joined_listeners { JoinedListeners }
    // Joining keeps the job as made; only a foreground submission adds a listener.
    ensures joined_job { JoinedJob }
    // The id `-`, an empty id, and another function join nothing.
    ensures joining_keys { JoiningKeys }
    // A running job can be joined, which wakes no worker.
    ensures joins_running { JoinsRunning }
    // WORK_COMPLETE and WORK_FAIL end a job once; then it is unknown, and can't be joined.
    ensures ended_jobs { EndedJobs }
    // Reports by another worker, on a waiting job, or with a handle never printed are refused.
    ensures only_its_worker { OnlyItsWorker }
    // A worker's reports go to the listeners, and GET_STATUS has the last numbers.
    ensures progress { Progress }
    // A job's last WORK_STATUS numbers stay while it waits again.
    ensures report_kept { ReportKept }
    // Exceptions go to the listeners with that option, and end no job.
    ensures exceptions_option { ExceptionsOption }
    // With `--as-gearmand` an exception ends its job: the listeners with that option get it, and the others WORK_FAIL.
    ensures exception_ends { ExceptionEnds }
    // A body may hold NUL.
    ensures data_with_nul { DataWithNul }
    // `maxqueue` refuses new jobs and lets submissions join.
    ensures queue_limit { QueueLimit }
    // `maxqueue` counts a function's jobs that wait or run; the last limit holds.
    ensures limit_counts { LimitCounts }
    // Functions over the limit are refused, and bad names before that.
    ensures function_limit { FunctionLimit }
    // After the last job number a submission can only join.
    ensures last_number { LastNumber }
    // A submission is refused for its function's name, then the number of functions, the limit, and job numbers.
    ensures refusal_order { RefusalOrder }
    // A function's name has 1 to 512 bytes.
    ensures function_names { FunctionNames }
    // A handle has the server's name and the job's number.
    ensures handles { Handles }
    // Where a job is, from its making to its end.
    ensures places { Places }
{}

/// Of workers: what they can do, the jobs that they get, how they sleep, and time limits.
pub fn workers()
    // A grab tries functions in the order in which they were added; adding one again doesn't move it.
    ensures ability_order { AbilityOrder }
    // With `--round-robin` a worker's functions take turns.
    ensures round_robin { RoundRobin }
    // With `--as-gearmand` high priority goes before normal, and normal before low, whatever the functions are.
    ensures priority_first { PriorityFirst }
    // A new connection begins with its first function, whatever its slot did before.
    ensures round_robin_anew { RoundRobinAnew }
    // A grab gets only jobs of functions that the worker can do now.
    ensures only_its_functions { OnlyItsFunctions }
    // Jobs of one function and priority are given out in the order in which they came.
    ensures queue_order { QueueOrder }
    // A worker is woken once.
    ensures one_wake { OneWake }
    // A worker that was woken isn't woken again while it is awake.
    ensures one_wake_then { OneWakeThen }
    // Every sleeping worker that can do the function is woken.
    ensures all_wake { AllWake }
    // A worker that can no longer do the function isn't woken; a submitter that can is.
    ensures only_able_wake { OnlyAbleWake }
    // A worker that goes to sleep while a job waits that it can do is woken at once.
    ensures work_before_sleep { WorkBeforeSleep }
    // A sleeping worker that adds a function with a waiting job is woken.
    ensures work_before_ability { WorkBeforeAbility }
    // A new ability wakes only a sleeping worker, and only if a job waits for it.
    ensures only_its_work { OnlyItsWork }
    // A grab by a worker that is owed a NOOP leaves it owed.
    ensures work_before_grab { WorkBeforeGrab }
    // A sleeping worker that grabs is awake, and the next job doesn't wake it.
    ensures grab_stirs { GrabStirs }
    // A worker whose job another took sleeps again, and the next job wakes it.
    ensures stale_noop { StaleNoop }
    // An owed NOOP stays owed, even if no job waits any more and the worker goes to sleep again.
    ensures still_owed { StillOwed }
    // After its NOOP is withdrawn a worker is awake and owed none, until it goes to sleep while a job waits.
    ensures withdrawn_noop { WithdrawnNoop }
    // A NOOP is taken once; no sleeping worker is owed one, and no slot that isn't open.
    ensures taken_noop { TakenNoop }
    // A job fails in the tick that reaches its deadline, and its worker gets nothing.
    ensures deadline { Deadline }
    // A job without a time limit outlives every tick.
    ensures no_deadline { NoDeadline }
    // Each function has its own time limit, the last one set; CAN_DO removes it.
    ensures time_limits { TimeLimits }
    // The clock never goes back.
    ensures time_stands { TimeStands }
    // The clock begins at 0; a deadline is below 2^64, and the tick that reaches it fails the job.
    ensures edges_of_time { EdgesOfTime }
    // A tick fails every job whose deadline is reached, in number order, and each listener gets WORK_FAIL.
    ensures expired_together { ExpiredTogether }
    // A job that waits again has no deadline, and its next worker doesn't inherit one.
    ensures deadline_forgotten { DeadlineForgotten }
{}

/// Of connections that come and go, and of their jobs.
pub fn connections()
    // An opening gets the least slot that isn't open.
    ensures least_slot { LeastSlot }
    // A submission's receipt names the job that it made, if it made one.
    ensures made_jobs { MadeJobs }
    // When every slot is open, another opening is refused.
    ensures slots_spent { SlotsSpent }
    // Steps at a slot that isn't open are refused, but for drains; ticks are taken.
    ensures closed_slots { ClosedSlots }
    // A slot's next connection has its own address, no id and no functions.
    ensures nothing_inherited { NothingInherited }
    // A slot's next connection doesn't have the exceptions option.
    ensures option_not_inherited { OptionNotInherited }
    // A slot's next connection is awake and owed no NOOP.
    ensures sleep_not_inherited { SleepNotInherited }
    // A slot's next connection isn't shut.
    ensures shut_not_inherited { ShutNotInherited }
    // A slot's next connection gets no results of the last one's jobs.
    ensures listener_not_inherited { ListenerNotInherited }
    // A slot's next connection doesn't run the last one's jobs, or get its bytes.
    ensures work_not_inherited { WorkNotInherited }
    // The waiting bytes are those that were queued since the last drain; a closing drops them.
    ensures bytes_wait { BytesWait }
    // The bytes sent to a connection are all that were queued since its opening, drained or not.
    ensures bytes_sent { BytesSent }
    // A job that only the closed connection wanted is gone.
    ensures two_slots { TwoSlots }
    // A job whose worker disconnects waits again, after the others.
    ensures returned_job { ReturnedJob }
    // A job whose last allowed worker disconnects fails in the next tick.
    ensures job_retries { JobRetries }
    // A lost job can be joined, stays when a listener leaves, and fails in the next tick.
    ensures lost_job { LostJob }
    // A disconnected worker's jobs wait again, and wake only sleeping workers that can do them.
    ensures woken_by_return { WokenByReturn }
    // A worker that disconnects isn't woken for its own job, nor is its slot's next connection.
    ensures not_itself { NotItself }
    // A job that nobody wants is discarded.
    ensures orphaned_job { OrphanedJob }
    // A background submission keeps the job that it joins.
    ensures kept_job { KeptJob }
    // A closing discards exactly the waiting jobs that are unwanted after it.
    ensures only_unwanted { OnlyUnwanted }
    // Without listeners a running job goes on, and is discarded when its worker disconnects too.
    ensures runs_on { RunsOn }
    // Only the disconnected worker's jobs stop running; a kept one waits again, before lower priorities.
    ensures only_its_jobs { OnlyItsJobs }
{}

/// Of text lines, shutdowns and settings.
pub fn lines()
    // Requests without a job: an echo, nothing, an unknown type, malformed data.
    ensures plain_answers { PlainAnswers }
    // One NUL at the end is dropped, and a second is refused.
    ensures trailing_nul { TrailingNul }
    // A fault is answered, and shuts its connection, which stays open.
    ensures faults { Faults }
    // The answer to `workers`; adding a function again doesn't move it.
    ensures workers_text { WorkersText }
    // `workers` lists the open connections by slot, shut ones too.
    ensures open_connections { OpenConnections }
    // `status` lists functions in order of mention, with jobs, running jobs and workers.
    ensures status_text { StatusText }
    // Invalid lines get an ERR line each.
    ensures admin_lines { AdminLines }
    // `maxqueue` takes names of up to 512 bytes without NUL; a negative size is no limit.
    ensures limit_lines { LimitLines }
    // `shutdown` and `shutdown graceful` are answered; connections go on after a graceful one.
    ensures shutdown_lines { ShutdownLines }
    // After `shutdown graceful` no connection is accepted, and open ones go on.
    ensures shutdowns { Shutdowns }
    // After `shutdown` no slot takes units, and closings are taken.
    ensures shut_down { ShutDown }
    // The mode is Running, Graceful or Stopped; a refused line doesn't change it.
    ensures modes { Modes }
    // A slot is shut after a fault or `shutdown`, until it is closed.
    ensures shut_slots { ShutSlots }
    // The numbers of refusals and of faults.
    ensures refusal_numbers { RefusalNumbers }
    // Valid settings: names of 1 to 40 letters, digits, dots and hyphens; first numbers from 1; 1 to 1,024 slots; 1 to
    // 65,536 functions.
    ensures settings_in_range { SettingsInRange }
{}
