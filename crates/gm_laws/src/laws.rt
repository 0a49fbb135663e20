//! Laws of all steps, under any settings. Each function here is a law: its contract states it, and its body is
//! empty.

ghost use Rattle.gm_notes.specs.Jobs.{made};
ghost use Rattle.gm_history.specs.Laws.{AfterAnySteps, InEachStep};
ghost use Rattle.gm_laws.specs.Abilities.{AbilitiesAreAsAsked};
ghost use Rattle.gm_laws.specs.Laws.{AreConsecutive, PlacedExactlyWhereMade, AreOne, StayGone};
ghost use Rattle.gm_laws.specs.Laws.{EndsWithItsWorker, WorkersAndClocksEndJobs, GivesThePick};
ghost use Rattle.gm_laws.specs.Laws.{GrabsGetThePick, SaysNoJobWhereNoneIs, OnlyDrainsTake, ModesNeverGoBack, MayBeTakenLater};
ghost use Rattle.gm_laws.specs.Listeners.{WhatWorkersSayIsPassedOn, ExceptionsEndJobs, EachListenerIsTold, OnlyEndsAreTold};
ghost use Rattle.gm_laws.specs.Listeners.{NobodyIsToldTwice, WhoStaysIsTold, AnswersStayHome};
ghost use Rattle.gm_laws.specs.Limits.{LimitsHold};
ghost use Rattle.gm_laws.specs.Statuses.{StatusIsTrue};
ghost use Rattle.gm_laws.specs.Submitted.{SubmissionsAreAnswered, WhatIsSubmittedIsWorkedOn};
ghost use Rattle.gm_laws.specs.Turns.{TurnsAreFair, TurnsGoRound};
ghost use Rattle.gm_laws.specs.Waiting.{FirstComeFirstServed, HighGoesFirst, WakesHaveWork, NoJobMeansNoWork};
ghost use Rattle.gm_laws.specs.Retries.{NoJobIsHandedOutMoreOften, NoJobIsLostTwice};
ghost use Rattle.gm_laws.specs.Retries.{OnlyTheLastTryLoses, LostJobsEndWithTheNextTick};
ghost use Rattle.gm_laws.specs.Between.{ListenersAreOpen, RunnersAreOpen, NoWaitingJobIsOrphaned, NoOneSleepsBesideWork};
ghost use Rattle.gm_laws.specs.Answered.{TicksAreTaken, ShutdownIsAnswered};
ghost use Rattle.gm_laws.specs.Exceptions.{ExceptionsArePassedOn};
ghost use Rattle.gm_laws.specs.Sleeping.{SleepersAskedForIt, AskingIsEnough};
ghost use Rattle.gm_laws.specs.Firsts.{FirstAbilityWins};
ghost use Rattle.gm_laws.specs.Closing.{ClosingCloses};
ghost use Rattle.gm_laws.specs.Refusals.{RefusalsHaveTheirReason};
ghost use Rattle.gm_laws.specs.Lines.{AdminTellsTheTruth, ConnectionsAreNamed};
ghost use Rattle.gm_laws.specs.Submitted.{OneAssignmentOneJob};
ghost use Rattle.gm_laws.specs.Barred.{OnlyTheBarredIsRefused};
ghost use Rattle.gm_laws.specs.Done.{AnswersNameWhatIsNew};
ghost use Rattle.gm_laws.specs.Spelled.{AnswersAreSpelled, LinesAreSpelled};
ghost use Rattle.gm_laws.specs.Words.{WordsMean};
ghost use Rattle.gm_laws.specs.Shut.{WhoIsntShutIsHeard, ShutHasItsReason, LinesAloneChangeTheMode};
ghost use Rattle.gm_laws.specs.Keeping.{HearingAndKeepingStay};
ghost use Rattle.gm_laws.specs.Withdrawing.{WithdrawnForAReason};
ghost use Rattle.gm_laws.specs.Answering.{ServersAnswerAlike};
ghost use Rattle.gm_laws.specs.Named.{FunctionsAreWhatWasNamed};
ghost use Rattle.gm_laws.specs.Reading.{WhatIsSpelledIsRead};
ghost use Rattle.gm_laws.specs.Fitting.{SettingsAreChecked};

/// The numbers made are the first and its successors, each once, none above 18446744073709551615.
pub fn numbers_are_consecutive()
    ensures { AfterAnySteps (λ k notes. AreConsecutive k (made notes)) }
{}

/// A job that was made is in exactly one of four places: it waits, runs, has ended or was discarded. A lost job runs until
/// the next tick. Any other job is in none of them.
pub fn placed_exactly_where_made()
    ensures { AfterAnySteps PlacedExactlyWhereMade }
{}

/// Live jobs of one function with one unique id that joins are one job.
pub fn one_live_job()
    ensures { AfterAnySteps AreOne }
{}

/// A job that has ended or was discarded stays so, whatever comes.
pub fn gone_stays_gone()
    ensures { StayGone }
{}

/// A drain takes all the bytes that wait for its slot. Nothing else takes of them, but for the slot's closing.
pub fn only_drains_take()
    ensures { InEachStep OnlyDrainsTake }
{}

/// Each job is what one of the steps submitted: its function, priority, unique id and body are those of the packet,
/// whose slot was answered with the job's handle. In the step that gives a slot the job, the slot is told just this,
/// and nobody is told anything else.
pub fn what_is_submitted_is_worked_on()
    ensures { WhatIsSubmittedIsWorkedOn }
{}

/// Each submission of a slot that takes units gets one answer, and nobody else gets any. It is JOB_CREATED of a job
/// that waits or runs: one that the submission joins, or a new one, just as submitted, if there is none to join. It is
/// kept, or the slot listens to it once more. Or the answer is an ERROR that says why, and nothing happened.
pub fn submissions_are_answered()
    ensures { InEachStep SubmissionsAreAnswered }
{}

/// A job ends only with WORK_COMPLETE or WORK_FAIL with its handle, of the slot where it runs, or in a tick that
/// reaches its deadline. Any tick reaches that of a lost job. With `as_gearmand` WORK_EXCEPTION with its handle, of the
/// slot where it runs, ends it as well.
pub fn ends_with_its_worker()
    ensures { InEachStep EndsWithItsWorker }
{}

/// WORK_COMPLETE and WORK_FAIL with a job's handle, of the slot where it runs, end the job, unless the slot is shut; so
/// does a tick that reaches its deadline. With `as_gearmand` such a WORK_EXCEPTION ends the job as well. While a job
/// runs at a slot, its deadline stays as it is.
pub fn workers_and_clocks_end_jobs()
    ensures { InEachStep WorkersAndClocksEndJobs }
{}

/// In the step that ends a job, each slot gets its end exactly as often as it listened to the job before that step: the
/// WORK_COMPLETE or WORK_FAIL of its worker, with the job's handle, or WORK_FAIL if a tick ends it, since its
/// deadline is reached or its last worker disconnected. With `as_gearmand` the job can end with its worker's
/// WORK_EXCEPTION as well: its end is then the WORK_EXCEPTION for a slot that gets exceptions, and WORK_FAIL for any
/// other.
pub fn each_listener_is_told()
    ensures { InEachStep EachListenerIsTold }
{}

/// WORK_COMPLETE and WORK_FAIL are queued to a slot only to report a job's end, in the step that ends the job, and only
/// if the slot listens to it. With `as_gearmand` this holds of WORK_EXCEPTION as well.
pub fn only_ends_are_told()
    ensures { InEachStep OnlyEndsAreTold }
{}

/// No two steps tell a slot of the end of one job.
pub fn nobody_is_told_twice()
    ensures { NobodyIsToldTwice }
{}

/// A client that submits a job in the foreground is told its handle; as long as it isn't closed, that job waits or
/// runs, or one of the steps since told the client of its end.
pub fn who_stays_is_told()
    ensures { WhoStaysIsTold }
{}

/// A worker's report on the job that it runs is passed on, with the job's handle, exactly as often to each slot as that
/// listens to the job, in the order in which slots came to listen, and nothing else is queued. WORK_EXCEPTION goes only
/// to slots with the exceptions option. With `as_gearmand` the others get WORK_FAIL instead after them, as often as
/// they listen and in the same order.
pub fn what_workers_say_is_passed_on()
    ensures { WhatWorkersSayIsPassedOn }
{}

/// With `as_gearmand`, WORK_EXCEPTION with a job's handle, of the slot where it runs, ends the job, unless the slot is
/// shut. Each slot gets WORK_EXCEPTION if it has the exceptions option, and WORK_FAIL otherwise, exactly as often as it
/// listened to the job before that step, and nothing else is queued.
pub fn exceptions_end_jobs()
    ensures { InEachStep ExceptionsEndJobs }
{}

/// A slot's request is answered to that slot only. Others get only what the worker of a job reports of it, if they
/// listen to the job, and WORK_FAIL in the tick that ends a job to which they listen. With `as_gearmand` a listener
/// without the exceptions option gets WORK_FAIL if the worker reports WORK_EXCEPTION. Openings, closings, takings,
/// withdrawals and drains queue nothing.
pub fn answers_stay_home()
    ensures { InEachStep AnswersStayHome }
{}

/// A job comes to run at a slot only if the slot grabs, and the job is its pick.
pub fn gives_the_pick()
    ensures { InEachStep GivesThePick }
{}

/// The job that a slot is given goes before each other of its function that waits: its priority is higher, or the same
/// and it came to wait earlier. While a job waits, no other gets in before it.
pub fn first_come_first_served()
    ensures { InEachStep FirstComeFirstServed }
{}

/// With `as_gearmand` a job of high priority goes before all of normal priority, and those go before all of low
/// priority, whatever their functions are: when a slot is given a job, no job of a higher priority waits that the slot
/// can do.
pub fn high_goes_first()
    ensures { InEachStep HighGoesFirst }
{}

/// A grab of a slot that takes units gets its pick: the job runs there.
pub fn grabs_get_the_pick()
    ensures { GrabsGetThePick }
{}

/// After CAN_DO or CAN_DO_TIMEOUT a slot can do the function, within these seconds, and after CANT_DO or
/// RESET_ABILITIES it can't, unless it is shut, or there is a reason to refuse it and it is answered with that ERROR.
/// An ability comes only so, and stays until one of these requests changes it or the slot closes.
pub fn abilities_are_as_asked()
    ensures { InEachStep AbilitiesAreAsAsked }
{}

/// A grab of a slot that takes units is answered with NO_JOB exactly if no job waits that the slot can do. Otherwise
/// such a job comes to run there, and fails after the seconds that the slot's ability for its function has, if it has
/// some.
pub fn no_job_means_no_work()
    ensures { NoJobMeansNoWork }
{}

/// With round-robin on, the functions of a worker take turns: between two grabs that give it jobs of one function it is
/// given a job of each other of its functions, if one waits each time that it is given a job, and if its abilities stay
/// as they are. When jobs of both wait all the time, it is given just one of the other in between: two would have one
/// of the first between them, by the same law. With `as_gearmand` this need not be so, since a job of a higher priority
/// goes before the turn of a function.
pub fn turns_are_fair()
    ensures { TurnsAreFair }
{}

/// With a limit on retries, no job is handed out more often than it says.
pub fn no_job_is_handed_out_more_often()
    ensures { AfterAnySteps NoJobIsHandedOutMoreOften }
{}

/// A job is lost only if there is a limit and its worker went: it had been handed out as often as the limit says,
/// it had come back each time before, and was wanted.
pub fn only_the_last_try_loses()
    ensures { AfterAnySteps OnlyTheLastTryLoses }
{}

/// A job is lost once at most, and without a limit on retries never.
pub fn no_job_is_lost_twice()
    ensures { AfterAnySteps NoJobIsLostTwice }
{}

/// A lost job ends with the next tick, and stays lost until then, whatever comes.
pub fn lost_jobs_end_with_the_next_tick()
    ensures { InEachStep LostJobsEndWithTheNextTick }
{}

/// NO_JOB is queued only for a grab, and only if there is no pick.
pub fn says_no_job_where_none_is()
    ensures { InEachStep SaysNoJobWhereNoneIs }
{}

/// GET_STATUS of a slot that takes units is answered with whether the job that the handle names waits or runs, whether
/// it runs, and the numbers of the last WORK_STATUS with its handle of the slot where it ran; or with zeros, if the
/// handle names none.
pub fn status_is_true()
    ensures { StatusIsTrue }
{}

/// A slot that listens to a job is open.
pub fn listeners_are_open()
    ensures { AfterAnySteps ListenersAreOpen }
{}

/// The slot where a job runs is open.
pub fn runners_are_open()
    ensures { AfterAnySteps RunnersAreOpen }
{}

/// Each waiting job is wanted: a background submission keeps it, or a slot listens to it.
pub fn no_waiting_job_is_orphaned()
    ensures { AfterAnySteps NoWaitingJobIsOrphaned }
{}

/// A worker that sleeps can do none of the jobs that wait.
pub fn no_one_sleeps_beside_work()
    ensures { AfterAnySteps NoOneSleepsBesideWork }
{}

/// The server is running, then perhaps graceful, then perhaps stopped, and never goes back: `shutdown graceful` changes
/// only a running one, and `shutdown` stops it. Only a running one opens connections, and it does if a slot is free. A
/// fault shuts its slot, a shut slot stays shut until it closes, and once the server is stopped each open slot is shut.
pub fn modes_never_go_back()
    ensures { InEachStep ModesNeverGoBack }
{}

/// A step that leaves a function with more jobs that wait or run leaves it with no more than its limit, if it has one.
/// Only `maxqueue` with the function's name changes that, to what it says, or there is a reason to refuse it and it is
/// answered with that `ERR` line. There are never more functions than the settings say, and each job and each ability
/// is for one of them.
pub fn limits_hold()
    ensures { InEachStep LimitsHold }
{}

/// A NOOP becomes owed to a slot only in a step after which a job waits that the slot can do.
pub fn wakes_have_work()
    ensures { InEachStep WakesHaveWork }
{}

/// A NOOP that can be taken can as well be taken later, after steps that are no PRE_SLEEP and no closing of its slot,
/// and no taking and no withdrawal of it. Each of these steps, and whatever comes after them and the taking, is refused
/// alike, answers the same, adds the same notes and leaves the same flow of bytes either way; and afterwards the same
/// NOOPs are owed, the same slots are shut, the same bytes wait, and each job is in the same place.
pub fn may_be_taken_later()
    ensures { MayBeTakenLater }
{}

/// A slot sleeps, or is owed a NOOP, only after PRE_SLEEP. Its grab ends its sleep, and when its NOOP is taken or
/// withdrawn it is awake.
pub fn sleepers_asked_for_it()
    ensures { InEachStep SleepersAskedForIt }
{}

/// After PRE_SLEEP a slot that takes units sleeps, or is owed a NOOP, until it grabs or closes or its NOOP is taken or
/// withdrawn. No worker sleeps while a job waits that it can do, so it is owed a NOOP as soon as one does.
pub fn asking_is_enough()
    ensures { InEachStep AskingIsEnough }
{}

/// OPTION_REQ for `exceptions` of a slot that takes units is answered with OPTION_RES with the same word. From then on
/// until it closes, and not otherwise, the slot gets the exceptions of the jobs to which it listens.
pub fn exceptions_are_passed_on()
    ensures { InEachStep ExceptionsArePassedOn }
{}

/// A tick is never refused. It brings the server to the moment that it says, unless that has passed already, and
/// nothing else changes the moment.
pub fn ticks_are_taken()
    ensures { InEachStep TicksAreTaken }
{}

/// `shutdown` and `shutdown graceful` of a slot that takes units are answered with OK, and nothing else is queued.
pub fn shutdown_is_answered()
    ensures { InEachStep ShutdownIsAnswered }
{}

/// Without round-robin the job that a slot is given is of the first of its functions for which a job waits. With
/// `as_gearmand` it is of the first for which a job of its own priority waits. The functions of a slot keep their
/// order: one that it could not do before comes last.
pub fn first_ability_wins()
    ensures { InEachStep FirstAbilityWins }
{}

/// The closing of an open slot is taken, and nothing else closes a slot. The slot is free then, and listens to no job.
/// The jobs that ran there wait again or are lost, and those that waited go on waiting, as far as they are wanted;
/// those that nobody wants are discarded. Jobs that run at other slots go on.
pub fn closing_closes()
    ensures { InEachStep ClosingCloses }
{}

/// A request or a text line of a slot that takes units is refused, with the code of the first reason that there is, and
/// nothing happens; a fault is answered with what it is. A request for whose refusal there is no reason gets no ERROR,
/// and nobody gets any packet but those of its kind. With `as_gearmand` WORK_FAIL may be passed on for WORK_EXCEPTION
/// as well. `Refusals` has the reasons: a bad name, one function too many, a full queue, no number left, no such job,
/// another option than `exceptions`, and data or words that say nothing.
pub fn refusals_have_their_reason()
    ensures { InEachStep RefusalsHaveTheirReason }
{}

/// `status` of a slot that takes units is answered with a row for each function, in the order in which they were first
/// named, with how many of its jobs wait or run, how many run, and how many open slots can do it. `workers` is answered
/// with a row for each open slot, in their order, with the address, the id and the functions of its connection.
/// `version` is answered with the version, and ECHO_REQ with the same bytes. Nothing else happens.
pub fn admin_tells_the_truth()
    ensures { InEachStep AdminTellsTheTruth }
{}

/// A connection gets the least slot that is free. It has the address from which it was opened, at first no id and no
/// functions, and from SET_CLIENT_ID on the id that this says. The functions of the server keep their order, and new
/// ones come last.
pub fn connections_are_named()
    ensures { InEachStep ConnectionsAreNamed }
{}

/// JOB_ASSIGN and JOB_ASSIGN_UNIQ are queued to a slot only in the step that gives it a job that waited, and say what
/// that job is. Nothing else is queued to it then.
pub fn one_assignment_one_job()
    ensures { InEachStep OneAssignmentOneJob }
{}

/// A step is refused exactly if something bars it, and then it changes nothing: an opening, if the server is going down
/// or no slot is free; a packet, a line or a fault, if the slot takes no units; a closing, if the slot is not open; the
/// taking or the withdrawal of a NOOP, if none is owed. Nothing bars a tick or a drain.
pub fn only_the_barred_is_refused()
    ensures { InEachStep OnlyTheBarredIsRefused }
{}

/// The answer of a step that is taken names the slot that the step opens, if it opens one, and the job that it makes,
/// if it makes one, and no other.
pub fn answers_name_what_is_new()
    ensures { InEachStep AnswersNameWhatIsNew }
{}

/// A packet, a line or a fault of a slot is taken exactly if the slot is open and isn't shut.
pub fn who_isnt_shut_is_heard()
    ensures { InEachStep WhoIsntShutIsHeard }
{}

/// A slot that is open and shut after a step was so before it, or the step is its fault, or a `shutdown` line that
/// isn't graceful. A slot that the step opens isn't shut.
pub fn shut_has_its_reason()
    ensures { InEachStep ShutHasItsReason }
{}

/// The mode after a step is the mode before it, or the step is the `shutdown` line that says the new one.
pub fn lines_alone_change_the_mode()
    ensures { InEachStep LinesAloneChangeTheMode }
{}

/// A job that is kept stays kept, and it becomes so only in a background submission that joins or makes this job. The
/// same slots listen to a job, in the same order. Only the closing of a slot takes this slot out, and only a foreground
/// submission that joins or makes this job adds its slot, once and after the others.
pub fn hearing_and_keeping_stay()
    ensures { InEachStep HearingAndKeepingStay }
{}

/// The meaning of words of other laws. A job is live if it waits, runs or is lost, and running if it runs or is lost;
/// it is wanted if it is kept or some slot listens to it; it joins with any unique id but an empty one and `-`.
/// Something waits for a function if a job of it waits. A function is mentioned if it is one of those that there are. A
/// slot is closing if it is open and shut, is owed a NOOP if it is open and its phase is Owed, and gets exceptions if
/// it is open and has the option. The arguments are the first, the second and the third. The bytes that were sent to a
/// slot are those that were queued to it since it was opened.
pub fn words_mean()
    ensures { WordsMean }
{}

/// An event withdraws the NOOP of its slot exactly if it is a closing, or reads as GRAB_JOB or GRAB_JOB_UNIQ at a
/// slot that isn't closing.
pub fn withdrawn_for_a_reason()
    ensures { WithdrawnForAReason }
{}

/// Each of the fifteen answers is NUL and RES, its type and its size in four bytes each, and its arguments with a NUL
/// between each two.
pub fn answers_are_spelled()
    ensures { AnswersAreSpelled }
{}

/// Each answer to a text line, byte by byte: `OK`, `OK` with the version, each `ERR` line, and the lines of `status`
/// and of `workers`, with a question mark for each byte of a name that can't be printed. A handle is `H:`, the server's
/// name, `:` and the job's number.
pub fn lines_are_spelled()
    ensures { LinesAreSpelled }
{}

/// Two answers that the contract allows to one event after the same steps are equal, or one is Memory, and the other
/// takes the step, which is no closing. Each event is the step that it says. An event that is taken adds its step,
/// and a refused one adds none.
pub fn servers_answer_alike()
    ensures { ServersAnswerAlike }
{}

/// After a step the functions are those before it, and after them the one that the step names, if it wasn't there: the
/// function of a CAN_DO or CAN_DO_TIMEOUT that its slot can do then, of a job that is new, or of a `maxqueue` that is
/// answered with `OK`.
pub fn functions_are_what_was_named()
    ensures { InEachStep FunctionsAreWhatWasNamed }
{}

/// With round-robin on, a slot is given a job of the first of its functions for which one waits, counted from the one
/// after the function of the job that it was given last since it was opened, or from the first, if it was given
/// none that it can still do. With `as_gearmand` it is the first for which a job of the same priority waits.
pub fn turns_go_round()
    ensures { TurnsGoRound }
{}

/// A packet of any type with data up to the limit is one unit, whatever follows it, one with more data is too large,
/// and one with another magic is bad. The data are read as a request exactly if they are the request's arguments,
/// with a NUL between each two, and perhaps one after a last argument that is no body. Other types are unknown, and
/// other data are bad. A line ends with `\n` or `\r\n` and is one unit, and a longer one than the limit says is too
/// long. A line is read as a command exactly if its words, with any spaces and tabs around them and in any case of
/// letters, are that command.
pub fn what_is_spelled_is_read()
    ensures { WhatIsSpelledIsRead }
{}

/// Settings have no fault exactly if their name is 1 to 40 letters, digits, dots and dashes, their first job is at
/// least 1, and they have 1 to 1,024 slots and 1 to 65,536 functions. A fault says which of these doesn't hold.
pub fn settings_are_checked()
    ensures { SettingsAreChecked }
{}
