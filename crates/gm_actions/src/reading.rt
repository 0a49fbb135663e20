//! Packets as they come.

ghost use Rattle.std.specs.Prelude.{◌≡◌, ◌≤◌, ℕ, true, false, ◌&&◌, ◌||◌, [], ◌∷◌, Some, None, IfOk, length};
ghost use Rattle.std.specs.Str.{bytes_eq};
ghost use Rattle.std.specs.Prelude.{codes};
ghost use Rattle.gm_packet.specs.Answers.{answer_of, work_status, work_fail};
ghost use Rattle.gm_packet.specs.Kinds.{kind_of, Opaque};
ghost use Rattle.gm_packet.specs.Packets.{has_nul};
ghost use Rattle.gm_packet.specs.Requests.{request_of, Spells};
ghost use Rattle.gm_packet.specs.Views.{asked_of};
ghost use Rattle.gm_notes.specs.Settings.{Settings};
ghost use Rattle.gm_notes.specs.Past.{Past};
ghost use Rattle.gm_notes.specs.Requests.{packet_of, set_option, submission, passing, ending};
ghost use Rattle.gm_notes.specs.Submissions.{is_bad_name, submit};
ghost use Rattle.gm_notes.specs.Workers.{can_do, cant_do};
ghost use Rattle.gm_notes.specs.Withdrawals.{is_grab, asks_a_job};
ghost use Rattle.gm_actions.specs.ReadEvents.{grabs};
ghost use Rattle.gm_actions.specs.Actions.{acted, serve, unread, work_of, option_report, needs_no_memory, NeedsNoMemory, HasGoodNames};
ghost use Rattle.gm_actions.specs.Actions.{CanBeTold, ActsWithoutMemory};
ghost use Rattle.gm_actions.specs.Carried.{HasCome, IsCarried};
ghost use Rattle.gm_actions.specs.Bodies.{IsSpelledBy, EndsWith};

use crate::actions::{Action, Report, Submission, WorkPacket};
use crate::refusal::Refusal;
use gm_bytes::Data;
use gm_notes::{Priority, is_bad_name};
use gm_packet::{Kind, Request, Response};

/// Why data that spell nothing are refused.
fn find_fault(kind: u32) -> Refusal
    ensures { result ≡ unread (kind_of kind) }
{
    match Kind::of(kind) {
        Some(_) => Refusal::BadArguments,
        None => Refusal::UnknownCommand,
    }
}

/// Whether there is an option of this name: there is one.
fn is_option(name: &[u8]) -> bool
    ensures { result ≡ bytes_eq name.now (codes "exceptions") }
{
    name == b"exceptions".as_slice()
}

/// How far a job is, as its worker says.
fn report_on<'a>(handle: &'a [u8], numerator: &'a [u8], denominator: &'a [u8]) -> WorkPacket<'a>
    ensures handle { result.handle.now ≡ handle.now }
    ensures work { (k : Settings) → work_of k result ≡ record (passing (work_status handle.now numerator.now denominator.now)) { report = Some (numerator.now, denominator.now) } }
    ensures response { answer_of result.response ≡ work_status handle.now numerator.now denominator.now }
    ensures report { option_report result.report ≡ Some (numerator.now, denominator.now) }
{
    WorkPacket {
        handle,
        response: Response::WorkStatus {
            handle,
            numerator,
            denominator,
        },
        body: None,
        exceptions_only: false,
        report: Some(Report {
            numerator,
            denominator,
        }),
        ends: false,
    }
}

/// A packet about a job, with this body: it is passed on to the job's listeners, or only to those with the exceptions
/// option, and may end the job whatever the settings are.
fn pass_on<'a>(
    handle: &'a [u8],
    response: Response<'a>,
    body: &'a [u8],
    bytes: &Data<'a>,
    exceptions_only: bool,
    ends: bool,
) -> WorkPacket<'a>
    requires spelled { Spells (Opaque 1) (handle.now ∷ body.now ∷ []) 0 bytes.now.bytes.now }
    requires ends { EndsWith body.now (answer_of response) }
    ensures handle { result.handle.now ≡ handle.now }
    ensures work { (k : Settings) → work_of k result ≡ record (passing (answer_of response.entry)) { exceptions_only = exceptions_only; ends = ends || (exceptions_only && k.as_gearmand) } }
    ensures response { answer_of result.response ≡ answer_of response.entry }
    ensures report { option_report result.report ≡ None }
{
    WorkPacket {
        handle,
        response,
        body: Some(bytes.suffix(body)),
        exceptions_only,
        report: None,
        ends,
    }
}

/// A job has failed, as its worker says.
fn fail<'a>(handle: &'a [u8]) -> WorkPacket<'a>
    ensures handle { result.handle.now ≡ handle.now }
    ensures work { (k : Settings) → work_of k result ≡ ending (work_fail handle.now) }
    ensures response { answer_of result.response ≡ work_fail handle.now }
    ensures report { option_report result.report ≡ None }
{
    WorkPacket {
        handle,
        response: Response::WorkFail { handle },
        body: None,
        exceptions_only: false,
        report: None,
        ends: true,
    }
}

/// A function that a worker can do, if it can be one.
fn check_can_do<'a>(function: &'a [u8], timeout: u32) -> Result<Action<'a>, Refusal>
    ensures does { (k : Settings) (c : ℕ) (past : Past) → acted k c result past ≡ can_do k c function.now timeout past }
    ensures named { IfOk result HasGoodNames }
    ensures no_grab { grabs result ≡ false }
    ensures told { has_nul function.now ≡ false → IfOk result CanBeTold }
{
    if is_bad_name(function) {
        Err(Refusal::BadFunction)
    } else {
        Ok(Action::CanDo { function, timeout })
    }
}

/// A function that a worker can't do any longer, if it can be one.
fn check_cant_do<'a>(function: &'a [u8]) -> Result<Action<'a>, Refusal>
    ensures does { (k : Settings) (c : ℕ) (past : Past) → acted k c result past ≡ cant_do c function.now past }
    ensures named { IfOk result HasGoodNames }
    ensures no_grab { grabs result ≡ false }
    ensures told { IfOk result CanBeTold }
{
    if is_bad_name(function) {
        Err(Refusal::BadFunction)
    } else {
        Ok(Action::CantDo { function })
    }
}

/// An option that is set, if there is one of this name.
fn check_option<'a>(name: &'a [u8]) -> Result<Action<'a>, Refusal>
    ensures does { (k : Settings) (c : ℕ) (past : Past) → acted k c result past ≡ set_option c name.now past }
    ensures named { IfOk result HasGoodNames }
    ensures no_grab { grabs result ≡ false }
    ensures told { IfOk result CanBeTold }
{
    if is_option(name) {
        Ok(Action::SetOption { name })
    } else {
        Err(Refusal::UnknownOption)
    }
}

/// A submission, if its function can be one.
fn check_submission<'a>(
    function: &'a [u8],
    unique: &'a [u8],
    body: &'a [u8],
    bytes: &Data<'a>,
    priority: Priority,
    background: bool,
) -> Result<Action<'a>, Refusal>
    requires { Spells (Opaque 2) (function.now ∷ unique.now ∷ body.now ∷ []) 0 bytes.now.bytes.now }
    ensures does { (k : Settings) (c : ℕ) (past : Past) → acted k c result past ≡ submit k c (submission priority background (function.now ∷ unique.now ∷ body.now ∷ [])) past }
    ensures named { IfOk result HasGoodNames }
    ensures no_grab { grabs result ≡ false }
    ensures told { IsCarried function.now unique.now body.now → IfOk result CanBeTold }
{
    if is_bad_name(function) {
        Err(Refusal::BadFunction)
    } else {
        Ok(Action::Submit(Submission {
            function,
            unique,
            body: bytes.suffix(body),
            priority,
            background,
        }))
    }
}

/// The action of each request: a row for each submission, with its priority and whether it is a background one; a row
/// for each packet with a body about a job, with whether it is only for listeners with the exceptions option, and
/// whether it ends the job; and an arm for each other.
macro_rules! act_by_kind {
    ($request:ident, $bytes:ident:
        submissions { $($submit:ident: $priority:ident, $background:literal;)* }
        reports { $($report:ident: $exceptions_only:literal, $ends:literal;)* }
        others { $($other:pat => $action:expr;)* }
    ) => {
        match *$request {
            $(Request::$submit { function, unique, body } => {
                check_submission(function, unique, body, $bytes, Priority::$priority, $background)
            })*
            $(Request::$report { handle, body } => {
                let response = Response::$report { handle, body };
                let about = pass_on(handle, response, body, $bytes, $exceptions_only, $ends);
                Ok(Action::Work(about))
            })*
            $($other => $action,)*
        }
    };
}

/// The action that a request asks, or why it is refused whatever the server holds.
fn read_request<'a>(request: &Request<'a>, bytes: &Data<'a>) -> Result<Action<'a>, Refusal>
    requires { IsSpelledBy (asked_of request.now) bytes.now.bytes.now }
    ensures does { (k : Settings) (c : ℕ) (past : Past) → acted k c result past ≡ serve k c (asked_of request.now) past }
    ensures named { IfOk result HasGoodNames }
    ensures told { HasCome (asked_of request.now) → IfOk result CanBeTold }
    ensures memory { needs_no_memory (asked_of request.now).kind ≡ true → ActsWithoutMemory result }
    ensures grab { grabs result ≡ is_grab (asked_of request.now).kind }
{
    act_by_kind! { request, bytes:
        submissions {
            SubmitJob: Normal, false;
            SubmitJobBg: Normal, true;
            SubmitJobHigh: High, false;
            SubmitJobHighBg: High, true;
            SubmitJobLow: Low, false;
            SubmitJobLowBg: Low, true;
        }
        reports {
            WorkData: false, false;
            WorkWarning: false, false;
            WorkException: true, false;
            WorkComplete: false, true;
        }
        others {
            Request::WorkStatus { handle, numerator, denominator } => {
                Ok(Action::Work(report_on(handle, numerator, denominator)))
            };
            Request::WorkFail { handle } => Ok(Action::Work(fail(handle)));
            Request::CanDo { function } => check_can_do(function, 0);
            Request::CanDoTimeout { function, timeout } => check_can_do(function, timeout);
            Request::CantDo { function } => check_cant_do(function);
            Request::ResetAbilities => Ok(Action::ResetAbilities);
            Request::PreSleep => Ok(Action::PreSleep);
            Request::GrabJob => Ok(Action::Grab { with_unique: false });
            Request::GrabJobUniq => Ok(Action::Grab { with_unique: true });
            Request::GetStatus { handle } => Ok(Action::GetStatus { handle });
            Request::EchoReq { body } => Ok(Action::Echo { body: bytes.suffix(body) });
            Request::SetClientId { id } => Ok(Action::SetClientId { id });
            Request::OptionReq { name } => check_option(name);
            Request::AllYours => Ok(Action::Nothing);
        }
    }
}

impl<'a> Action<'a> {
    /// Reads a packet: what it asks, or why it is refused whatever the server holds.
    pub fn read(kind: u32, bytes: &Data<'a>) -> Result<Action<'a>, Refusal>
        ensures does { (k : Settings) (c : ℕ) (past : Past) → acted k c result past ≡ packet_of k c (kind_of kind) bytes.now.bytes.now past }
        ensures named { IfOk result HasGoodNames }
        ensures told { length bytes.now.bytes.now ≤ 1073741824 → IfOk result CanBeTold }
        ensures memory { NeedsNoMemory kind bytes.now.bytes.now → ActsWithoutMemory result }
        ensures grab { grabs result ≡ asks_a_job (request_of kind bytes.now.bytes.now) }
    {
        match Request::read(kind, bytes.as_slice()) {
            Ok(request) => read_request(&request, bytes),
            Err(_) => Err(find_fault(kind)),
        }
    }
}
