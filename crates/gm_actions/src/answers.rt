//! Answers that say what is known of a job.

ghost use Rattle.std.specs.Prelude.{◌≡◌, ◌+◌, ◌≤◌, ℕ, true, false, codes, length};
ghost use Rattle.gm_packet.specs.Answers.{answer_of};
ghost use Rattle.gm_packet.specs.Packets.{has_nul};
ghost use Rattle.gm_packet.specs.Packets.{Fits};
ghost use Rattle.gm_packet.specs.Answers.{status_res};
ghost use Rattle.gm_notes.specs.Settings.{Settings};
ghost use Rattle.gm_notes.specs.Jobs.{handle};
ghost use Rattle.gm_notes.specs.Submissions.{max_name};
ghost use Rattle.gm_notes.specs.Workers.{assignment};
ghost use Rattle.gm_actions.specs.Actions.{job_of, assigned, IsWord};

use crate::actions::Report;
use gm_notes::Priority;
use gm_packet::Response;

/// A job, wherever its bytes lie.
#[derive(Clone, Copy, Debug)]
pub struct JobRef<'a> {
    /// The function.
    pub function: &'a [u8],
    /// The priority.
    pub priority: Priority,
    /// The unique id.
    pub unique: &'a [u8],
    /// The body.
    pub body: &'a [u8],
}

/// The answer to a worker with the job that it gets, with its unique id if it asked for that (the Gearman PROTOCOL
/// document, "JOB_ASSIGN" and "JOB_ASSIGN_UNIQ").
pub fn assignment<'a>(text: &'a [u8], job: &JobRef<'a>, with_unique: bool) -> Response<'a>
    ensures exact { answer_of result ≡ assigned with_unique text.now (job_of job.now) }
    ensures value { (k : Settings) (n : ℕ) → text.now ≡ handle k n → answer_of result ≡ assignment k with_unique n (job_of job.now) }
    ensures fits { has_nul text.now ≡ false → length text.now ≤ 64 → has_nul job.now.function.now ≡ false → length job.now.function.now ≤ max_name
        → has_nul job.now.unique.now ≡ false → length job.now.unique.now + length job.now.body.now ≤ 1073741824 → Fits (answer_of result).arguments }
{
    if with_unique {
        Response::JobAssignUniq {
            handle: text,
            function: job.function,
            unique: job.unique,
            body: job.body,
        }
    } else {
        Response::JobAssign {
            handle: text,
            function: job.function,
            body: job.body,
        }
    }
}

/// The answer about a live job (the Gearman PROTOCOL document, "STATUS_RES").
pub fn known_status<'a>(handle: &'a [u8], running: bool, report: Report<'a>) -> Response<'a>
    ensures value { answer_of result ≡ status_res handle.now true running report.entry.numerator.now report.entry.denominator.now }
    ensures fits { IsWord handle.now → has_nul report.entry.numerator.now ≡ false
        → length report.entry.numerator.now + length report.entry.denominator.now ≤ 1073741824 → Fits (answer_of result).arguments }
{
    Response::StatusRes {
        handle,
        known: true,
        running,
        numerator: report.numerator,
        denominator: report.denominator,
    }
}

/// The answer about a job that isn't live, or was never made.
pub fn unknown_status(handle: &[u8]) -> Response<'_>
    ensures { answer_of result ≡ status_res handle.now false false (codes "0") (codes "0") }
{
    Response::StatusRes {
        handle,
        known: false,
        running: false,
        numerator: b"0",
        denominator: b"0",
    }
}
