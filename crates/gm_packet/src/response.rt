//! Responses: what the server sends.

ghost use Rattle.std.specs.Prelude.{◌≡◌, ◌+◌, ◌-◌, ◌<◌, ◌^◌, ◌↔◌, ◌++◌, min, length, vec_len, vec_capacity, IsTrue, OnOk, OnErr};
ghost use Rattle.gm_packet.specs.Answers.{answer_of, answer_packet, flag};
ghost use Rattle.gm_packet.specs.Packets.{Fits};
ghost use Rattle.gm_packet.specs.Texts.{texts_of};

use crate::header::RESPONSE_MAGIC;
use crate::texts::Texts;
use crate::writing::{data_len, fits, put_texts};
use std::alloc::AllocError;
use std::fmt::{self, Debug, Formatter, Write};

/// A response, its arguments borrowed. The Gearman PROTOCOL document says under the same names what each
/// means, and which side gets it.
#[derive(Clone, Copy)]
pub enum Response<'a> {
    /// There is a job for a worker that went to sleep.
    Noop,
    /// A submission was taken, and this is the job's handle.
    JobCreated {
        handle: &'a [u8],
    },
    /// No job waits that the worker can do.
    NoJob,
    /// The job that a worker asked for.
    JobAssign {
        handle: &'a [u8],
        function: &'a [u8],
        body: &'a [u8],
    },
    /// The progress of a job.
    WorkStatus {
        handle: &'a [u8],
        numerator: &'a [u8],
        denominator: &'a [u8],
    },
    /// A job is done.
    WorkComplete {
        handle: &'a [u8],
        body: &'a [u8],
    },
    /// A job failed.
    WorkFail {
        handle: &'a [u8],
    },
    /// The bytes that came with an ECHO_REQ.
    EchoRes {
        body: &'a [u8],
    },
    /// A request was refused.
    Error {
        code: &'a [u8],
        text: &'a [u8],
    },
    /// The status of a job.
    StatusRes {
        handle: &'a [u8],
        known: bool,
        running: bool,
        numerator: &'a [u8],
        denominator: &'a [u8],
    },
    /// A job met an exception.
    WorkException {
        handle: &'a [u8],
        body: &'a [u8],
    },
    /// An option was set.
    OptionRes {
        name: &'a [u8],
    },
    /// A part of a job's result.
    WorkData {
        handle: &'a [u8],
        body: &'a [u8],
    },
    /// A warning from a job.
    WorkWarning {
        handle: &'a [u8],
        body: &'a [u8],
    },
    /// As `JobAssign`, with the unique id.
    JobAssignUniq {
        handle: &'a [u8],
        function: &'a [u8],
        unique: &'a [u8],
        body: &'a [u8],
    },
}

/// `1` for yes and `0` for no.
fn flag<'a>(yes: bool) -> &'a [u8]
    ensures { result.now ≡ flag yes }
{
    if yes { b"1" } else { b"0" }
}

/// The packet type of a response.
fn kind_of(response: &Response<'_>) -> u32
    ensures { result ≡ (answer_of response.now).kind }
{
    match response {
        Response::Noop => 6,
        Response::JobCreated { .. } => 8,
        Response::NoJob => 10,
        Response::JobAssign { .. } => 11,
        Response::WorkStatus { .. } => 12,
        Response::WorkComplete { .. } => 13,
        Response::WorkFail { .. } => 14,
        Response::EchoRes { .. } => 17,
        Response::Error { .. } => 19,
        Response::StatusRes { .. } => 20,
        Response::WorkException { .. } => 25,
        Response::OptionRes { .. } => 27,
        Response::WorkData { .. } => 28,
        Response::WorkWarning { .. } => 29,
        Response::JobAssignUniq { .. } => 31,
    }
}

/// The arguments of a response.
#[inline(always)]
fn texts<'a>(response: &Response<'a>) -> Texts<'a>
    ensures { texts_of result ≡ (answer_of response.now).arguments }
{
    match response {
        Response::Noop | Response::NoJob => Texts::of(&[]),
        Response::JobCreated { handle } | Response::WorkFail { handle } => Texts::of(&[handle]),
        Response::EchoRes { body } => Texts::of(&[body]),
        Response::OptionRes { name } => Texts::of(&[name]),
        Response::WorkComplete { handle, body }
        | Response::WorkException { handle, body }
        | Response::WorkData { handle, body }
        | Response::WorkWarning { handle, body } => Texts::of(&[handle, body]),
        Response::Error { code, text } => Texts::of(&[code, text]),
        Response::JobAssign {
            handle,
            function,
            body,
        } => Texts::of(&[handle, function, body]),
        Response::WorkStatus {
            handle,
            numerator,
            denominator,
        } => { Texts::of(&[handle, numerator, denominator]) }
        Response::JobAssignUniq {
            handle,
            function,
            unique,
            body,
        } => { Texts::of(&[handle, function, unique, body]) }
        Response::StatusRes {
            handle,
            known,
            running,
            numerator,
            denominator,
        } => { Texts::of(&[handle, flag(*known), flag(*running), numerator, denominator]) }
    }
}

// By hand: the derived one's proof cost more than any other function's.
/// The packet type and the arguments.
impl Debug for Response<'_> {
    fn fmt<W: Write>(&self, f: &mut Formatter<W>) -> fmt::Result {
        write!(f, "Response {}{:?}", kind_of(self), texts(self).as_slice())
    }
}

/// How many bytes the packet of a response takes, with its header; the greatest `u64` if it takes more than that.
pub fn response_len(response: &Response<'_>) -> u64
    ensures { result ≡ min (length (answer_packet (answer_of response.now))) (2 ^ 64 - 1) }
{
    data_len(texts(response).as_slice()).saturating_add(12)
}

/// Whether a packet can carry a response: no argument but the last holds NUL, and the length of the
/// data fits 32 bits.
pub fn response_fits(response: &Response<'_>) -> bool
    ensures { IsTrue result ↔ Fits (answer_of response.now).arguments }
{
    fits(texts(response).as_slice())
}

/// Appends the packet of a response that a packet can carry (`response_fits`). It fails only if `out` has no room for
/// it and there is no memory for more, and then changes no byte.
pub fn write_response(response: &Response<'_>, out: &mut Vec<u8>) -> Result<(), AllocError>
    requires { Fits (answer_of response.now).arguments }
    ensures ok { OnOk result (out.new.items ≡ out.old.items ++ answer_packet (answer_of response.now)) }
    ensures err { OnErr result (out.new.items ≡ out.old.items) }

    // It fails only if there is no room.
    ensures full { OnErr result (vec_capacity out.old < vec_len out.old + length (answer_packet (answer_of response.now))) }
{
    put_texts(
        out,
        &RESPONSE_MAGIC,
        kind_of(response),
        texts(response).as_slice(),
    )
}
