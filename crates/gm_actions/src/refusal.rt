//! Why a request is refused: the code and the text of the ERROR packet.

ghost use Rattle.std.specs.Prelude.{◌≡◌, ◌∷◌, []};
ghost use Rattle.gm_packet.specs.Answers.{answer_of};
ghost use Rattle.gm_packet.specs.Packets.{Fits};
ghost use Rattle.gm_actions.specs.Refusals.{code_of};
ghost use Rattle.gm_notes.specs.Texts.{error_of};

use gm_packet::Response;

/// Why a request is refused.
#[derive(Clone, Copy, Debug, PartialEq, Eq)]
pub enum Refusal {
    /// No request has the packet type.
    UnknownCommand,
    /// The data don't spell the arguments.
    BadArguments,
    /// A function's name is empty, or has over 512 bytes.
    BadFunction,
    /// No option has the name.
    UnknownOption,
    /// No job that runs at the slot has the handle.
    JobNotFound,
    /// There are as many functions as there may be.
    TooManyFunctions,
    /// The function has as many jobs as it may have.
    QueueFull,
    /// The last number was given out.
    NoNumbers,
}

impl Refusal {
    /// The ERROR packet.
    pub fn response<'a>(self) -> Response<'a>
        ensures value { answer_of result ≡ error_of (code_of self) }
        ensures fits { Fits (answer_of result).arguments }
    {
        let (code, text): (&[u8], &[u8]) = match self {
            Refusal::UnknownCommand => (b"unknown_command", b"unknown command"),
            Refusal::BadArguments => (b"bad_arguments", b"bad arguments"),
            Refusal::BadFunction => (b"bad_function", b"bad function"),
            Refusal::UnknownOption => (b"unknown_option", b"unknown option"),
            Refusal::JobNotFound => (b"job_not_found", b"job not found"),
            Refusal::TooManyFunctions => (b"too_many_functions", b"too many functions"),
            Refusal::QueueFull => (b"queue_full", b"queue full"),
            Refusal::NoNumbers => (b"no_numbers", b"no numbers"),
        };
        Response::Error { code, text }
    }
}
