//! Requests: what clients and workers send.

ghost use Rattle.std.specs.Prelude.{◌≡◌, ◌↔◌, [], ◌∷◌, ◌++◌, ◌+◌, ◌<◌, length, vec_len, vec_capacity, IfOk, IsErrOf, IsTrue, OnOk, OnErr};
ghost use Rattle.std.specs.Prelude.{MatchOption, decimal};
ghost use Rattle.std.specs.Option.{option_map};
ghost use Rattle.gm_packet.specs.Kinds.{Empty, Plain, Opaque, shape};
ghost use Rattle.gm_packet.specs.Packets.{Fits};
ghost use Rattle.gm_packet.specs.Requests.{Asks, IsKnown, IsSpelled, read_as, request_of, request_texts, request_packet};
ghost use Rattle.gm_packet.specs.Texts.{texts_of};
ghost use Rattle.gm_packet.specs.Views.{asked_of, asked_result};

use crate::arguments::{
    function_and_timeout, no_argument, one_plain, three_opaque, three_plain, two_opaque,
};
use crate::header::REQUEST_MAGIC;
use crate::kind::Kind;
use crate::texts::Texts;
use crate::writing::{fits, put_texts};
use itoa::Buffer;
use std::alloc::AllocError;
use std::fmt::{self, Debug, Formatter, Write};

/// Why a packet isn't a request.
#[derive(Clone, Copy, Debug, PartialEq, Eq)]
pub enum RequestFault {
    /// No request has this packet type.
    UnknownCommand = 1,
    /// The data don't spell the arguments of this request.
    BadArguments = 2,
}

/// A request, its arguments borrowed from the data of its packet. The Gearman PROTOCOL document says under
/// the same names what each asks for and which side sends it.
#[derive(Clone, Copy)]
pub enum Request<'a> {
    /// A worker can do jobs of this function.
    CanDo {
        function: &'a [u8],
    },
    /// A worker can't do them any longer.
    CantDo {
        function: &'a [u8],
    },
    /// A worker can do nothing.
    ResetAbilities,
    /// A worker wants a NOOP when there is a job for it.
    PreSleep,
    /// A client submits a job and listens to it.
    SubmitJob {
        function: &'a [u8],
        unique: &'a [u8],
        body: &'a [u8],
    },
    /// A worker asks for a job.
    GrabJob,
    /// A worker reports the progress of its job.
    WorkStatus {
        handle: &'a [u8],
        numerator: &'a [u8],
        denominator: &'a [u8],
    },
    /// A worker has done its job.
    WorkComplete {
        handle: &'a [u8],
        body: &'a [u8],
    },
    /// A worker's job failed.
    WorkFail {
        handle: &'a [u8],
    },
    /// A client asks for the progress of a job.
    GetStatus {
        handle: &'a [u8],
    },
    /// The sender wants its bytes back.
    EchoReq {
        body: &'a [u8],
    },
    /// As `SubmitJob`, without listening.
    SubmitJobBg {
        function: &'a [u8],
        unique: &'a [u8],
        body: &'a [u8],
    },
    /// As `SubmitJob`, before others.
    SubmitJobHigh {
        function: &'a [u8],
        unique: &'a [u8],
        body: &'a [u8],
    },
    /// A connection names itself.
    SetClientId {
        id: &'a [u8],
    },
    /// As `CanDo`, with the seconds that a job may take; 0 is no limit.
    CanDoTimeout {
        function: &'a [u8],
        timeout: u32,
    },
    /// Nothing: a leftover of the protocol.
    AllYours,
    /// A worker's job met an exception.
    WorkException {
        handle: &'a [u8],
        body: &'a [u8],
    },
    /// A connection sets an option.
    OptionReq {
        name: &'a [u8],
    },
    /// A part of a job's result.
    WorkData {
        handle: &'a [u8],
        body: &'a [u8],
    },
    /// A warning from a job.
    WorkWarning {
        handle: &'a [u8],
        body: &'a [u8],
    },
    /// As `GrabJob`, and the answer also has the unique id.
    GrabJobUniq,
    /// As `SubmitJobHigh`, without listening.
    SubmitJobHighBg {
        function: &'a [u8],
        unique: &'a [u8],
        body: &'a [u8],
    },
    /// As `SubmitJob`, after others.
    SubmitJobLow {
        function: &'a [u8],
        unique: &'a [u8],
        body: &'a [u8],
    },
    /// As `SubmitJobLow`, without listening.
    SubmitJobLowBg {
        function: &'a [u8],
        unique: &'a [u8],
        body: &'a [u8],
    },
}

/// The request of a kind: for each kind, its arguments and what reads them.
macro_rules! read_by_kind {
    ($kind:ident, $bytes:ident: $($name:ident($($argument:ident),*) by $read:ident;)*) => {
        match $kind {
            $(Kind::$name => match $read($bytes) {
                Some(($($argument),*)) => Some(Request::$name { $($argument),* }),
                None => None,
            })*
        }
    };
}

/// The request of a known kind, if the data spell its arguments.
fn read_as(kind: Kind, bytes: &[u8]) -> Option<Request<'_>>
    ensures { option_map asked_of result ≡ read_as kind bytes.now }
{
    read_by_kind! { kind, bytes:
        CanDo(function) by one_plain;
        CantDo(function) by one_plain;
        ResetAbilities() by no_argument;
        PreSleep() by no_argument;
        SubmitJob(function, unique, body) by three_opaque;
        GrabJob() by no_argument;
        WorkStatus(handle, numerator, denominator) by three_plain;
        WorkComplete(handle, body) by two_opaque;
        WorkFail(handle) by one_plain;
        GetStatus(handle) by one_plain;
        EchoReq(body) by Some;
        SubmitJobBg(function, unique, body) by three_opaque;
        SubmitJobHigh(function, unique, body) by three_opaque;
        SetClientId(id) by one_plain;
        CanDoTimeout(function, timeout) by function_and_timeout;
        AllYours() by no_argument;
        WorkException(handle, body) by two_opaque;
        OptionReq(name) by one_plain;
        WorkData(handle, body) by two_opaque;
        WorkWarning(handle, body) by two_opaque;
        GrabJobUniq() by no_argument;
        SubmitJobHighBg(function, unique, body) by three_opaque;
        SubmitJobLow(function, unique, body) by three_opaque;
        SubmitJobLowBg(function, unique, body) by three_opaque;
    }
}

/// The request of a packet type and data.
fn read_exactly(kind: u32, bytes: &[u8]) -> Result<Request<'_>, RequestFault>
    ensures { asked_result result ≡ request_of kind bytes.now }
{
    let Some(known) = Kind::of(kind) else {
        return Err(RequestFault::UnknownCommand);
    };
    read_as(known, bytes).ok_or(RequestFault::BadArguments)
}

impl<'a> Request<'a> {
    /// The request of a packet of this type with these data. `UnknownCommand` is returned exactly if no request has the
    /// type, whatever the data; otherwise `BadArguments` exactly if the data don't spell the arguments of that request.
    /// It takes no memory.
    pub fn read(kind: u32, bytes: &'a [u8]) -> Result<Request<'a>, RequestFault>
        // As one function.
        ensures exact { asked_result result ≡ request_of kind bytes.now }

        // And in the words of the relation.
        ensures found { IfOk result (λ request. Asks kind bytes.now (asked_of request)) }
        ensures unknown { IsErrOf result RequestFault.UnknownCommand ↔ (IsKnown kind → ⊥) }
        ensures bad { IsErrOf result RequestFault.BadArguments ↔ (IsKnown kind × (IsSpelled kind bytes.now → ⊥)) }
    {
        read_exactly(kind, bytes)
    }
}

/// The function and the timeout of a request that has a timeout.
fn timed<'a>(request: &Request<'a>) -> Option<(&'a [u8], u32)>
    ensures { MatchOption result (request_texts (asked_of request.now) ≡ (asked_of request.now).arguments)
        (λ found. request_texts (asked_of request.now) ≡ found.0.now ∷ decimal found.1 ∷ []) }
{
    match *request {
        Request::CanDoTimeout { function, timeout } => Some((function, timeout)),
        _ => None,
    }
}

/// The kind of a request.
fn kind(request: &Request<'_>) -> Kind
    ensures { result ≡ (asked_of request.now).kind }
{
    match request {
        Request::CanDo { .. } => Kind::CanDo,
        Request::CantDo { .. } => Kind::CantDo,
        Request::ResetAbilities => Kind::ResetAbilities,
        Request::PreSleep => Kind::PreSleep,
        Request::SubmitJob { .. } => Kind::SubmitJob,
        Request::GrabJob => Kind::GrabJob,
        Request::WorkStatus { .. } => Kind::WorkStatus,
        Request::WorkComplete { .. } => Kind::WorkComplete,
        Request::WorkFail { .. } => Kind::WorkFail,
        Request::GetStatus { .. } => Kind::GetStatus,
        Request::EchoReq { .. } => Kind::EchoReq,
        Request::SubmitJobBg { .. } => Kind::SubmitJobBg,
        Request::SubmitJobHigh { .. } => Kind::SubmitJobHigh,
        Request::SetClientId { .. } => Kind::SetClientId,
        Request::CanDoTimeout { .. } => Kind::CanDoTimeout,
        Request::AllYours => Kind::AllYours,
        Request::WorkException { .. } => Kind::WorkException,
        Request::OptionReq { .. } => Kind::OptionReq,
        Request::WorkData { .. } => Kind::WorkData,
        Request::WorkWarning { .. } => Kind::WorkWarning,
        Request::GrabJobUniq => Kind::GrabJobUniq,
        Request::SubmitJobHighBg { .. } => Kind::SubmitJobHighBg,
        Request::SubmitJobLow { .. } => Kind::SubmitJobLow,
        Request::SubmitJobLowBg { .. } => Kind::SubmitJobLowBg,
    }
}

/// A request of one of these kinds, with arguments of these names.
macro_rules! any {
    ($($name:ident)|+: $arguments:tt) => {
        $(Request::$name $arguments)|+
    };
}

/// The arguments of a request, without its timeout.
#[inline(always)]
fn texts<'a>(request: &Request<'a>) -> Texts<'a>
    ensures { texts_of result ≡ (asked_of request.now).arguments }
{
    match *request {
        any!(ResetAbilities | PreSleep | GrabJob | AllYours | GrabJobUniq: {}) => Texts::of(&[]),
        any!(CanDo | CantDo | CanDoTimeout: { function, .. }) => Texts::of(&[function]),
        any!(WorkFail | GetStatus: { handle }) => Texts::of(&[handle]),
        Request::EchoReq { body } => Texts::of(&[body]),
        Request::SetClientId { id } => Texts::of(&[id]),
        Request::OptionReq { name } => Texts::of(&[name]),
        any!(WorkComplete | WorkException | WorkData | WorkWarning: { handle, body }) => {
            Texts::of(&[handle, body])
        }
        any!(WorkStatus: { handle, numerator, denominator }) => {
            Texts::of(&[handle, numerator, denominator])
        }
        any!(SubmitJob | SubmitJobBg | SubmitJobHigh | SubmitJobHighBg | SubmitJobLow | SubmitJobLowBg:
            { function, unique, body }) => Texts::of(&[function, unique, body]),
    }
}

// By hand: the derived one's proof cost more than any other function's.
/// The kind and the arguments.
impl Debug for Request<'_> {
    fn fmt<W: Write>(&self, f: &mut Formatter<W>) -> fmt::Result {
        match timed(self) {
            None => write!(f, "{:?}{:?}", kind(self), texts(self).as_slice()),
            Some((function, timeout)) => write!(f, "CanDoTimeout[{function:?}, {timeout}]"),
        }
    }
}

/// Whether a packet can carry a request: no argument but the last holds NUL, and the length of the
/// data fits 32 bits.
pub fn request_fits(request: &Request<'_>) -> bool
    ensures { IsTrue result ↔ Fits (request_texts (asked_of request.now)) }
{
    match timed(request) {
        None => fits(texts(request).as_slice()),
        Some((function, timeout)) => {
            let mut buffer = Buffer::new();
            let digits = buffer.format(timeout).as_bytes();
            fits(&[function, digits])
        }
    }
}

/// Appends the packet of a request that a packet can carry (`request_fits`). It fails only if `out` has no room for it
/// and there is no memory for more, and then changes no byte.
pub fn write_request(request: &Request<'_>, out: &mut Vec<u8>) -> Result<(), AllocError>
    requires { Fits (request_texts (asked_of request.now)) }
    ensures ok { OnOk result (out.new.items ≡ out.old.items ++ request_packet (asked_of request.now)) }
    ensures err { OnErr result (out.new.items ≡ out.old.items) }

    // It fails only if there is no room.
    ensures full { OnErr result (vec_capacity out.old < vec_len out.old + length (request_packet (asked_of request.now))) }
{
    let number = kind(request).number();
    match timed(request) {
        None => put_texts(out, &REQUEST_MAGIC, number, texts(request).as_slice()),
        Some((function, timeout)) => {
            let mut buffer = Buffer::new();
            let digits = buffer.format(timeout).as_bytes();
            put_texts(out, &REQUEST_MAGIC, number, &[function, digits])
        }
    }
}
