//! Packets against bytes that were taken from elsewhere.

use crate::checks::same;
use gm_packet::{
    Header, Request, RequestFault, Response, read_header, request_fits, response_fits,
    response_len, write_request, write_response,
};
use std::alloc::{AllocError, Global};
use std::process::Abort;
use std::test::Fail;

/// Rows of bytes and their meanings.
macro_rules! table {
    ($kind:ident: $($($left:expr),+ => $variant:ident $({ $($field:ident: $value:expr),* })?;)*) => {
        [$(($($left,)+ $kind::$variant $({ $($field: $value),* })?)),*]
    };
}

/// The requests of whole packets, every type once, byte for byte.
static REQUESTS: [(&[u8], Request<'static>); 24] = table! { Request:
    b"\0REQ\0\0\0\x01\0\0\0\x01f" => CanDo { function: b"f" };
    b"\0REQ\0\0\0\x02\0\0\0\x01f" => CantDo { function: b"f" };
    b"\0REQ\0\0\0\x03\0\0\0\0" => ResetAbilities;
    b"\0REQ\0\0\0\x04\0\0\0\0" => PreSleep;
    b"\0REQ\0\0\0\x07\0\0\0\x05f\0a\x001" => SubmitJob { function: b"f", unique: b"a", body: b"1" };
    b"\0REQ\0\0\0\x09\0\0\0\0" => GrabJob;
    b"\0REQ\0\0\0\x0c\0\0\0\x0dH:gmd:1\x003\x00100" => WorkStatus { handle: b"H:gmd:1", numerator: b"3", denominator: b"100" };
    b"\0REQ\0\0\0\x0d\0\0\0\x0aH:gmd:1\0a\0" => WorkComplete { handle: b"H:gmd:1", body: b"a\0" };
    b"\0REQ\0\0\0\x0e\0\0\0\x07H:gmd:1" => WorkFail { handle: b"H:gmd:1" };
    b"\0REQ\0\0\0\x0f\0\0\0\x07H:gmd:1" => GetStatus { handle: b"H:gmd:1" };
    b"\0REQ\0\0\0\x10\0\0\0\x02hi" => EchoReq { body: b"hi" };
    b"\0REQ\0\0\0\x12\0\0\0\x05f\0a\x001" => SubmitJobBg { function: b"f", unique: b"a", body: b"1" };
    b"\0REQ\0\0\0\x15\0\0\0\x05f\0\0\0\0" => SubmitJobHigh { function: b"f", unique: b"", body: b"\0\0" };
    b"\0REQ\0\0\0\x16\0\0\0\x02me" => SetClientId { id: b"me" };
    b"\0REQ\0\0\0\x17\0\0\0\x04f\x0030" => CanDoTimeout { function: b"f", timeout: 30 };
    b"\0REQ\0\0\0\x18\0\0\0\0" => AllYours;
    b"\0REQ\0\0\0\x19\0\0\0\x08H:gmd:1\0" => WorkException { handle: b"H:gmd:1", body: b"" };
    b"\0REQ\0\0\0\x1a\0\0\0\x0aexceptions" => OptionReq { name: b"exceptions" };
    b"\0REQ\0\0\0\x1c\0\0\0\x09H:gmd:1\0a" => WorkData { handle: b"H:gmd:1", body: b"a" };
    b"\0REQ\0\0\0\x1d\0\0\0\x09H:gmd:1\0a" => WorkWarning { handle: b"H:gmd:1", body: b"a" };
    b"\0REQ\0\0\0\x1e\0\0\0\0" => GrabJobUniq;
    b"\0REQ\0\0\0\x20\0\0\0\x05f\0a\x001" => SubmitJobHighBg { function: b"f", unique: b"a", body: b"1" };
    b"\0REQ\0\0\0\x21\0\0\0\x05f\0a\x001" => SubmitJobLow { function: b"f", unique: b"a", body: b"1" };
    b"\0REQ\0\0\0\x22\0\0\0\x05f\0a\x001" => SubmitJobLowBg { function: b"f", unique: b"a", body: b"1" };
};

/// Whole packets that say a response, every type once and more of two.
static RESPONSES: [(&[u8], Response<'static>); 18] = table! { Response:
    b"\0RES\0\0\0\x06\0\0\0\0" => Noop;
    b"\0RES\0\0\0\x08\0\0\0\x07H:gmd:1" => JobCreated { handle: b"H:gmd:1" };
    b"\0RES\0\0\0\x0a\0\0\0\0" => NoJob;
    b"\0RES\0\0\0\x0b\0\0\0\x0bH:gmd:1\0f\x001" => JobAssign { handle: b"H:gmd:1", function: b"f", body: b"1" };
    b"\0RES\0\0\0\x0c\0\0\0\x0dH:gmd:1\x003\x00100" => WorkStatus { handle: b"H:gmd:1", numerator: b"3", denominator: b"100" };
    b"\0RES\0\0\0\x0d\0\0\0\x09H:gmd:1\0a" => WorkComplete { handle: b"H:gmd:1", body: b"a" };
    b"\0RES\0\0\0\x0e\0\0\0\x07H:gmd:1" => WorkFail { handle: b"H:gmd:1" };
    b"\0RES\0\0\0\x11\0\0\0\x02hi" => EchoRes { body: b"hi" };
    b"\0RES\0\0\0\x13\0\0\0\x1bjob_not_found\0job not found" => Error { code: b"job_not_found", text: b"job not found" };
    b"\0RES\0\0\0\x13\0\0\0\x13bad_magic\0bad magic" => Error { code: b"bad_magic", text: b"bad magic" };
    b"\0RES\0\0\0\x14\0\0\0\x12H:gmd:1\x001\x001\x0003\x00100" => StatusRes { handle: b"H:gmd:1", known: true, running: true, numerator: b"03", denominator: b"100" };
    b"\0RES\0\0\0\x14\0\0\0\x0fH:gmd:2\x001\x000\x000\x000" => StatusRes { handle: b"H:gmd:2", known: true, running: false, numerator: b"0", denominator: b"0" };
    b"\0RES\0\0\0\x14\0\0\0\x0fH:gmd:3\x000\x000\x000\x000" => StatusRes { handle: b"H:gmd:3", known: false, running: false, numerator: b"0", denominator: b"0" };
    b"\0RES\0\0\0\x19\0\0\0\x09H:gmd:1\0a" => WorkException { handle: b"H:gmd:1", body: b"a" };
    b"\0RES\0\0\0\x1b\0\0\0\x0aexceptions" => OptionRes { name: b"exceptions" };
    b"\0RES\0\0\0\x1c\0\0\0\x09H:gmd:1\0a" => WorkData { handle: b"H:gmd:1", body: b"a" };
    b"\0RES\0\0\0\x1d\0\0\0\x09H:gmd:1\0a" => WorkWarning { handle: b"H:gmd:1", body: b"a" };
    b"\0RES\0\0\0\x1f\0\0\0\x0dH:gmd:1\0f\0a\x001" => JobAssignUniq { handle: b"H:gmd:1", function: b"f", unique: b"a", body: b"1" };
};

/// The header of a whole packet, and its data.
fn cut_packet(packet: &[u8]) -> Option<(Header, &[u8])> {
    let [m0, m1, m2, m3, k0, k1, k2, k3, s0, s1, s2, s3, data @ ..] = packet else {
        return None;
    };
    let header = [*m0, *m1, *m2, *m3, *k0, *k1, *k2, *k3, *s0, *s1, *s2, *s3];
    Some((read_header(&header).ok()?, data))
}

/// The packet of a request, if it fits, after a byte that was there before.
fn written_request(alloc: Global, request: &Request<'_>) -> Result<Option<Vec<u8>>, AllocError> {
    if !request_fits(request) {
        return Ok(None);
    }
    let mut out = Vec::from_slice(alloc, b"<")?;
    write_request(request, &mut out)?;
    Ok(Some(out))
}

/// As `written_request`.
fn written_response(alloc: Global, response: &Response<'_>) -> Result<Option<Vec<u8>>, AllocError> {
    if !response_fits(response) {
        return Ok(None);
    }
    let mut out = Vec::from_slice(alloc, b"<")?;
    write_response(response, &mut out)?;
    Ok(Some(out))
}

/// Data of this type are read so.
fn assert_reads(
    rt: &impl Abort,
    alloc: Global,
    kind: u32,
    data: &[u8],
    reading: &Result<Request<'_>, RequestFault>,
) -> Result<(), AllocError> {
    let got = format!(in alloc; "{:?}", Request::read(kind, data))?;
    let wanted = format!(in alloc; "{reading:?}")?;
    same(rt, (kind, data), &got.as_str(), &wanted.as_str());
    Ok(())
}

/// The packet has the size of its data, and is read as the request.
fn assert_asks(
    rt: &impl Abort,
    alloc: Global,
    packet: &[u8],
    request: Request<'_>,
) -> Result<(), Fail> {
    let (header, data) = cut_packet(packet).ok_or("no packet")?;
    same(rt, packet, &(header.size as usize), &data.len());
    assert_reads(rt, alloc, header.kind, data, &Ok(request))?;
    Ok(())
}

/// The request is written as the packet.
fn assert_written(
    rt: &impl Abort,
    alloc: Global,
    packet: &[u8],
    request: &Request<'_>,
) -> Result<(), Fail> {
    let out = written_request(alloc, request)?.ok_or("too long")?;
    same(rt, packet, &out.get(1..), &Some(packet));
    Ok(())
}

#[test]
fn reads_and_writes_each_request(rt: HostRuntime) -> Result<(), Fail> {
    for (packet, request) in &REQUESTS {
        assert_asks(&rt, rt.alloc(), packet, *request)?;
        assert_written(&rt, rt.alloc(), packet, request)?;
    }
    Ok(())
}

/// The response is written as the packet.
fn assert_response(
    rt: &impl Abort,
    alloc: Global,
    packet: &[u8],
    response: &Response<'_>,
) -> Result<(), Fail> {
    same(rt, packet, &response_len(response), &(packet.len() as u64));
    let out = written_response(alloc, response)?.ok_or("too long")?;
    same(rt, packet, &out.get(1..), &Some(packet));
    Ok(())
}

#[test]
fn writes_each_response(rt: HostRuntime) -> Result<(), Fail> {
    for (packet, response) in &RESPONSES {
        assert_response(&rt, rt.alloc(), packet, response)?;
    }
    Ok(())
}

/// The requests in data of a packet type: data that are no request of their type, data that look odd and are right, and
/// types that no client sends or that nobody knows, whatever the data.
static READINGS: [(u32, &[u8], Result<Request<'static>, RequestFault>); 51] = [
    (1, b"f\0\0", Err(RequestFault::BadArguments)),
    (1, b"f\0g", Err(RequestFault::BadArguments)),
    (1, b"\0\0", Err(RequestFault::BadArguments)),
    (3, b"\0", Err(RequestFault::BadArguments)),
    (9, b"f", Err(RequestFault::BadArguments)),
    (30, b"f", Err(RequestFault::BadArguments)),
    (7, b"", Err(RequestFault::BadArguments)),
    (7, b"f", Err(RequestFault::BadArguments)),
    (7, b"f\0a", Err(RequestFault::BadArguments)),
    (12, b"H:gmd:1\x003", Err(RequestFault::BadArguments)),
    (12, b"H:gmd:1\x003\0", Err(RequestFault::BadArguments)),
    (
        12,
        b"H:gmd:1\x003\x00100\0\0",
        Err(RequestFault::BadArguments),
    ),
    (
        12,
        b"H:gmd:1\x003\x00100\x004",
        Err(RequestFault::BadArguments),
    ),
    (13, b"H:gmd:1", Err(RequestFault::BadArguments)),
    (23, b"f", Err(RequestFault::BadArguments)),
    (23, b"f\0", Err(RequestFault::BadArguments)),
    (23, b"f\0\0", Err(RequestFault::BadArguments)),
    (23, b"f\0+5", Err(RequestFault::BadArguments)),
    (23, b"f\x005 ", Err(RequestFault::BadArguments)),
    (23, b"f\x0000000000005", Err(RequestFault::BadArguments)),
    (23, b"f\x004294967296", Err(RequestFault::BadArguments)),
    (23, b"f\x0030\0\0", Err(RequestFault::BadArguments)),
    (1, b"", Ok(Request::CanDo { function: b"" })),
    (1, b"\0", Ok(Request::CanDo { function: b"" })),
    (1, b"f\0", Ok(Request::CanDo { function: b"f" })),
    (
        7,
        b"\0\0",
        Ok(Request::SubmitJob {
            function: b"",
            unique: b"",
            body: b"",
        }),
    ),
    (
        12,
        b"\0\0\0",
        Ok(Request::WorkStatus {
            handle: b"",
            numerator: b"",
            denominator: b"",
        }),
    ),
    (
        13,
        b"\0\0",
        Ok(Request::WorkComplete {
            handle: b"",
            body: b"\0",
        }),
    ),
    (16, b"\0", Ok(Request::EchoReq { body: b"\0" })),
    (
        23,
        b"f\x00007",
        Ok(Request::CanDoTimeout {
            function: b"f",
            timeout: 7,
        }),
    ),
    (
        23,
        b"f\x000\0",
        Ok(Request::CanDoTimeout {
            function: b"f",
            timeout: 0,
        }),
    ),
    (
        23,
        b"f\x000000000030",
        Ok(Request::CanDoTimeout {
            function: b"f",
            timeout: 30,
        }),
    ),
    (
        23,
        b"f\x004294967295",
        Ok(Request::CanDoTimeout {
            function: b"f",
            timeout: u32::MAX,
        }),
    ),
    (
        23,
        b"\x001",
        Ok(Request::CanDoTimeout {
            function: b"",
            timeout: 1,
        }),
    ),
    (0, b"f\0a\x001", Err(RequestFault::UnknownCommand)),
    (5, b"f\0a\x001", Err(RequestFault::UnknownCommand)),
    (6, b"f\0a\x001", Err(RequestFault::UnknownCommand)),
    (8, b"f\0a\x001", Err(RequestFault::UnknownCommand)),
    (10, b"f\0a\x001", Err(RequestFault::UnknownCommand)),
    (11, b"f\0a\x001", Err(RequestFault::UnknownCommand)),
    (17, b"f\0a\x001", Err(RequestFault::UnknownCommand)),
    (19, b"f\0a\x001", Err(RequestFault::UnknownCommand)),
    (20, b"f\0a\x001", Err(RequestFault::UnknownCommand)),
    (27, b"f\0a\x001", Err(RequestFault::UnknownCommand)),
    (31, b"f\0a\x001", Err(RequestFault::UnknownCommand)),
    (35, b"f\0a\x001", Err(RequestFault::UnknownCommand)),
    (36, b"f\0a\x001", Err(RequestFault::UnknownCommand)),
    (37, b"f\0a\x001", Err(RequestFault::UnknownCommand)),
    (256, b"f\0a\x001", Err(RequestFault::UnknownCommand)),
    (4294967295, b"f\0a\x001", Err(RequestFault::UnknownCommand)),
    (36, b"", Err(RequestFault::UnknownCommand)),
];

#[test]
fn reads_exactly(rt: HostRuntime) -> Result<(), Fail> {
    for (kind, data, reading) in &READINGS {
        assert_reads(&rt, rt.alloc(), *kind, data, reading)?;
    }
    Ok(())
}
