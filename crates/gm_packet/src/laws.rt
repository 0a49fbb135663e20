//! Laws that hold for all packets. Each function is a law: its body does nothing, and its contract is the law.

ghost use Rattle.gm_packet.specs.Laws.{KindsAreNumberedApart, NoPacketBeginsAnother, OneReading, WrittenRequestsReadBack};

/// No two requests share a packet type, so `Kind::of` tells apart what the writers number.
pub fn kinds_are_numbered_apart()
    ensures { KindsAreNumberedApart }
{}

/// No packet is a proper prefix of another. If a packet followed by any bytes is the same as a packet
/// followed by any bytes, the magics, the types, the data and what follows are the same: so a stream can be
/// cut into packets in one way only.
pub fn no_packet_begins_another()
    ensures { NoPacketBeginsAnother }
{}

/// The data of a packet type mean at most one request, so the relation in the contract of `Request::read`
/// leaves no choice.
pub fn one_reading()
    ensures { OneReading }
{}

/// `Request::read` reads what `write_request` wrote: the same kind with the same arguments and timeout. The
/// request has to fit (`request_fits`), a last argument that may not be arbitrary bytes must hold no NUL, and
/// the denominator of a WORK_STATUS may not be empty, since the NUL before it would then be the last byte of
/// the data and be dropped.
pub fn written_requests_read_back()
    ensures { WrittenRequestsReadBack }
{}
