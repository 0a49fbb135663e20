//! The answer to a connection whose stream can't be read any further.

ghost use Rattle.std.specs.Prelude.{◌≡◌, ◌++◌, [], ◌∷◌, OnOk, OnErr};
ghost use Rattle.gm_packet.specs.Packets.{Fits};
ghost use Rattle.gm_packet.specs.Answers.{answer_packet, error};
ghost use Rattle.gm_notes.specs.Texts.{fault_text};

use gm_admin::{AdminError, write_fault};
use gm_notes::UnitFault;
use gm_packet::{Response, write_response};
use std::alloc::AllocError;

/// Appends an ERROR packet; out of memory, the bytes stay as they were.
fn append_error(code: &[u8], text: &[u8], out: &mut Vec<u8>) -> Result<(), AllocError>
    requires { Fits (code.now ∷ text.now ∷ []) }
    ensures ok { OnOk result (out.new.items ≡ out.old.items ++ answer_packet (error code.now text.now)) }
    ensures err { OnErr result (out.new.items ≡ out.old.items) }
{
    write_response(&Response::Error { code, text }, out)
}

/// Appends what a fault prints; out of memory, the bytes stay as they were.
pub fn append_fault(fault: UnitFault, out: &mut Vec<u8>) -> Result<(), AllocError>
    ensures ok { OnOk result (out.new.items ≡ out.old.items ++ fault_text fault) }
    ensures err { OnErr result (out.new.items ≡ out.old.items) }
{
    match fault {
        UnitFault::BadMagic => append_error(b"bad_magic", b"bad magic", out),
        UnitFault::PacketTooLarge => append_error(b"packet_too_large", b"packet too large", out),
        UnitFault::LineTooLong => write_fault(AdminError::LineTooLong, out),
    }
}
