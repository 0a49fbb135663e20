//! The lines that are printed.

ghost use Rattle.std.specs.Prelude.{◌≡◌, ◌++◌, ◌<◌, OnOk, decimal};
ghost use Rattle.std.specs.Char.{digit_char};
ghost use Rattle.gm_play.specs.Prints.{hex_pair, hex_of, bad_text, refused_text, open_text, bytes_text, shut_text};

use gm_notes::ApplyError;
use itoa::Buffer;
use std::alloc::AllocError;

/// The lower-case character of a hexadecimal digit.
fn digit_char(digit: u8) -> u8
    requires { digit < 16 }
    ensures { result ≡ digit_char digit }
{
    if digit < 10 {
        b'0' + digit
    } else {
        b'a' + (digit - 10)
    }
}

/// The two hexadecimal digits of a byte.
fn hex_pair(byte: u8) -> [u8; 2]
    ensures { result ≡ hex_pair byte }
{
    [digit_char(byte / 16), digit_char(byte % 16)]
}

/// Appends two hexadecimal digits for each byte.
fn put_hex(out: &mut Vec<u8>, bytes: &[u8]) -> Result<(), AllocError>
    ensures { OnOk result (out.new.items ≡ out.old.items ++ hex_of bytes.now) }
{
    for byte in bytes {
        out.extend_from_slice(&hex_pair(*byte))?;
    }
    Ok(())
}

/// Appends a number.
fn put_number(out: &mut Vec<u8>, number: u32) -> Result<(), AllocError>
    ensures { OnOk result (out.new.items ≡ out.old.items ++ decimal number) }
{
    let mut buffer = Buffer::new();
    out.extend_from_slice(buffer.format(number).as_bytes())
}

/// Appends `bad line`.
pub fn put_bad(out: &mut Vec<u8>) -> Result<(), AllocError>
    ensures { OnOk result (out.new.items ≡ out.old.items ++ bad_text) }
{
    out.extend_from_slice(b"bad line\n")
}

/// Appends `refused` and the number of the refusal.
pub fn put_refused(out: &mut Vec<u8>, refused: ApplyError) -> Result<(), AllocError>
    ensures { OnOk result (out.new.items ≡ out.old.items ++ refused_text refused) }
{
    out.extend_from_slice(b"refused ")?;
    put_number(out, u32::from(refused.number()))?;
    out.extend_from_slice(b"\n")
}

/// Appends the slot and `open`.
pub fn put_open(out: &mut Vec<u8>, slot: u32) -> Result<(), AllocError>
    ensures { OnOk result (out.new.items ≡ out.old.items ++ open_text slot) }
{
    put_number(out, slot)?;
    out.extend_from_slice(b" open\n")
}

/// Appends the slot and the bytes, if there are any.
pub fn put_bytes(out: &mut Vec<u8>, slot: u32, bytes: &[u8]) -> Result<(), AllocError>
    ensures { OnOk result (out.new.items ≡ out.old.items ++ bytes_text slot bytes.now) }
{
    if bytes.is_empty() {
        return Ok(());
    }
    put_number(out, slot)?;
    out.extend_from_slice(b" ")?;
    put_hex(out, bytes)?;
    out.extend_from_slice(b"\n")
}

/// Appends the slot and `shut`, if it became so.
pub fn put_shut(out: &mut Vec<u8>, slot: u32, became: bool) -> Result<(), AllocError>
    ensures { OnOk result (out.new.items ≡ out.old.items ++ shut_text slot became) }
{
    if !became {
        return Ok(());
    }
    put_number(out, slot)?;
    out.extend_from_slice(b" shut\n")
}
