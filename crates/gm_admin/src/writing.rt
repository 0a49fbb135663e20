//! Appends the parts of a list.

ghost use Rattle.std.specs.Prelude.{◌≡◌, ◌+◌, ◌<◌, ◌++◌, ℕ, List, [], ◌∷◌, length, decimal, vec_len, vec_capacity, OnOk, OnErr};
ghost use Rattle.std.specs.List.{flat_map};
ghost use Rattle.gm_admin.specs.Answers.{Appends, dot, shown_byte, shown, shown_or_dash, status_line, worker_line};
ghost use Rattle.gm_admin.specs.Views.{status_of, worker_of};

use crate::lines::{StatusRow, WorkerRow};
use itoa::Buffer;
use std::alloc::AllocError;

/// A part of a list.
pub(crate) trait Put {
    ghost text: { Self → List ℕ };

    /// Appends its text.
    fn put(&self, out: &mut Vec<u8>) -> Result<(), AllocError>
        ensures { Appends (text self.now) result out.old out.new };
}

/// Appends bytes as they are.
fn put_bytes(bytes: &[u8], out: &mut Vec<u8>) -> Result<(), AllocError>
    ensures { Appends bytes.now result out.old out.new }
{
    out.extend_from_slice(bytes)
}

/// Appends parts one after the other, and then bytes as they are.
#[tactic(auto, using(crate::proofs::LineTexts::line_texts))]
fn put_all<T: Put>(parts: &[T], end: &[u8], out: &mut Vec<u8>) -> Result<(), AllocError>
    ensures { Appends (flat_map T.text parts.now ++ end.now) result out.old out.new }
{
    for part in parts {
        part.put(out)?;
    }
    put_bytes(end, out)
}

/// A byte as it is printed: a question mark for a byte that would separate words or move a terminal's cursor.
fn shown_byte(byte: u8) -> u8
    ensures { result ≡ shown_byte byte }
{
    if byte <= 0x20 || byte == 0x7f {
        b'?'
    } else {
        byte
    }
}

/// A byte of a text.
impl Put for u8 {
    ghost text = { λ byte. shown_byte byte ∷ [] };

    fn put(&self, out: &mut Vec<u8>) -> Result<(), AllocError> {
        put_bytes(&[shown_byte(*self)], out)
    }
}

/// A number, after a tab.
impl Put for u64 {
    ghost text = { λ number. 9 ∷ decimal number };

    fn put(&self, out: &mut Vec<u8>) -> Result<(), AllocError> {
        put_bytes(b"\t", out)?;
        put_bytes(Buffer::new().format(*self).as_bytes(), out)
    }
}

/// A text, after a space.
impl Put for &[u8] {
    ghost text = { λ bytes. 32 ∷ shown bytes.now };

    fn put(&self, out: &mut Vec<u8>) -> Result<(), AllocError> {
        put_bytes(b" ", out)?;
        put_all(self, b"", out)
    }
}

impl Put for StatusRow<'_> {
    ghost text = { λ line. status_line (status_of line) };

    fn put(&self, out: &mut Vec<u8>) -> Result<(), AllocError> {
        put_all(self.name, b"", out)?;
        put_all(
            &[self.total, self.running, u64::from(self.workers)],
            b"\n",
            out,
        )
    }
}

/// The text, or a dash if it is empty.
fn or_dash(text: &[u8]) -> &[u8]
    ensures { shown result.now ≡ shown_or_dash text.now }
{
    if text.is_empty() { b"-" } else { text }
}

#[tactic(auto, using(crate::proofs::LineTexts::line_texts))]
impl Put for WorkerRow<'_> {
    ghost text = { λ line. worker_line (worker_of line) };

    fn put(&self, out: &mut Vec<u8>) -> Result<(), AllocError> {
        put_bytes(Buffer::new().format(self.slot).as_bytes(), out)?;
        put_all(&[or_dash(self.addr), or_dash(self.id)], b" :", out)?;
        put_all(self.functions.as_slice(), b"\n", out)
    }
}

/// Appends the lines of a list and the dot that ends it, or changes no byte.
pub(crate) fn write_list<T: Put>(lines: &[T], out: &mut Vec<u8>) -> Result<(), AllocError>
    ensures ok { OnOk result (out.new.items ≡ out.old.items ++ (flat_map T.text lines.now ++ dot)) }
    ensures err { OnErr result (out.new.items ≡ out.old.items) }
    ensures full { OnErr result (vec_capacity out.old < vec_len out.old + length (flat_map T.text lines.now ++ dot)) }
{
    let len = out.len();
    let written = put_all(lines, b".\n", out);
    if written.is_err() {
        out.truncate(len);
    }
    written
}
