//! The data of a packet, and their owners.

ghost use Rattle.std.specs.Prelude.{◌≡◌, IfSome};
ghost use Rattle.std.specs.Option.{ForSome, unwrap_or};
ghost use Rattle.gm_bytes.specs.Endings.{EndsIn};

use crate::shared_bytes::SharedBytes;
use std::alloc::Global;
use std::fmt;
use std::fmt::{Debug, Formatter, Write};

/// The fewest bytes of data that are shared, and not copied each time that they are kept or passed on.
pub const LONG: usize = 65_536;

/// Bytes that are lent: the data of a packet, or the end of them. If they lie in a buffer with several owners, code
/// that keeps them or passes them on can own it as well, and copies no byte. Contracts see the bytes.
#[derive(Clone, Copy)]
pub struct Data<'a> {
    bytes: &'a [u8],
    whole: Option<&'a SharedBytes>,
    ghost ends: { ForSome whole (λ whole. EndsIn bytes.now whole.now) },
}

impl<'a> Data<'a> {
    /// Bytes that have one owner.
    pub fn lent(bytes: &'a [u8]) -> Data<'a>
        ensures { result.bytes.now ≡ bytes.now }
    {
        Data { bytes, whole: None }
    }

    /// All of these.
    pub fn shared(whole: &'a SharedBytes) -> Data<'a>
        ensures { result.bytes.now ≡ whole.now }
    {
        Data {
            bytes: whole.as_slice(),
            whole: Some(whole),
        }
    }

    /// The bytes.
    pub fn as_slice(&self) -> &'a [u8]
        ensures { result.now ≡ self.now.bytes.now }
    {
        self.bytes
    }

    /// This text, which is the end of them.
    pub fn suffix(&self, text: &'a [u8]) -> Data<'a>
        requires { EndsIn text.now self.now.bytes.now }
        ensures { result.bytes.now ≡ text.now }
    {
        Data {
            bytes: text,
            whole: self.whole,
        }
    }

    /// One owner more of the buffer in which they lie; none if it has one owner, or as many as it may have.
    pub fn share(&self) -> Option<SharedBytes>
        ensures { IfSome result (λ shared. shared ≡ self.now.bytes.now) }
    {
        let whole = self.whole?;
        let from = whole.as_slice().len().checked_sub(self.bytes.len())?;
        whole.suffix(from).ok()
    }

    /// Shares the buffer if it can; otherwise returns the bytes to copy.
    pub fn keep(&self) -> (Option<SharedBytes>, &'a [u8])
        ensures { unwrap_or result.0 result.1.now ≡ self.now.bytes.now }
    {
        match self.share() {
            Some(shared) => (Some(shared), &[]),
            None => (None, self.bytes),
        }
    }

    /// A copy of them that can have several owners, if they are long and can't be shared; none without memory.
    pub fn copy_long(&self, alloc: Global) -> Option<SharedBytes>
        ensures { IfSome result (λ copy. copy ≡ self.now.bytes.now) }
    {
        if self.whole.is_some() || self.bytes.len() < LONG {
            return None;
        }
        let copy = Vec::from_slice(alloc, self.bytes).ok()?;
        SharedBytes::new(alloc, copy).ok()
    }
}

impl<'a> Debug for Data<'a> {
    fn fmt<W: Write>(&self, f: &mut Formatter<W>) -> Result<(), fmt::Error> {
        self.bytes.fmt(f)
    }
}
