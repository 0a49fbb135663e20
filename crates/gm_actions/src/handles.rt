//! The handles of jobs.

ghost use Rattle.std.specs.Prelude.{◌≡◌, ◌≢◌, ℕ, ◌<◌, ◌≤◌, ◌^◌, ◌++◌, IfOk, IfSome, MatchOption, codes, decimal, length, false, List};
ghost use Rattle.gm_packet.specs.Packets.{has_nul};
ghost use Rattle.gm_notes.specs.Jobs.{handle};

use gm_notes::Config;
use itoa::Buffer;
use std::alloc::{AllocError, Global};
use std::str;

/// The handle of a job: `H:NAME:NUMBER`.
pub fn handle(alloc: Global, config: &Config, job: u64) -> Result<Vec<u8>, AllocError>
    ensures value { IfOk result (λ text. text.items ≡ handle config.now job) }
    ensures plain { IfOk result (λ text. has_nul text.items ≡ false) }
    ensures short { IfOk result (λ text. length text.items ≤ 64) }
{
    let mut buffer = Buffer::new();
    let mut text = Vec::with_capacity(alloc, 64)?;
    text.extend_from_slice(b"H:")?;
    text.extend_from_slice(config.name())?;
    text.extend_from_slice(b":")?;
    text.extend_from_slice(buffer.format(job).as_bytes())?;
    Ok(text)
}

/// The rest of a text after this head, if the text begins so.
fn behind<'a>(text: &'a [u8], head: &[u8]) -> Option<&'a [u8]>
    ensures { MatchOption result ((rest : List ℕ) → text.now ≢ head.now ++ rest) (λ rest. text.now ≡ head.now ++ rest.now) }
{
    if text.len() < head.len() {
        return None;
    }
    let (start, rest) = text.split_at(head.len());
    if start == head { Some(rest) } else { None }
}

/// The digits of a handle, if a text begins as one.
fn digits_of<'a>(config: &Config, text: &'a [u8]) -> Option<&'a [u8]>
    ensures { MatchOption result ((n : ℕ) → text.now ≢ handle config.now n) (λ rest. text.now ≡ (codes "H:" ++ config.now.name ++ codes ":") ++ rest.now) }
{
    let Some(named) = behind(text, b"H:") else {
        return None;
    };
    let Some(rest) = behind(named, config.name()) else {
        return None;
    };
    behind(rest, b":")
}

/// The number that digits are, if they are written as in a handle.
fn number_of(digits: &[u8]) -> Option<u64>
    ensures { MatchOption result ((n : ℕ) → n < 2 ^ 64 → digits.now ≢ decimal n) (λ n. digits.now ≡ decimal n) }
{
    let Ok(text) = str::from_utf8(digits) else {
        return None;
    };
    let Ok(number) = text.parse::<u64>() else {
        return None;
    };
    let mut buffer = Buffer::new();
    if buffer.format(number).as_bytes() == digits {
        Some(number)
    } else {
        None
    }
}

/// The number in a handle; none if the text isn't a handle.
pub fn number_in(config: &Config, text: &[u8]) -> Option<u64>
    ensures value { MatchOption result ((n : ℕ) → n < 2 ^ 64 → text.now ≢ handle config.now n) (λ n. text.now ≡ handle config.now n) }
    ensures small { IfSome result (λ n. n < 2 ^ 64) }
{
    match digits_of(config, text) {
        Some(digits) => number_of(digits),
        None => None,
    }
}
