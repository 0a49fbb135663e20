//! Walks through the data of a request, for each shape of arguments.

ghost use Rattle.std.specs.Prelude.{◌≡◌, ◌≤◌, ◌==◌, [], ◌∷◌, true, false, IfSome, length, position};
ghost use Rattle.std.specs.Option.{option_map, option_and_then};
ghost use Rattle.std.specs.Io.BufRead.{strip_last};
ghost use Rattle.gm_packet.specs.Packets.{has_nul};
ghost use Rattle.gm_packet.specs.Requests.{cut, parts, seconds_of, with_timeout, arguments_of};
ghost use Rattle.gm_packet.specs.Kinds.{Empty};

use crate::decimal::read_decimal;

/// Whether a text holds NUL.
pub(crate) fn has_nul(text: &[u8]) -> bool
    ensures { result ≡ has_nul text.now }
{
    text.contains(&0)
}

/// The position of the first NUL.
fn nul_at(bytes: &[u8]) -> Option<usize>
    ensures { result ≡ position (λ b. b == 0) bytes.now }
{
    bytes.iter().position(|b| *b == 0)
}

/// The bytes before the first NUL, and those after it.
#[tactic(auto, using(crate::proofs::Cuts::cuts))]
pub(crate) fn cut(bytes: &[u8]) -> Option<(&[u8], &[u8])>
    ensures value { option_map (λ x. (x.0.now, x.1.now)) result ≡ cut bytes.now }
    ensures within { IfSome result (λ x. length x.0.now ≤ length bytes.now) }
{
    let at = nul_at(bytes)?;
    Some((&bytes[..at], &bytes[at + 1..]))
}

/// The data without the one NUL that may be their last byte.
pub fn stripped(bytes: &[u8]) -> &[u8]
    ensures value { result.now ≡ strip_last 0 bytes.now }
    ensures within { length result.now ≤ length bytes.now }
{
    match bytes {
        [start @ .., 0] => start,
        _ => bytes,
    }
}

/// No argument: the data are empty.
pub(crate) fn no_argument(bytes: &[u8]) -> Option<()>
    ensures { option_map (λ _. ([], 0)) result ≡ arguments_of Empty bytes.now }
{
    match bytes {
        [] => Some(()),
        _ => None,
    }
}

/// One argument without NUL.
pub(crate) fn one_plain(bytes: &[u8]) -> Option<&[u8]>
    ensures { option_map (λ x. x.now ∷ []) result ≡ parts has_nul 0 (strip_last 0 bytes.now) }
{
    let only = stripped(bytes);
    if has_nul(only) { None } else { Some(only) }
}

/// Three arguments without NUL.
pub(crate) fn three_plain(bytes: &[u8]) -> Option<(&[u8], &[u8], &[u8])>
    ensures { option_map (λ x. x.0.now ∷ x.1.now ∷ x.2.now ∷ []) result ≡ parts has_nul 2 (strip_last 0 bytes.now) }
{
    let (first, rest) = cut(stripped(bytes))?;
    let (second, last) = cut(rest)?;
    if has_nul(last) {
        None
    } else {
        Some((first, second, last))
    }
}

/// An argument without NUL, and then any bytes.
pub(crate) fn two_opaque(bytes: &[u8]) -> Option<(&[u8], &[u8])>
    ensures { option_map (λ x. x.0.now ∷ x.1.now ∷ []) result ≡ parts (λ _. false) 1 bytes.now }
{
    cut(bytes)
}

/// Two arguments without NUL, and then any bytes.
pub(crate) fn three_opaque(bytes: &[u8]) -> Option<(&[u8], &[u8], &[u8])>
    ensures { option_map (λ x. x.0.now ∷ x.1.now ∷ x.2.now ∷ []) result ≡ parts (λ _. false) 2 bytes.now }
{
    let (first, rest) = cut(bytes)?;
    let (second, last) = cut(rest)?;
    Some((first, second, last))
}

/// The number that a time limit of 1 to 10 decimal digits says, if it fits 32 bits.
pub fn read_timeout(digits: &[u8]) -> Option<u32>
    ensures { result ≡ seconds_of digits.now }
{
    u32::try_from(read_decimal(digits, 10)?).ok()
}

/// A function and the text of its time limit, in the data of a CAN_DO_TIMEOUT: what is before the first NUL, and what
/// is after it.
pub fn function_and_limit(bytes: &[u8]) -> Option<(&[u8], &[u8])>
    ensures value { option_map (λ x. (x.0.now, x.1.now)) result ≡ cut (strip_last 0 bytes.now) }
    ensures within { IfSome result (λ x. length x.0.now ≤ length bytes.now) }
{
    cut(stripped(bytes))
}

/// A function and a timeout.
pub(crate) fn function_and_timeout(bytes: &[u8]) -> Option<(&[u8], u32)>
    ensures { option_map (λ x. (x.0.now ∷ [], x.1)) result ≡ option_and_then with_timeout (parts (λ _. false) 1 (strip_last 0 bytes.now)) }
{
    let (function, digits) = function_and_limit(bytes)?;
    let timeout = read_timeout(digits)?;
    Some((function, timeout))
}
