//! The orders in the lines of a script.

ghost use Rattle.std.specs.Prelude.{◌≡◌, ◌^◌, ◌<◌, ◌==◌, true, ◌∷◌, length, position, IfOk, MatchOption};
ghost use Rattle.std.specs.Char.{digit_value};
ghost use Rattle.std.specs.Option.{option_map};
ghost use Rattle.gm_play.specs.Scripts.{words_of, slot_of, hex_byte, hex_bytes, piece_of, order_of_two, order_of_three, order_of};
ghost use Rattle.gm_play.specs.Orders.{cut, SaysDigit, IsReading, order_view};

use gm_packet::read_decimal;
use std::alloc::{AllocError, Global};

/// The order in a line.
#[derive(Drop)]
pub enum Order<'a> {
    /// Nothing: the line is empty or a remark.
    Skip,
    /// The line isn't understood.
    Bad,
    /// A connection from this address.
    Open { addr: &'a [u8] },
    /// These bytes, to this slot.
    Bytes { slot: u32, piece: Vec<u8> },
    /// The connection in this slot closes.
    Close { slot: u32 },
    /// It is this moment.
    Tick { now: u64 },
}

/// The words of a line, if there are as many as some order has.
#[derive(Clone, Copy)]
enum Words<'a> {
    Two(&'a [u8], &'a [u8]),
    Three(&'a [u8], &'a [u8], &'a [u8]),
    Other,
}

/// Where a byte occurs first.
fn place_of(bytes: &[u8], at: u8) -> Option<usize>
    ensures { result ≡ position (λ b. b == at) bytes.now }
{
    bytes.iter().position(|b| *b == at)
}

/// The bytes before the first that is this one, and those after it.
#[tactic(auto, using(crate::proofs::Cuts::cuts_rules))]
pub fn cut(bytes: &[u8], at: u8) -> Option<(&[u8], &[u8])>
    ensures { option_map (λ x. (x.0.now, x.1.now)) result ≡ cut at bytes.now }
{
    let place = place_of(bytes, at)?;
    Some((&bytes[..place], &bytes[place + 1..]))
}

/// The words of a line.
fn words_of(line: &[u8]) -> Words<'_>
    ensures { IsReading line.now result }
{
    let Some((first, rest)) = cut(line, b' ') else {
        return Words::Other;
    };
    let Some((second, third)) = cut(rest, b' ') else {
        return Words::Two(first, rest);
    };
    match cut(third, b' ') {
        None => Words::Three(first, second, third),
        Some(_) => Words::Other,
    }
}

/// The slot that 1 to 10 decimal digits say, if it fits 32 bits.
fn slot_of(word: &[u8]) -> Option<u32>
    ensures { result ≡ slot_of word.now }
{
    u32::try_from(read_decimal(word, 10)?).ok()
}

/// The value of a hexadecimal digit of either case.
fn digit_of(byte: u8) -> Option<u8>
    ensures { SaysDigit byte result }
{
    match byte {
        b'0'..=b'9' => Some(byte - b'0'),
        b'A'..=b'F' => Some(byte - b'A' + 10),
        b'a'..=b'f' => Some(byte - b'a' + 10),
        _ => None,
    }
}

/// The byte that two hexadecimal digits say, the greater first.
fn byte_of(high: u8, low: u8) -> Option<u8>
    ensures { result ≡ hex_byte high low }
{
    let high = digit_of(high)?;
    let low = digit_of(low)?;
    Some(16 * high + low)
}

/// The first two bytes, and those after them.
fn first_two(text: &[u8]) -> Option<(u8, u8, &[u8])>
    ensures { MatchOption result (length text.now < 2) (λ found. text.now ≡ found.0 ∷ found.1 ∷ found.2.now) }
{
    match text {
        [first, second, rest @ ..] => Some((*first, *second, rest)),
        _ => None,
    }
}

/// The bytes that a text of two hexadecimal digits each says.
fn hex_bytes(alloc: Global, text: &[u8]) -> Result<Option<Vec<u8>>, AllocError>
    ensures { IfOk result (λ found. option_map (λ bytes. bytes.items) found ≡ hex_bytes text.now) }
{
    let mut bytes = Vec::new(alloc);
    let mut rest = text;
    while let Some((high, low, after)) = first_two(rest) {
        let Some(byte) = byte_of(high, low) else {
            return Ok(None);
        };
        bytes.push(byte)?;
        rest = after;
    }
    Ok(if rest.is_empty() { Some(bytes) } else { None })
}

/// The piece that a word says: one byte or more.
fn piece_of(alloc: Global, word: &[u8]) -> Result<Option<Vec<u8>>, AllocError>
    ensures { IfOk result (λ found. option_map (λ bytes. bytes.items) found ≡ piece_of word.now) }
{
    if word.is_empty() {
        return Ok(None);
    }
    hex_bytes(alloc, word)
}

/// The order of two words.
fn order_of_two<'a>(verb: &[u8], word: &'a [u8]) -> Order<'a>
    ensures { order_view result ≡ order_of_two verb.now word.now }
{
    if verb == b"open".as_slice() && !word.is_empty() {
        return Order::Open { addr: word };
    }
    if verb == b"close".as_slice() {
        return match slot_of(word) {
            Some(slot) => Order::Close { slot },
            None => Order::Bad,
        };
    }
    if verb != b"tick".as_slice() {
        return Order::Bad;
    }
    match read_decimal(word, 20) {
        Some(now) => Order::Tick { now },
        None => Order::Bad,
    }
}

/// The order of three words.
fn order_of_three(
    alloc: Global,
    verb: &[u8],
    slot: &[u8],
    piece: &[u8],
) -> Result<Order<'static>, AllocError>
    ensures { IfOk result (λ order. order_view order ≡ order_of_three verb.now slot.now piece.now) }
{
    if verb != b"bytes".as_slice() {
        return Ok(Order::Bad);
    }
    let Some(slot) = slot_of(slot) else {
        return Ok(Order::Bad);
    };
    match piece_of(alloc, piece)? {
        None => Ok(Order::Bad),
        Some(piece) => Ok(Order::Bytes { slot, piece }),
    }
}

/// The order in a line.
pub fn order_of(alloc: Global, line: &[u8]) -> Result<Order<'_>, AllocError>
    ensures { IfOk result (λ order. order_view order ≡ order_of line.now) }
{
    if matches!(line, [] | [b'#', ..]) {
        return Ok(Order::Skip);
    }
    match words_of(line) {
        Words::Two(verb, addr) => Ok(order_of_two(verb, addr)),
        Words::Three(verb, slot, piece) => order_of_three(alloc, verb, slot, piece),
        Words::Other => Ok(Order::Bad),
    }
}
