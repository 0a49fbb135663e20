//! Reads decimal numbers.

ghost use Rattle.std.specs.Prelude.{◌≡◌, ◌^◌};
ghost use Rattle.std.specs.Char.{is_ascii_digit};
ghost use Rattle.std.specs.List.{list_all};
ghost use Rattle.gm_packet.specs.Decimals.{decimal_below};

use std::str;

// Whether each byte is a decimal digit.
fn are_digits(text: &[u8]) -> bool
    ensures { result ≡ list_all is_ascii_digit text.now }
{
    text.iter().all(|b| b.is_ascii_digit())
}

/// The number that a text of decimal digits says: from 1 to `most_digits` ASCII digits, with no sign and no
/// other byte, whose value fits 64 bits. It takes no memory.
pub fn read_decimal(digits: &[u8], most_digits: usize) -> Option<u64>
    ensures { result ≡ decimal_below (2 ^ 64) most_digits digits.now }
{
    if digits.len() > most_digits || !are_digits(digits) {
        return None;
    }
    let text = str::from_utf8(digits).ok()?;
    text.parse().ok()
}
