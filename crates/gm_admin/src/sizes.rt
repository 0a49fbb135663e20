//! Reads the size that limits a queue.

ghost use Rattle.std.specs.Prelude.{◌≡◌, ◌^◌};
ghost use Rattle.gm_packet.specs.Decimals.{decimal_below};
ghost use Rattle.gm_admin.specs.Commands.{size_of};

use gm_packet::read_decimal;

/// The number that 1 to 10 decimal digits say, if it fits 32 bits.
fn number(digits: &[u8]) -> Option<u32>
    ensures { result ≡ decimal_below (2 ^ 32) 10 digits.now }
{
    u32::try_from(read_decimal(digits, 10)?).ok()
}

/// The size that a word says; 0, which is no limit, if a minus comes before the digits.
pub(crate) fn size(word: &[u8]) -> Option<u32>
    ensures { result ≡ size_of word.now }
{
    match word {
        [b'-', digits @ ..] => {
            number(digits)?;
            Some(0)
        }
        _ => number(word),
    }
}
