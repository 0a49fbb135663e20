//! Walks over the words of a line.

ghost use Rattle.std.specs.Prelude.{◌≡◌, ◌≤◌, [], ◌∷◌, length, map, not, position, MatchOption};
ghost use Rattle.std.specs.Char.{to_ascii_lowercase};
ghost use Rattle.std.specs.List.{position_or_len};
ghost use Rattle.gm_admin.specs.Commands.{is_gap, is_word, words_of};

/// Whether a byte separates words.
fn is_gap(byte: u8) -> bool
    ensures { result ≡ is_gap byte }
{
    byte == b' ' || byte == b'\t'
}

/// The position of the first byte that is no gap.
fn word_at(bytes: &[u8]) -> Option<usize>
    ensures { result ≡ position (λ b. not (is_gap b)) bytes.now }
{
    bytes.iter().position(|b| !is_gap(*b))
}

/// The position of the first gap.
fn gap_at(bytes: &[u8]) -> Option<usize>
    ensures { result ≡ position is_gap bytes.now }
{
    bytes.iter().position(|b| is_gap(*b))
}

/// How many gaps come first.
fn gaps_len(bytes: &[u8]) -> usize
    ensures len { result ≡ position_or_len (λ b. not (is_gap b)) bytes.now }
    ensures bound { result ≤ length bytes.now }
{
    word_at(bytes).unwrap_or(bytes.len())
}

/// How many bytes come before the first gap.
fn run_len(bytes: &[u8]) -> usize
    ensures len { result ≡ position_or_len is_gap bytes.now }
    ensures bound { result ≤ length bytes.now }
{
    gap_at(bytes).unwrap_or(bytes.len())
}

/// The first word, and the bytes after it.
pub(crate) fn next_word(bytes: &[u8]) -> Option<(&[u8], &[u8])>
    ensures { MatchOption result (words_of bytes.now ≡ [])
        (λ found. words_of bytes.now ≡ found.0.now ∷ words_of found.1.now) }
{
    let run = &bytes[gaps_len(bytes)..];
    if run.is_empty() {
        return None;
    }
    let len = run_len(run);
    Some((&run[..len], &run[len..]))
}

/// Whether a word is this one, in any case of its ASCII letters.
pub(crate) fn is_word(word: &[u8], known: &[u8]) -> bool
    requires lower { map to_ascii_lowercase known.now ≡ known.now }
    ensures { result ≡ is_word word.now known.now }
{
    word.eq_ignore_ascii_case(known)
}
