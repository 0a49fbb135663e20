//! A law of the program's arguments. The function's body does nothing, and its contract is the law.

ghost use Rattle.gm_options.specs.Words.{WordsAreReadAlike};

/// Two readings of the same words ask for the same settings: port, address, name, limits, timeouts and threads, and
/// whether there is a tape.
pub fn words_are_read_alike()
    ensures { WordsAreReadAlike }
{}
