// The words behind a program's name: what they ask for. Each is ended by a 0 byte, and they stand one behind the other.
#![tactic(auto)]

ghost use Rattle.std.specs.Prelude.{◌≡◌};
ghost use Rattle.words.specs.Ending.{asked_of};

#[derive(Clone, Copy)]
pub enum Asked {
    // no word: the program's work
    Work,
    // the one word --help
    Help,
    Other,
}

// What words ask for.
// Rules out: any six letters taken for --help; --help taken with an empty word behind it alone; no word taken for a wrong one
// (must-fail: any_word_taken, word_behind_taken, no_word_refused).
pub fn asked_by(words: &[u8]) -> Asked
    ensures { result ≡ asked_of words.now }
{
    if words.is_empty() {
        return Asked::Work;
    }
    if words == b"--help\0".as_slice() {
        return Asked::Help;
    }
    Asked::Other
}
