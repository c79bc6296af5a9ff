// The UTF-8 check of a slice: plain ASCII by one scan, anything else by places, or by std where it is short; and a byte at a time where a text may end
// inside a character.
ghost use Rattle.std.specs.Prelude.{◌≡◌, not, ◌&&◌};
ghost use Rattle.meaning.specs.Bytes.{has};
ghost use Rattle.meaning.specs.Chars.{pushes, utf8};
ghost use Rattle.utf8.specs.Tails.{due_of};

use crate::ascii::is_plain_run;
use crate::places::is_text;
use crate::tail::{Utf8Tail, utf8_tail_push};
use leaves::blocks::{Stops, is_free};

// What a text with no NUL is free of.
const NUL: Stops = Stops {
    first: 0,
    second: 0,
    third: 0,
};

// The state behind all bytes of a slice, one after the other.
// Rules out: the first byte passed over; the state before the slice lost (must-fail: all_accepted, state_before_lost).
pub fn utf8_from(tail: Utf8Tail, bytes: &[u8]) -> Utf8Tail
    ensures { due_of result ≡ pushes (due_of tail) bytes.now }
{
    let mut state = tail;
    for byte in bytes {
        state = utf8_tail_push(state, *byte);
    }
    state
}

// Whether a slice is UTF-8, by std, a character at a time: the quickest way for few bytes.
// Stays: `is_ok` is no plainer: std's clause of each case is about the arm, and with `is_ok` it would have to be asked for again.
fn is_short_text(bytes: &[u8]) -> bool
    ensures { result ≡ utf8 bytes.now }
{
    match std::str::from_utf8(bytes) {
        Ok(_) => true,
        Err(_) => false,
    }
}

// Whether a slice is UTF-8.
// Stays: short texts not by std: that takes 64 bytes of stack, and with it the decimal question would take more than its 168.
// Rules out: all accepted; a text with a NUL refused (must-fail: all_accepted, all_refused).
pub fn is_utf8(bytes: &[u8]) -> bool
    ensures { result ≡ utf8 bytes.now }
{
    if is_plain_run(bytes, 0, 0) {
        return true;
    }
    is_text(bytes, 0)
}

// Whether a slice is UTF-8 and holds no NUL. It isn't asked first whether all is ASCII: who expects that asks for it.
// Rules out: a NUL not seen; other bytes refused as NUL is (must-fail: all_accepted, all_refused).
pub fn is_clean(bytes: &[u8]) -> bool
    ensures { result ≡ (utf8 bytes.now && not (has 0 bytes.now)) }
{
    if bytes.len() < 19 {
        return is_short_text(bytes) && is_free(bytes, NUL);
    }
    is_text(bytes, 1)
}
