// What opens a segment.
ghost use Rattle.std.specs.Prelude.{◌≡◌, drop};
ghost use Rattle.meaning.specs.Cutting.{named, opening};
ghost use Rattle.cutting.specs.Openings.{is_letter_prefix};

use leaves::bytes::byte_at;
use leaves::names::is_mark;
use leaves::runs::{NameClass, run_len};

// E, N, B or X, in either case.
// Stays: no method of u8 tests these eight letters; its definition names them so, and | makes no branch of them.
fn is_letter_prefix(byte: u8) -> bool
    ensures { result ≡ is_letter_prefix byte }
{
    (byte == 69)
        | (byte == 101)
        | (byte == 78)
        | (byte == 110)
        | (byte == 66)
        | (byte == 98)
        | (byte == 88)
        | (byte == 120)
}

// The bytes of a name and a mark behind an introducer's _, with the _; 0 if they do not stand there.
// Stays: a number, as `named` is in the rules: what stands there is never empty, and in an Option `Some(0)` would mean nothing.
fn introducer_len(text: &[u8], at: usize) -> usize
    ensures { result ≡ named (drop at text.now) }
{
    let n = run_len(text, at, NameClass::Charset);
    if n == 0 {
        return 0;
    }
    if is_mark(byte_at(text, at + n)) {
        return n + 2;
    }
    0
}

// The bytes of the opening at a text's front, with its mark; 0 if no segment opens there.
// Stays: no Option: a public function that could not fail still can't, and `opening` in the rules is a number; no opening is empty.
// Rules out: a prefix before "; U without & (must-fail: other_mark, another_byte_taken).
pub fn opening_len(text: &[u8]) -> usize
    ensures { result ≡ opening text.now }
{
    if text.len() == 0 {
        return 0;
    }
    let first = text[0];
    if is_mark(first) {
        return 1;
    }
    if is_letter_prefix(first) {
        if byte_at(text, 1) == 39 {
            return 2;
        }
        return 0;
    }
    if (first == 85) | (first == 117) {
        if (byte_at(text, 1) == 38) & (byte_at(text, 2) == 39) {
            return 3;
        }
        return 0;
    }
    if first == 95 {
        return introducer_len(text, 1);
    }
    0
}
