// The digits of a body, and the letters before the first one.
ghost use Rattle.std.specs.Prelude.{◌≡◌};
ghost use Rattle.meaning.specs.Bytes.{ascii, has, all_digits};

use leaves::digits::is_radix_digit;

// B or X, in either case.
// Stays: no method of u8 tests these four letters; the clause names them so, and | makes no branch of them.
// Rules out: O taken for X; a letter in one case only (must-fail: later_prefix_accepted, one_left_out).
pub(crate) fn is_bit_letter(byte: u8) -> bool
    ensures { result ≡ has byte (ascii "BbXx") }
{
    (byte == 66) | (byte == 98) | (byte == 88) | (byte == 120)
}

// Whether every byte is a digit of a base.
// Rules out: the first byte not asked, or asked for each (must-fail: digit_passed_over, digit_read_twice).
pub(crate) fn are_digits(bytes: &[u8], base: u8) -> bool
    ensures { result ≡ all_digits base bytes.now }
{
    bytes.iter().all(|byte| is_radix_digit(*byte, base))
}
