// [01 Numbers] Digits of base ten: the text that is nothing else, and digits with "`_` only between two digits of the base".
ghost use Rattle.std.specs.Prelude.{◌≡◌, false};
ghost use Rattle.numbers.specs.Values.{digits_from, magnitude_of, short_of};

use leaves::digits::hex_value;

// The number of a text that is 1 to 19 digits and nothing else: no step can wrap, so none is tested. Any other text is refused here, whatever it means.
// Rules out: twenty digits let in; a byte that is no digit let in (must-fail: off_by_one, one_more_taken).
pub(crate) fn read_short(text: &[u8]) -> Option<u64>
    ensures { result ≡ short_of text.now }
{
    if (text.len() == 0) | (19 < text.len()) {
        return None;
    }
    let mut value: u64 = 0;
    for byte in text {
        let digit = hex_value(*byte) as u64;
        if 10 <= digit {
            return None;
        }
        value = value * 10 + digit;
    }
    Some(value)
}

// The number that digits make, with `_` between two of them, if it is 9223372036854775809 or less, so that what is refused no sign makes fit. Refused
// too: no digit, another byte, `_` at an end or beside `_`. One pass: the limit is tested before each step.
// Rules out: `_` before the first digit; two in a row; a limit that comes a digit too early.
pub(crate) fn read_digits(text: &[u8]) -> Option<u64>
    ensures { result ≡ magnitude_of 9223372036854775810 (digits_from 10 0 false text.now) }
{
    let mut value: u64 = 0;
    let mut behind = false;
    for byte in text {
        let digit = hex_value(*byte) as u64;
        if digit < 10 {
            if 922337203685477581 <= value {
                return None;
            }
            value = value * 10 + digit;
            behind = true;
        } else if (*byte == 95) & behind {
            behind = false;
        } else {
            return None;
        }
    }
    if behind { Some(value) } else { None }
}
