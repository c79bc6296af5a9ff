// [01 Numbers] "Sign, then 0x, 0o, 0b or decimal."
ghost use Rattle.std.specs.Prelude.{◌≡◌};
ghost use Rattle.meaning.specs.Numbers.{sign_length, is_minus, base_by, radix_prefix};

use meaning::RadixPrefix;

// A sign at the front: whether it is a minus, and its bytes, 0 or 1.
#[derive(Clone, Copy)]
pub struct Sign {
    pub minus: bool,
    pub len: usize,
}

// The sign at the front of a text.
// Rules out: a plus that is no sign; a second sign eaten with the first (must-fail: off_by_one, one_more_taken).
pub fn split_sign(text: &[u8]) -> Sign
    ensures { (result.minus ≡ is_minus text.now) × (result.len ≡ sign_length text.now) }
{
    if text.len() == 0 {
        return Sign {
            minus: false,
            len: 0,
        };
    }
    let minus = text[0] == 45;
    if minus | (text[0] == 43) {
        return Sign {
            minus: minus,
            len: 1,
        };
    }
    Sign {
        minus: false,
        len: 0,
    }
}

// The base that the byte behind a 0 chooses, in either case.
pub(crate) fn base_by(byte: u8) -> u32
    ensures { result ≡ base_by byte }
{
    if (byte == 120) | (byte == 88) {
        return 16;
    }
    if (byte == 111) | (byte == 79) {
        return 8;
    }
    if (byte == 98) | (byte == 66) {
        return 2;
    }
    10
}

// The base that a text's first two bytes choose, and where the digits begin. It looks at no sign; without a prefix the base is ten and the digits
// begin at 0.
// Rules out: the letter of a prefix taken for a digit; a prefix behind another byte than 0 (must-fail: off_by_one, one_more_taken).
pub fn split_radix_prefix(text: &[u8]) -> RadixPrefix
    ensures { result ≡ radix_prefix text.now }
{
    if text.len() < 2 {
        return RadixPrefix { base: 10, start: 0 };
    }
    if text[0] != 48 {
        return RadixPrefix { base: 10, start: 0 };
    }
    let base = base_by(text[1]);
    if base == 10 {
        return RadixPrefix { base: 10, start: 0 };
    }
    RadixPrefix {
        base: base,
        start: 2,
    }
}
