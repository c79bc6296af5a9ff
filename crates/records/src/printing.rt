// Numbers in decimal, at the end of a buffer of 21 bytes.
ghost use Rattle.std.specs.Prelude.{◌≡◌};
ghost use Rattle.meaning.specs.Numbers.{digits_of};
ghost use Rattle.records.specs.Adding.{EndsIn};

// Digits from the end back; tells where they begin, which is behind the first byte.
// Stays: Display writes to a Formatter, and these digits end a lent buffer (`EndsIn`).
// Rules out: the digits before the last by another base (must-fail: other_digits).
pub(crate) fn print_number(value: u64, digits: &mut [u8; 21]) -> usize
    ensures { EndsIn (digits_of value) 1 result digits.new }
{
    let mut i: usize = 20;
    let mut left = value;
    // Stays: how many digits there are is known only behind the last, so that a `for` would need a test and a break in each turn.
    while 10 <= left {
        digits[i] = b'0' + (left % 10) as u8;
        left /= 10;
        i -= 1;
    }
    digits[i] = b'0' + left as u8;
    i
}
