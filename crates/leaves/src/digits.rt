// [01 One segment; Numbers] Digits in either case.
ghost use Rattle.std.specs.Prelude.{◌≡◌, nat_lt};
ghost use Rattle.meaning.specs.Bytes.{digit};
ghost use Rattle.leaves.specs.Digits.{capped};

// The digit that a byte is, 0 to 15; 16 or more if it is none. One choice between two sums, so that digits and letters in any order are read at one pace.
// Stays: `hex_value`, its one caller, promises `digit`, a number with 16 for none; none as a case of its own would be a second choice.
// Rules out: a to f read in one case only; A to F off by one (must-fail: some_left_out, limit_off_by_one).
fn loose_digit(byte: u8) -> u8
    ensures { capped result ≡ digit byte }
{
    if byte <= 57 {
        return byte.wrapping_sub(48);
    }
    let past = byte.wrapping_sub(65);
    past / 64 * 64 + past % 32 + 10
}

// The digit that a byte is, 0 to 15; 16 if it is none: below a base it is a digit of it.
// Stays: no Option: a public function that could not fail still can't, and its clause is `digit byte`, 16 for none.
// Rules out: f taken for none; another number told for none (must-fail: other_bytes, another_number).
pub fn hex_value(byte: u8) -> u8
    ensures { result ≡ digit byte }
{
    let digit = loose_digit(byte);
    if digit < 16 {
        return digit;
    }
    16
}

// Whether a byte is a digit of a base.
// Rules out: the base taken for a digit; every base taken for hex (must-fail: too_much_taken, one_for_another).
pub fn is_radix_digit(byte: u8, base: u8) -> bool
    ensures { result ≡ nat_lt (digit byte) base }
{
    hex_value(byte) < base
}
