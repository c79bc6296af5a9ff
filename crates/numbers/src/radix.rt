// [01 Numbers] "two 64-bit halves": digits of base 2, 8 or 16, with "`_` only between two digits of the base", as a number of 128 bits.
ghost use Rattle.std.specs.Prelude.{◌≡◌, false, ◌≤◌, ◌<◌, ◌^◌};
ghost use Rattle.numbers.specs.Values.{digits_from, wide_of, radix_by};

use leaves::digits::hex_value;

// The two halves of a number of 128 bits.
#[derive(Clone, Copy)]
pub struct Halves {
    pub hi: u64,
    pub lo: u64,
}

// The number that digits of so many bits each make, with `_` between two of them. None: no digit, another byte, `_` at an end or beside `_`, a number that
// 128 bits do not hold.
// Rules out: bits pushed out of the high half (must-fail: off_by_one).
fn read_halves<const BITS: u64>(text: &[u8]) -> Option<Halves>
    requires { (0 < BITS) × (BITS ≤ 4) }
    ensures { result ≡ wide_of (digits_from (2 ^ BITS) 0 false text.now) }
{
    let base: u64 = 1 << BITS;
    let keep = 64 - BITS;
    let mut hi: u64 = 0;
    let mut lo: u64 = 0;
    let mut behind = false;
    for byte in text {
        let digit = hex_value(*byte) as u64;
        if digit < base {
            let lost = hi >> keep;
            if lost != 0 {
                return None;
            }
            hi = hi * base + (lo >> keep);
            lo = (lo << BITS) + digit;
            behind = true;
        } else if (*byte == 95) & behind {
            behind = false;
        } else {
            return None;
        }
    }
    if behind {
        Some(Halves { hi, lo })
    } else {
        None
    }
}

// The number that digits of base 16, 8 or 2 make, with `_` between two of them; any other base is taken for 2. None: a text that is no such digits, and a
// number that 128 bits do not hold.
// Rules out: octal read as hex; binary digits of two bits (must-fail: one_more_taken, prefix_or_digit_mistaken).
pub fn read_radix_digits(text: &[u8], base: u32) -> Option<Halves>
    ensures { result ≡ wide_of (digits_from (radix_by base) 0 false text.now) }
{
    if base == 16 {
        return read_halves::<4>(text);
    }
    if base == 8 {
        return read_halves::<3>(text);
    }
    read_halves::<1>(text)
}
