// [01 Numbers] "i64: Rust's parse; with a radix the value behind the first sign must fit before negation, and the result after it."
ghost use Rattle.std.specs.Prelude.{◌≡◌, neg_ℤ};
ghost use Rattle.meaning.specs.Numbers.{int, sign_length, is_minus, signed, within_bits, i64_of, negated_by};
ghost use Rattle.numbers.specs.Values.{int64_of, parsed_apart, radix_by};

use crate::digits::{read_digits, read_short};
use crate::prefix::{split_radix_prefix, split_sign};
use crate::radix::{Halves, read_radix_digits};

// The number with this sign and this magnitude, if 64 bits hold it.
// Rules out: 2^63 accepted; -2^63 - 1 accepted; 2^63 - 1 refused; -2^63 refused (must-fail: off_by_one, one_more_taken, greatest_refused, least_refused).
fn with_sign(minus: bool, magnitude: u64) -> Option<i64>
    ensures { result ≡ int64_of (within_bits 63 (int (signed minus magnitude))) }
{
    if minus {
        if magnitude == 0 {
            return Some(0);
        }
        if magnitude <= 0x8000_0000_0000_0000 {
            return Some(-1 - ((magnitude - 1) as i64));
        }
        return None;
    }
    if magnitude < 0x8000_0000_0000_0000 {
        return Some(magnitude as i64);
    }
    None
}

// The negation, if 64 bits hold it.
// Rules out: -2^63 negated.
fn negated(value: i64) -> Option<i64>
    ensures { result ≡ int64_of (within_bits 63 (int (neg_ℤ value))) }
{
    if value == -9223372036854775808 {
        return None;
    }
    Some(0 - value)
}

// A sign or none, then digits of base ten with `_` between two of them.
fn read_ten(text: &[u8]) -> Option<i64>
    ensures { result ≡ int64_of (parsed_apart 63 10 text.now) }
{
    let sign = split_sign(text);
    let start = sign.len;
    let magnitude = read_digits(&text[start..])?;
    with_sign(sign.minus, magnitude)
}

// A sign or none, then digits of base 2, 8 or 16 with `_` between two of them. A number with a high half no sign makes fit.
fn read_signed(text: &[u8], base: u32) -> Option<i64>
    requires { radix_by base ≡ base }
    ensures { result ≡ int64_of (parsed_apart 63 base text.now) }
{
    let sign = split_sign(text);
    let start = sign.len;
    let Some(Halves { hi, lo }) = read_radix_digits(&text[start..], base) else {
        return None;
    };
    if hi != 0 {
        return None;
    }
    with_sign(sign.minus, lo)
}

// The body behind a radix prefix, with the sign before the prefix put to it.
fn read_radix(minus: bool, body: &[u8], base: u32) -> Option<i64>
    requires { radix_by base ≡ base }
    ensures { result ≡ int64_of (within_bits 63 (negated_by minus (parsed_apart 63 base body.now))) }
{
    let value = read_signed(body, base)?;
    if minus { negated(value) } else { Some(value) }
}

// The i64 that a text spells, whatever it looks like: in base ten a sign or none and digits; else a sign or none, a radix prefix, a second sign or none
// and digits.
// Rules out: a second sign in base ten; a second sign behind a prefix passed over; the first sign not put to a radix value.
fn read_spelled(text: &[u8]) -> Option<i64>
    ensures { result ≡ int64_of (i64_of text.now) }
{
    let sign = split_sign(text);
    let start = sign.len;
    let rest = &text[start..];
    let prefix = split_radix_prefix(rest);
    let base = prefix.base;
    if base == 10 {
        return read_ten(text);
    }
    read_radix(sign.minus, &rest[2..], base)
}

// A text without a sign: digits alone, the common case, are read by a loop of their own.
fn read_unsigned(text: &[u8]) -> Option<i64>
    ensures { result ≡ int64_of (i64_of text.now) }
{
    match read_short(text) {
        Some(magnitude) => with_sign(false, magnitude),
        None => read_spelled(text),
    }
}

// A sign, then digits alone, or what else there is behind it.
fn read_behind_sign(minus: bool, text: &[u8]) -> Option<i64>
    requires { (minus ≡ is_minus text.now) × (sign_length text.now ≡ 1) }
    ensures { result ≡ int64_of (i64_of text.now) }
{
    match read_short(&text[1..]) {
        Some(magnitude) => with_sign(minus, magnitude),
        None => read_spelled(text),
    }
}

// The i64 that a text spells. Refused: a text that spells no number, and what 64 bits do not hold.
// Rules out: limits off by one; a text that is not digits alone read as such (must-fail: sign_for_a_digit, sign_passed_over).
pub fn read_i64(text: &[u8]) -> Option<i64>
    ensures { result ≡ int64_of (i64_of text.now) }
{
    let sign = split_sign(text);
    if sign.len == 0 {
        return read_unsigned(text);
    }
    read_behind_sign(sign.minus, text)
}
