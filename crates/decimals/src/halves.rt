// [01 Numbers] "two 64-bit halves whose negation wraps": numbers of 128 bits behind a radix prefix.
ghost use Rattle.std.specs.Prelude.{◌≡◌};
ghost use Rattle.meaning.specs.Numbers.{int, signed, within_bits, negated_by};
ghost use Rattle.meaning.specs.Halves.{joined_halves, negated_low, negated_high};
ghost use Rattle.numbers.specs.Values.{parsed_apart, radix_by, in_halves};
ghost use Rattle.decimals.specs.SignedHalves.{halves_of, negated_halves};

use numbers::prefix::split_sign;
use numbers::radix::{Halves, read_radix_digits};

// The low half of the negation, which wraps.
// Rules out: the complement less one (must-fail: digits_mistaken).
fn negated_low(lo: u64) -> u64
    ensures { result ≡ negated_low lo }
{
    0u64.wrapping_sub(lo)
}

// The high half of the negation, which wraps, and which the low half borrows from unless it is zero.
// Rules out: no carry into the high half; one by a low half of zero (must-fail: no_carry_into_high, digits_mistaken).
fn negated_high(hi: u64, lo: u64) -> u64
    ensures { result ≡ negated_high hi lo }
{
    let high = 0u64.wrapping_sub(hi);
    if lo == 0 {
        return high;
    }
    high.wrapping_sub(1)
}

// Both halves of the negation, which wraps.
// Rules out: a borrow by a low half of zero; a half left as it was (must-fail: borrowed_by_zero, half_left).
pub(crate) fn negated(halves: Halves) -> Halves
    ensures { result ≡ in_halves (negated_high halves.hi halves.lo) (negated_low halves.lo) }
{
    Halves {
        hi: negated_high(halves.hi, halves.lo),
        lo: negated_low(halves.lo),
    }
}

// The 128 bits of the number with this sign and this magnitude, if it is a signed number of 128 bits.
// Rules out: 2^127 accepted; -2^127 - 1 accepted; 2^127 - 1 refused; -2^127 refused (must-fail: limit_or_place_mistaken, halves_below_least_accepted,
// halves_greatest_refused, halves_least_refused).
fn signed_halves(minus: bool, halves: Halves) -> Option<Halves>
    ensures { result ≡ halves_of (within_bits 127 (int (signed minus (joined_halves halves.hi halves.lo)))) }
{
    if minus {
        if halves.hi < 0x8000_0000_0000_0000 {
            return Some(negated(halves));
        }
        if halves.hi != 0x8000_0000_0000_0000 {
            return None;
        }
        if halves.lo != 0 {
            return None;
        }
        return Some(halves);
    }
    if 0x8000_0000_0000_0000 <= halves.hi {
        return None;
    }
    Some(halves)
}

// The halves of the negation; -2^127 is refused before it.
// Rules out: a minus before -2^127 accepted (must-fail: halves_below_least_accepted).
fn negated_halves(halves: Halves) -> Option<Halves>
    ensures { result ≡ negated_halves halves.hi halves.lo }
{
    if (halves.hi == 0x8000_0000_0000_0000) & (halves.lo == 0) {
        return None;
    }
    Some(negated(halves))
}

// A sign or none, then digits of base 2, 8 or 16 with `_` between two of them.
// Rules out: this sign, the second of the text, passed over (must-fail: minus_lost).
fn read_signed_halves(text: &[u8], base: u32) -> Option<Halves>
    requires { radix_by base ≡ base }
    ensures { result ≡ halves_of (parsed_apart 127 base text.now) }
{
    let sign = split_sign(text);
    let start = sign.len;
    let halves = read_radix_digits(&text[start..], base)?;
    signed_halves(sign.minus, halves)
}

// The body behind a radix prefix, with the sign before the prefix put to it.
pub(crate) fn read_radix_halves(minus: bool, body: &[u8], base: u32) -> Option<Halves>
    requires { radix_by base ≡ base }
    ensures { result ≡ halves_of (within_bits 127 (negated_by minus (parsed_apart 127 base body.now))) }
{
    let halves = read_signed_halves(body, base)?;
    if minus {
        return negated_halves(halves);
    }
    Some(halves)
}
