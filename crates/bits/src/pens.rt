// [02 T-07] Digits packed into bytes, one after the other: "the first bit is the top bit of the first byte". A pen goes from segment to segment, so that none
// begins a byte of its own.
ghost use Rattle.std.specs.Prelude.{◌≡◌, List, [], ◌++◌, ℕ, ◌*◌, ◌/◌, ◌^◌, ◌<◌, length, drop};
ghost use Rattle.meaning.specs.Bytes.{digit, number};
ghost use Rattle.meaning.specs.Packing.{radix_bits};
ghost use Rattle.bits.specs.Pens.{Packing, Packable, Closable, DigitsAt, Low};

use leaves::digits::hex_value;
use meaning::BitStringRadix;

// The place of the byte at hand, its bits so far as a number, and how many are missing: 8 of a fresh one.
#[derive(Clone, Copy)]
pub(crate) struct Pen {
    pub at: usize,
    pub byte: u8,
    pub missing: u8,
}

// "A binary digit is one bit, a hex digit four."
// Stays: its definition `radix_bits` is this match; a From for u8 would not say which of two numbers, the bits or the base.
// Rules out: four bits for a binary digit, one for a hex digit (must-fail: hex_for_both, binary_for_both).
pub(crate) fn bits_of(radix: BitStringRadix) -> u8
    ensures { result ≡ radix_bits radix }
{
    match radix {
        BitStringRadix::Binary => 1,
        BitStringRadix::Hex => 4,
    }
}

// The base whose digits have so many bits.
// Stays: a match as in `bits_of`; a From for u8 would not say which of two numbers, the bits or the base.
// Rules out: base 16 with one bit, base 2 with four (must-fail: hex_for_both, binary_for_both).
pub(crate) fn base_of(radix: BitStringRadix) -> u8
    ensures { result ≡ 2 ^ radix_bits radix }
{
    match radix {
        BitStringRadix::Binary => 2,
        BitStringRadix::Hex => 16,
    }
}

// Eight binary digits as a byte: the compiler makes straight code of the loop.
// Rules out: the eighth digit left out; the first eight digits for each eight (must-fail: one_left_out, from_the_start).
fn eight_binary(digits: &[u8], at: usize) -> u8
    requires { DigitsAt 2 8 at digits.now }
    ensures { result ≡ number 2 8 0 (drop at digits.now) }
{
    let mut byte: u8 = 0;
    for j in 0..8 {
        byte = byte * 2 + digits[at + j] % 2;
    }
    byte
}

// The digit that a byte is which is known to be one, of any base up to 16: without a choice, since a byte that is none need not be told.
// Rules out: letters read one too low (must-fail: letters_one_too_low).
fn digit_of(byte: u8) -> u8
    requires { digit byte < 16 }
    ensures { result ≡ digit byte }
{
    byte % 16 + byte / 64 * 9
}

// As many digits as a byte has room for.
// Stays: not once for both bases: by `digit_of` eight binary digits take 2.15 times as long (4,096 digits 3,047 ns for 1,417).
// Rules out: the first digit at the bottom, or read twice (must-fail: first_digit_at_the_bottom, digit_read_twice).
fn whole_byte(digits: &[u8], at: usize, radix: BitStringRadix) -> u8
    requires { DigitsAt (2 ^ radix_bits radix) (8 / radix_bits radix) at digits.now }
    ensures { result ≡ number (2 ^ radix_bits radix) (8 / radix_bits radix) 0 (drop at digits.now) }
{
    match radix {
        BitStringRadix::Binary => eight_binary(digits, at),
        BitStringRadix::Hex => digit_of(digits[at]) * 16 + digit_of(digits[at + 1]),
    }
}

// Packs digits from where the pen stands: whole bytes at once where one begins, single digits before and behind.
// Rules out: a byte begun with each segment; a digit passed over; a fresh byte of 7 bits; a whole byte laid over a begun one
// (must-fail: byte_for_each_segment, digit_passed_over, fresh_byte_of_seven, begun_byte_overwritten).
pub(crate) fn pack_run(digits: &[u8], radix: BitStringRadix, pen: Pen, out: &mut [u8]) -> Pen
    requires { Packable (radix_bits radix) digits.now pen out.old }
    ensures { (whole d rest : List ℕ) → Packing (radix_bits radix) whole d out.old pen (digits.now ++ rest)
        → Packing (radix_bits radix) whole d out.new result rest }
{
    let bits = bits_of(radix);
    let base = base_of(radix);
    let whole = (8 / bits) as usize;
    let mut at = pen.at;
    let mut byte = pen.byte;
    let mut missing = pen.missing;
    let mut i: usize = 0;
    // Stays: no `for`: a turn takes one digit or a byte's, as the pen stands.
    while i < digits.len() {
        if (missing == 8) & (whole <= digits.len() - i) {
            out[at] = whole_byte(digits, i, radix);
            at += 1;
            i += whole;
        } else {
            byte = byte * base + hex_value(digits[i]);
            i += 1;
            if missing == bits {
                out[at] = byte;
                at += 1;
                byte = 0;
                missing = 8;
            } else {
                missing -= bits;
            }
        }
    }
    Pen { at, byte, missing }
}

// A byte's bits so far, and zeros in place of those that are missing.
// Rules out: a short last byte filled from the right (must-fail: filled_from_the_right).
fn filled_up(byte: u8, missing: u8) -> u8
    requires { (missing < 8) × Low byte missing }
    ensures { result ≡ byte * 2 ^ missing }
{
    byte << missing
}

// "unused low bits of the last byte are zero."
// Rules out: the last byte left as the buffer had it, or put at its start (must-fail: last_byte_left_out, from_the_start).
pub(crate) fn close(pen: Pen, radix: BitStringRadix, out: &mut [u8])
    requires { Closable (radix_bits radix) pen out.old }
    ensures { (whole d : List ℕ) → Packing (radix_bits radix) whole d out.old pen []
        → out.new ≡ whole ++ drop (length whole) d }
{
    if pen.missing < 8 {
        let at = pen.at;
        out[at] = filled_up(pen.byte, pen.missing);
    }
}
