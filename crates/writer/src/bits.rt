// [02 T-07] Packed bytes and a bit count as a B or X literal. "reverse 12, then 16 [..] then 9".
ghost use Rattle.std.specs.Prelude.{not, ◌≡◌, ◌+◌, ◌/◌, ◌%◌, ◌≤◌, eqb, length, take, drop};
ghost use Rattle.meaning.specs.Bytes.{all_zero};
ghost use Rattle.meaning.specs.Answers.{Meets};
ghost use Rattle.meaning.specs.Forms.{figures};
ghost use Rattle.meaning.specs.Packing.{spread, radix_bits, radix_letter, packed_length, bad_bits, bit_write_question};
ghost use Rattle.writer.specs.Texts.{PutBytes};
ghost use Rattle.writer.specs.Bits.{per_byte, byte_digits, digits_by, literal_by};

use crate::figures::figure;
use crate::literal::is_over_limit;
use crate::units::put_two;
use leaves::puts::put_bytes;
use meaning::{BitStringRadix, BitWritingError, PartSize};

// The bit count rounded up to bytes. By division, since a sum could wrap.
// Rules out: a rounding that wraps; rounding down (must-fail: low_bit_first, whole_bytes_only).
fn packed_len(bits: u64) -> u64
    ensures { result ≡ packed_length bits }
{
    if bits % 8 == 0 {
        return bits / 8;
    }
    bits / 8 + 1
}

// Whether so many bits are whole digits.
// Rules out: X with any count; X with whole bytes alone (must-fail: low_bit_first, whole_bytes_only).
fn are_whole(bits: u64, radix: BitStringRadix) -> bool
    ensures { result ≡ eqb (bits % radix_bits radix) 0 }
{
    match radix {
        BitStringRadix::Binary => true,
        BitStringRadix::Hex => bits % 4 == 0,
    }
}

// Whether a bit behind the last one that counts is set: those that count are shifted out of the last byte.
// Rules out: unused bits not looked at (must-fail: low_bit_first, whole_bytes_only).
fn has_unused(bytes: &[u8], bits: u64) -> bool
    requires { length bytes.now ≡ packed_length bits }
    ensures { result ≡ not (all_zero (drop bits (spread 8 bytes.now))) }
{
    let used = (bits % 8) as u8;
    if used == 0 {
        return false;
    }
    bytes[bytes.len() - 1] << used != 0
}

// Whether the bytes and the count don't go together: three reasons, one answer.
// Rules out: further bytes passed over (must-fail: further_bytes_passed_over).
fn are_bad(bytes: &[u8], bits: u64, radix: BitStringRadix) -> bool
    ensures { result ≡ bad_bits radix bytes.now bits }
{
    if bytes.len() as u64 != packed_len(bits) {
        return true;
    }
    if !are_whole(bits, radix) {
        return true;
    }
    has_unused(bytes, bits)
}

// How many digits so many bits are; and below, how many a byte has.
fn digit_count(bits: u64, radix: BitStringRadix) -> u64
    ensures { result ≡ bits / radix_bits radix }
{
    match radix {
        BitStringRadix::Binary => bits,
        BitStringRadix::Hex => bits / 4,
    }
}

fn per_byte(radix: BitStringRadix) -> usize
    ensures { result ≡ per_byte radix }
{
    // Stays: a radix has several numbers, and a From for usize would not say which is meant.
    match radix {
        BitStringRadix::Binary => 8,
        BitStringRadix::Hex => 2,
    }
}

// Rules out: the letter of the other radix; a small letter (must-fail: low_bit_first, whole_bytes_only).
fn letter_of(radix: BitStringRadix) -> u8
    ensures { result ≡ radix_letter radix }
{
    // Stays: a radix has several numbers, and a From for u8 would not say which is meant.
    match radix {
        BitStringRadix::Binary => 66,
        BitStringRadix::Hex => 88,
    }
}

// The eight binary digits of a byte. Divisors that are no variables are compiled to shifts.
// Stays: `put_two` puts bytes as they are; and Display's `{:08b}` writes to a Formatter, not to a lent buffer.
// Rules out: the low bit first (must-fail: low_bit_first).
fn put_eight(byte: u8, out: &mut [u8]) -> usize
    requires { 8 ≤ length out.old }
    ensures { PutBytes (figures 2 8 byte) out.old result out.new }
{
    out[0] = 48 + byte / 128 % 2;
    out[1] = 48 + byte / 64 % 2;
    out[2] = 48 + byte / 32 % 2;
    out[3] = 48 + byte / 16 % 2;
    out[4] = 48 + byte / 8 % 2;
    out[5] = 48 + byte / 4 % 2;
    out[6] = 48 + byte / 2 % 2;
    out[7] = 48 + byte % 2;
    8
}

// The digits of a byte.
// Rules out: the low half first (must-fail: whole_bytes_only).
fn put_byte(byte: u8, radix: BitStringRadix, out: &mut [u8]) -> usize
    requires { per_byte radix ≤ length out.old }
    ensures { PutBytes (byte_digits radix byte) out.old result out.new }
{
    match radix {
        BitStringRadix::Binary => put_eight(byte, out),
        BitStringRadix::Hex => put_two(figure((byte / 16) as u32), figure((byte % 16) as u32), out),
    }
}

// The first n digits of a byte: all are made, and so many are copied.
// Stays: n counts digits of the byte, and the buffer goes on behind them.
fn put_first(byte: u8, n: usize, radix: BitStringRadix, out: &mut [u8]) -> usize
    requires { (n ≤ per_byte radix) × (n ≤ length out.old) }
    ensures { PutBytes (take n (byte_digits radix byte)) out.old result out.new }
{
    let mut all = [0u8; 8];
    put_byte(byte, radix, &mut all);
    put_bytes(&all[..n], out)
}

// The first n digits of bytes: whole bytes, then what is left of one.
fn put_digits(bytes: &[u8], n: usize, radix: BitStringRadix, out: &mut [u8]) -> usize
    requires { (n ≤ length (digits_by radix bytes.now)) × (n ≤ length out.old) }
    ensures { PutBytes (take n (digits_by radix bytes.now)) out.old result out.new }
{
    let each = per_byte(radix);
    let mut put: usize = 0;
    let mut at: usize = 0;
    // Stays: a `for` over the bytes, with the last one's digits in it, has two ends and takes 3 to 8 times as long (X, 64 KiB: 130 µs for 16).
    while each <= n - put {
        put += put_byte(bytes[at], radix, &mut out[put..]);
        at += 1;
    }
    if n <= put {
        return put;
    }
    put + put_first(bytes[at], n - put, radix, &mut out[put..])
}

// Letter, mark, the first n digits, mark.
// Stays: n counts digits, of which a byte holds two or eight, and the buffer goes on behind them.
// Rules out: another mark (must-fail: further_bytes_passed_over).
fn put_literal(bytes: &[u8], n: usize, radix: BitStringRadix, out: &mut [u8]) -> usize
    requires { (n ≤ length (digits_by radix bytes.now)) × (n + 3 ≤ length out.old) }
    ensures { PutBytes (literal_by radix n bytes.now) out.old result out.new }
{
    let from = put_two(letter_of(radix), 39, out);
    let until = from + put_digits(bytes, n, radix, &mut out[from..]);
    out[until] = 39;
    until + 1
}

// Writes bytes of so many bits as a literal, and says how long the text is; or refuses them, and leaves the buffer as lent.
// Rules out: 12 by the bit count; 9 ahead of 16, or in digits alone (must-fail: limit_mistaken, another_refusal_told, size_for_length).
pub fn write_bit_literal(
    bytes: &[u8],
    bits: u64,
    radix: BitStringRadix,
    out: &mut [u8],
) -> Result<usize, BitWritingError>
    ensures { Meets (bit_write_question radix bytes.now bits out.old) result out.new }
{
    if is_over_limit(bytes, PartSize::Whole) {
        return Err(BitWritingError::OverLimit);
    }
    if are_bad(bytes, bits, radix) {
        return Err(BitWritingError::BadBits);
    }
    let n = digit_count(bits, radix) as usize;
    let len = n + 3;
    if out.len() < len {
        return Err(BitWritingError::NoRoom { needed: len });
    }
    put_literal(bytes, n, radix, out);
    Ok(len)
}
