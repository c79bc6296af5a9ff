// [02 T-07] The question whose answer is packed bytes.
ghost use Rattle.std.specs.Prelude.{◌≡◌};
ghost use Rattle.meaning.specs.Answers.{Meets};
ghost use Rattle.meaning.specs.Packing.{bits_per, packed_question};
ghost use Rattle.questions.specs.Packed.{radix_by, Countable, packed_by};

use admitting::kinds::bit_base;
use admitting::tests::test;
use bits::packing::{Packed, PackingError, read_packed};
use meaning::{BitStringRadix, Literal, LiteralExpected, PackedBits, Refusal, Settings, Span};

// The radix of a base; hex for any other than 2.
// Rules out: binary for every base, hex for every base (must-fail: count_in_digits, count_in_bytes).
fn radix_by(base: u8) -> BitStringRadix
    ensures { result ≡ radix_by base }
{
    if base == 2 {
        return BitStringRadix::Binary;
    }
    BitStringRadix::Hex
}

// "A binary digit is one bit, a hex digit four."
// Rules out: a bit counted for each digit (must-fail: count_in_digits).
fn bits_per(base: u8) -> u64
    ensures { result ≡ bits_per base }
{
    if base == 2 {
        return 1;
    }
    4
}

// A packed reading, told of the literal: its digits as bits, and why it is refused.
// Rules out: bytes counted for digits; 5 for 7 (must-fail: count_in_bytes, five_for_seven).
fn packed_of(
    packed: Result<Packed, PackingError>,
    base: u8,
    span: Span,
) -> Result<PackedBits, Refusal>
    requires { Countable packed }
    ensures { result ≡ packed_by span (bits_per base) packed }
{
    match packed {
        Ok(Packed { len, digits }) => Ok(PackedBits {
            len,
            bits: bits_per(base) * (digits as u64),
        }),
        Err(PackingError::Refused) => Err(Refusal::InvalidBitString(span)),
        Err(PackingError::NoRoom { needed }) => Err(Refusal::NoRoom { needed }),
    }
}

// A bit string's digits as packed bytes, its text cut with the setting off: always written.
// Rules out: strings asked; hex digits packed of every bit string (must-fail: another_kind_asked, hex_for_every_base).
pub fn as_packed_bits(
    literal: Literal,
    source: &[u8],
    out: &mut [u8],
) -> Result<PackedBits, Refusal>
    ensures { Meets (packed_question literal source.now out.old) result out.new }
{
    let span = literal.span;
    let base = bit_base(literal.kind);
    let right = 0 < base;
    let part = test(right, LiteralExpected::BitString, literal, source)?;
    let packed = read_packed(
        &source[part.start..part.end],
        radix_by(base),
        Settings { backslash: false },
        out,
    );
    packed_of(packed, base, span)
}
