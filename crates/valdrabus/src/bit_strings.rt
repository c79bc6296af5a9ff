// [02 T-07] Bit strings as packed bytes, and back.
ghost use Rattle.std.specs.Prelude.{◌≡◌};
ghost use Rattle.std.specs.Bool.{then_some};
ghost use Rattle.meaning.specs.Answers.{Meets};
ghost use Rattle.valdrabus.specs.Calls.{packed_call, is_bit_kind, radix_of, bit_write_call, Packs, Lengths};

use crate::known::known_literal;
use crate::packed::{PackedTold, no_bits, packed_told};
use crate::told::{Told, bit_writing_told, number_told, tell};
use meaning::BitStringRadix;
use questions::packing::as_packed_bits;
use writer::bits::write_bit_literal;

// Stays: the C interface gives the numbers.
fn packed_called(
    kind: u32,
    synthetic: u32,
    start: u32,
    end: u32,
    source: &[u8],
    out: &mut [u8],
) -> PackedTold
    ensures { Meets (packed_call kind synthetic start end source.now out.old) result out.new }
{
    let Some(literal) = known_literal(kind, synthetic, start, end, 0) else {
        return no_bits(number_told(10));
    };
    packed_told(as_packed_bits(literal, source, out))
}

// A bit string's packed bytes, always written, and how many bits they hold; none on a refusal.
// Rules out: start and end exchanged; the mark passed over; the length lent for the count; 0 for every count (must-fail: one_for_another,
// argument_passed_over, length_for_bits, one_answer_always).
#[unsafe(no_mangle)]
pub extern "C" fn valdrabus_as_packed_bits(
    kind: u32,
    synthetic: u32,
    start: u32,
    end: u32,
    source: &[u8],
    out: &mut [u8],
    bits: &mut u64,
    how: &mut u32,
    first: &mut usize,
    second: &mut usize,
) -> u32
    ensures { Packs (packed_call kind synthetic start end source.now out.old) result bits.new
        how.new first.new second.new out.new }
{
    let answer = packed_called(kind, synthetic, start, end, source, out);
    let told = answer.told;
    let count = answer.bits;
    *bits = count;
    tell(told, how, first, second)
}

// The base of the digits by a bit string's kind; none for any other number.
// Stays: the C interface gives the kind as a number.
// Rules out: 13 taken for B (must-fail: numbers_mistaken).
fn radix_of(kind: u32) -> Option<BitStringRadix>
    ensures { result ≡ then_some (is_bit_kind kind) (radix_of kind) }
{
    match kind {
        12 => Some(BitStringRadix::Binary),
        13 => Some(BitStringRadix::Hex),
        _ => None,
    }
}

fn bit_write_called(bytes: &[u8], bits: u64, kind: u32, out: &mut [u8]) -> Told
    ensures { Meets (bit_write_call bytes.now bits kind out.old) result out.new }
{
    let Some(radix) = radix_of(kind) else {
        return number_told(10);
    };
    bit_writing_told(write_bit_literal(bytes, bits, radix, out))
}

// Packed bytes and their bit count as a B literal, for kind 12, or as an X literal, for 13; 10 for any other kind.
// Rules out: X for every kind; the count passed over; B for every kind; no byte written (must-fail: one_for_another, argument_passed_over, one_kind_for_all,
// empty_text_asked).
#[unsafe(no_mangle)]
pub extern "C" fn valdrabus_write_bit_literal(
    bytes: &[u8],
    bits: u64,
    kind: u32,
    out: &mut [u8],
    len: &mut usize,
) -> u32
    ensures { Lengths (bit_write_call bytes.now bits kind out.old) result len.new out.new }
{
    let told = bit_write_called(bytes, bits, kind, out);
    *len = told.second;
    told.number
}
