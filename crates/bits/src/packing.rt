// [02 T-07] A bit string's text as packed bytes: the digits are found as for the bits question, and then packed, one run over all segments.
ghost use Rattle.std.specs.Prelude.{◌≡◌, List, [], ℕ, ◌*◌, ◌^◌, length, drop};
ghost use Rattle.meaning.specs.Bytes.{part};
ghost use Rattle.meaning.specs.Kinds.{bits};
ghost use Rattle.meaning.specs.Reading.{value_of};
ghost use Rattle.meaning.specs.Packing.{radix_bits, packed_length};
ghost use Rattle.bits.specs.Bodies.{bodies};
ghost use Rattle.bits.specs.Pens.{Packing, BodiesPackable, Segmented, PacksInto, Packs};

use crate::finding::{Digits, find_digits};
use crate::pens::{Pen, base_of, close, pack_run};
use cutting::cursor::{Cursor, Next};
use meaning::{BitStringRadix, Settings};

// So many bytes at the buffer's start, and the digits that they hold.
#[derive(Clone, Copy)]
pub struct Packed {
    pub len: usize,
    pub digits: usize,
}

// Why nothing is packed: the text is no bit string's, or the length for which there is no room.
#[derive(Clone, Copy)]
pub enum PackingError {
    Refused,
    NoRoom { needed: usize },
}

// How many bytes so many digits take: "rounded up to bytes". No sum can be too large for its type.
// Rules out: rounding down; two binary digits to a byte; eight hex digits to one (must-fail: last_byte_left_out, hex_for_both, binary_for_both).
fn packed_len(digits: usize, radix: BitStringRadix) -> usize
    ensures { result ≡ packed_length (radix_bits radix * «digits») }
{
    match radix {
        BitStringRadix::Binary => digits / 8 + ((digits % 8 != 0) as usize),
        BitStringRadix::Hex => digits / 2 + digits % 2,
    }
}

// Packs the bodies of all segments, from where the pen stands.
// Rules out: the later segments dropped; the mark packed with the digits (must-fail: first_segment_only, mark_with_the_digits).
fn pack_later(
    text: &[u8],
    radix: BitStringRadix,
    settings: Settings,
    pen: Pen,
    out: &mut [u8],
) -> Pen
    requires { BodiesPackable (radix_bits radix) settings text.now pen out.old }
    ensures { (whole d : List ℕ) → Packing (radix_bits radix) whole d out.old pen (bodies settings text.now)
        → Packing (radix_bits radix) whole d out.new result [] }
{
    let mut cursor = Cursor::new();
    let mut pen = pen;
    loop {
        match cursor.next(text, settings) {
            Next::Segment {
                start,
                open,
                end,
                next,
            } => {
                let from = start + open;
                let last = end - 1;
                pen = pack_run(&text[from..last], radix, pen, out);
                cursor = next;
            }
            Next::End => {
                return pen;
            }
            Next::Remainder => {
                return pen;
            }
        }
    }
}

// Packs the digits of the first segment, then those of the later ones, for which there is room.
// Rules out: a first byte of 7 bits; the later segments laid over the first (must-fail: first_byte_of_seven, later_over_the_first).
fn pack_all(text: &[u8], digits: Digits, radix: BitStringRadix, settings: Settings, out: &mut [u8])
    requires { Segmented (radix_bits radix) settings text.now digits.from digits.last digits.at (length out.old) }
    ensures { PacksInto (radix_bits radix) settings text.now digits.from digits.last digits.at out.old out.new }
{
    let fresh = Pen {
        at: 0,
        byte: 0,
        missing: 8,
    };
    let first = pack_run(&text[digits.from..digits.last], radix, fresh, out);
    let pen = pack_later(&text[digits.at..], radix, settings, first, out);
    close(pen, radix, out);
}

// Reads a bit string's text, cut at the setting, its digits by the radix, as packed bytes. Refused and without room the buffer is as it was lent.
// Rules out: 9 in digits; the count of the first segment's digits alone (must-fail: room_in_digits, count_of_the_first).
pub fn read_packed(
    text: &[u8],
    radix: BitStringRadix,
    settings: Settings,
    out: &mut [u8],
) -> Result<Packed, PackingError>
    ensures { Packs (radix_bits radix) (value_of text.now (bits settings (2 ^ radix_bits radix) text.now)) (length text.now) out.old result out.new }
{
    let Ok(found) = find_digits(text, base_of(radix), settings) else {
        return Err(PackingError::Refused);
    };
    let digits = found.last - found.from + found.later;
    let len = packed_len(digits, radix);
    if out.len() < len {
        return Err(PackingError::NoRoom { needed: len });
    }
    pack_all(text, found, radix, settings, out);
    Ok(Packed { len, digits })
}
