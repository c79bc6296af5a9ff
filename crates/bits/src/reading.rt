// [01 Numbers and the other kinds] "B or X segment, then only ' segments; digits by the kind's radix, not the letter; written if more than the first segment".
ghost use Rattle.std.specs.Prelude.{length, drop};
ghost use Rattle.meaning.specs.Bytes.{part};
ghost use Rattle.meaning.specs.Kinds.{bits};
ghost use Rattle.meaning.specs.Reads.{Reads};
ghost use Rattle.bits.specs.Bodies.{joined_bits, Ordered};

use crate::digits::{are_digits, is_bit_letter};
use crate::later::{measure_later, write_later};
use cutting::cursor::{Cursor, Next};
use leaves::bytes::byte_at;
use leaves::puts::put_bytes;
use meaning::{ReadRefusal, ReadText, Settings};

// The digits from one place to another, and those of the segments from a third place on: nothing is written before all are measured.
// Rules out: room asked for the later digits alone; a place counted from the third place; measured at another setting than written
// (must-fail: setting_lost, written_too_early).
fn join_bits(
    text: &[u8],
    from: usize,
    last: usize,
    at: usize,
    base: u8,
    settings: Settings,
    out: &mut [u8],
) -> Result<ReadText, ReadRefusal>
    requires { Ordered from last at (length text.now) }
    ensures { Reads (joined_bits settings base (part from last text.now) at (drop at text.now)) out.old result out.new }
{
    match measure_later(&text[at..], base, settings) {
        Ok(n) => {
            let first = last - from;
            let len = first + n;
            if out.len() < len {
                return Err(ReadRefusal::NoRoom { needed: len });
            }
            put_bytes(&text[from..last], out);
            write_later(&text[at..], settings, &mut out[first..]);
            Ok(ReadText::Written { len })
        }
        Err(misfit) => {
            let place = at + misfit.place;
            Err(ReadRefusal::At { place })
        }
    }
}

// Reads a bit string's text, cut at the setting, its digits by the base: a part of the text if it is one segment, else so many bytes at the buffer's start;
// the place where reading stops, or the length for which there is no room. Refused, borrowed and without room the buffer is as it was lent.
// Stays: the first segment is asked here as in `find_digits`: by that function the digits question took 38 ns for 31, and 224 bytes of stack more.
// Rules out: digits chosen by the letter; the first segment alone kept; the setting lost (must-fail: digits_by_letter, first_segment_only, setting_on).
pub fn read_bits(
    text: &[u8],
    base: u8,
    settings: Settings,
    out: &mut [u8],
) -> Result<ReadText, ReadRefusal>
    ensures { Reads (bits settings base text.now) out.old result out.new }
{
    match Cursor::new().next(text, settings) {
        Next::Segment {
            start: _,
            open,
            end,
            next,
        } => {
            let letter = byte_at(text, 0);
            let last = end - 1;
            if !(is_bit_letter(letter) & are_digits(&text[open..last], base)) {
                return Err(ReadRefusal::At { place: 0 });
            }
            if end == text.len() {
                return Ok(ReadText::Borrowed {
                    from: open,
                    until: last,
                });
            }
            join_bits(text, open, last, next.at, base, settings, out)
        }
        Next::End => Err(ReadRefusal::At { place: 0 }),
        Next::Remainder => Err(ReadRefusal::At { place: 0 }),
    }
}
