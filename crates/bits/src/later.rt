// The segments behind the first, of which each is a ' segment: measured whole, then written, each body into the room the earlier ones left.
ghost use Rattle.std.specs.Prelude.{◌≡◌, length};
ghost use Rattle.meaning.specs.Cutting.{cut};
ghost use Rattle.meaning.specs.Reading.{each};
ghost use Rattle.meaning.specs.Kinds.{later_bits};
ghost use Rattle.meaning.specs.Answers.{filled};
ghost use Rattle.bits.specs.Bodies.{Measures, bodies, BodiesFit};

use crate::digits::are_digits;
use cutting::cursor::{Cursor, Next};
use leaves::bytes::byte_at;
use leaves::puts::put_bytes;
use meaning::Settings;

// The place of the first segment that is refused.
// Stays: an error of its own for each crate, as `Stop` of strings is: neither builds on the other, and in `meaning` no rule needs one.
#[derive(Clone, Copy)]
pub(crate) struct Misfit {
    pub place: usize,
}

// Asks each segment for its mark and its digits, and counts these. Refused: a segment with another mark or another byte, and what is no segment.
// Rules out: a prefix before a later segment; a remainder passed over; the place of a body told
// (must-fail: later_prefix_accepted, remainder_passed_over, place_of_the_body).
pub(crate) fn measure_later(text: &[u8], base: u8, settings: Settings) -> Result<usize, Misfit>
    ensures { Measures (each (later_bits base) (cut settings text.now)) (length text.now) result }
{
    let mut cursor = Cursor::new();
    let mut n: usize = 0;
    // Stays: no index is counted: the cursor says where each turn begins, and n sums what the segments hold.
    loop {
        match cursor.next(text, settings) {
            Next::Segment {
                start,
                open,
                end,
                next,
            } => {
                let from = start + open;
                let last = end - 1;
                if !((byte_at(text, start) == 39) & are_digits(&text[from..last], base)) {
                    return Err(Misfit { place: start });
                }
                n += last - from;
                cursor = next;
            }
            Next::End => {
                return Ok(n);
            }
            Next::Remainder => {
                return Err(Misfit { place: cursor.at });
            }
        }
    }
}

// Writes the bodies of all segments, for which there is room: the tail of the buffer is lent on to the copy of each.
// Rules out: each body from the text's start (must-fail: from_the_start).
pub(crate) fn write_later(text: &[u8], settings: Settings, out: &mut [u8])
    requires { BodiesFit settings text.now (length out.old) }
    ensures { out.new ≡ filled (bodies settings text.now) out.old }
{
    let mut cursor = Cursor::new();
    let mut n: usize = 0;
    // Stays: no index is counted: the cursor says where each turn begins, and n sums what is written.
    loop {
        match cursor.next(text, settings) {
            Next::Segment {
                start,
                open,
                end,
                next,
            } => {
                let from = start + open;
                let last = end - 1;
                put_bytes(&text[from..last], &mut out[n..]);
                n += last - from;
                cursor = next;
            }
            Next::End => {
                return;
            }
            Next::Remainder => {
                return;
            }
        }
    }
}
