// Where a bit string's digits stand, and how many there are: one pass over the text, before the first is packed.
ghost use Rattle.bits.specs.Bodies.{Finds};

use crate::digits::{are_digits, is_bit_letter};
use crate::later::{Misfit, measure_later};
use cutting::cursor::{Cursor, Next};
use leaves::bytes::byte_at;
use meaning::Settings;

// The first segment's digits from one place to another, those of the segments from a third place on, and how many these are.
#[derive(Clone, Copy)]
pub(crate) struct Digits {
    pub from: usize,
    pub last: usize,
    pub at: usize,
    pub later: usize,
}

// Asks the first segment for its letter and its digits, and the later ones for theirs. Refused at 0: a first segment that has them not, or none; at its place:
// a later one.
// Stays: one setting for all calls, of which each takes another part of the text: a struct of both would be built anew for each part.
// Rules out: digits chosen by the letter; the white space before the second segment left; a place counted from that segment; cut at another setting than given
// (must-fail: digits_by_letter, gap_before_the_second_left, place_of_the_segment, setting_on, setting_lost).
pub(crate) fn find_digits(text: &[u8], base: u8, settings: Settings) -> Result<Digits, Misfit>
    ensures { Finds settings base text.now result }
{
    match Cursor::new().next(text, settings) {
        Next::Segment {
            start: _,
            open,
            end,
            next,
        } => {
            let letter = byte_at(text, 0);
            let last = end - 1;
            if !(is_bit_letter(letter) & are_digits(&text[open..last], base)) {
                return Err(Misfit { place: 0 });
            }
            let at = next.at;
            if end == text.len() {
                return Ok(Digits {
                    from: open,
                    last,
                    at,
                    later: 0,
                });
            }
            match measure_later(&text[at..], base, settings) {
                Ok(later) => Ok(Digits {
                    from: open,
                    last,
                    at,
                    later,
                }),
                Err(misfit) => {
                    let place = at + misfit.place;
                    Err(Misfit { place })
                }
            }
        }
        Next::End => Err(Misfit { place: 0 }),
        Next::Remainder => Err(Misfit { place: 0 }),
    }
}
