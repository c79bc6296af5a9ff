// The two quote marks, and where a body closes.
ghost use Rattle.std.specs.Prelude.{◌≡◌};
ghost use Rattle.meaning.specs.Walk.{walk};
ghost use Rattle.meaning.specs.Steps.{closing_step};
ghost use Rattle.cutting.specs.Marks.{mark_of, closed_of, stops_by};

use leaves::blocks::{Stops, free_run};
use leaves::bytes::byte_at;

// ' or ".
#[derive(Clone, Copy)]
pub enum Mark {
    Quote,
    DoubleQuote,
}

// A mark's byte.
// Stays: a public function, whose definition `mark_of` is this match; a From for u8 would be a second name for it.
// Rules out: one mark taken for the other; ` taken for a mark (must-fail: other_mark, another_byte_taken).
pub fn mark_byte(mark: Mark) -> u8
    ensures { result ≡ mark_of mark }
{
    match mark {
        Mark::Quote => 39,
        Mark::DoubleQuote => 34,
    }
}

// The bytes at which the search stops: the mark, and the backslash where it hides something.
fn closing_stops(quote: u8, hides: bool) -> Stops
    ensures { result ≡ stops_by hides quote }
{
    let second = if hides { 92 } else { quote };
    Stops {
        first: quote,
        second,
        third: quote,
    }
}

// The place of the first mark of a body that is not doubled, if there is one; with `hides` a backslash hides the byte behind it.
// Rules out: a mark doubled by another byte than the next; a hidden mark taken for the closing one; a byte passed over; a byte hidden past the end
// (must-fail: doubled_by_the_byte_after, later_e_refused).
pub fn closing_mark(body: &[u8], mark: Mark, hides: bool) -> Option<usize>
    ensures { result ≡ closed_of (walk (closing_step hides (mark_of mark)) 0 body.now) }
{
    let quote = mark_byte(mark);
    let stops = closing_stops(quote, hides);
    let mut at: usize = 0;
    // Stays: no iterator counts these turns: each goes as far as what stands there asks, past one byte and a run, or past two.
    while at < body.len() {
        let byte = body[at];
        if hides & (byte == 92) {
            if body.len() - at < 2 {
                return None;
            }
            at += 2;
        } else if byte == quote {
            if byte_at(body, at + 1) != quote {
                return Some(at);
            }
            at += 2;
        } else {
            at += 1 + free_run(body, at + 1, stops);
        }
    }
    None
}
