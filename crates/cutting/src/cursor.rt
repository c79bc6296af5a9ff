// A cursor by value that goes from segment to segment, past the white space behind each.
ghost use Rattle.std.specs.Prelude.{◌≡◌};
ghost use Rattle.cutting.specs.Segments.{next_of};

use crate::segments::first_segment;
use meaning::Settings;
use spaces::gap_at;

#[derive(Clone, Copy)]
pub struct Cursor {
    pub at: usize,
}

// What stands at a cursor.
// Stays: three cases, neither an Option nor a Result; of one within the other, `Ok(None)` would be the end, and would not say so.
#[derive(Clone, Copy)]
pub enum Next {
    // a segment from start to end, its body behind `open` bytes and before its last; and the cursor behind the white space that follows
    Segment {
        start: usize,
        open: usize,
        end: usize,
        next: Cursor,
    },
    // nothing is left
    End,
    // something is left that is no segment
    Remainder,
}

impl Cursor {
    // At a text's front.
    // Rules out: a byte passed over; a text passed over (must-fail: cursor_misplaced, rest_passed_over).
    pub fn new() -> Self
        ensures { result.at ≡ 0 }
    {
        Cursor { at: 0 }
    }

    // What stands at the cursor.
    // Rules out: white space left before the next segment; a remainder passed over (must-fail: cursor_misplaced, rest_passed_over).
    pub fn next(self, text: &[u8], settings: Settings) -> Next
        ensures { result ≡ next_of settings text.now self.at }
    {
        let at = self.at;
        if text.len() <= at {
            return Next::End;
        }
        let Some(segment) = first_segment(&text[at..], settings) else {
            return Next::Remainder;
        };
        let end = at + segment.len;
        Next::Segment {
            start: at,
            open: segment.opening,
            end,
            next: Cursor {
                at: end + gap_at(text, end),
            },
        }
    }
}
