// The first segment of a text.
ghost use Rattle.std.specs.Prelude.{◌≡◌, true};
ghost use Rattle.meaning.specs.Bytes.{is_mark};
ghost use Rattle.meaning.specs.Cutting.{hides};
ghost use Rattle.cutting.specs.Marks.{mark_of};
ghost use Rattle.cutting.specs.Segments.{segment_of};

use crate::marks::{Mark, closing_mark};
use crate::openings::opening_len;
use leaves::bytes::byte_at;
use meaning::Settings;

// A segment at a text's front: the bytes of its opening with the mark, and all its bytes.
#[derive(Clone, Copy)]
pub struct Segment {
    pub opening: usize,
    pub len: usize,
}

// Whether a backslash hides the byte behind it: in E segments always, in others when the setting is on.
fn backslash_hides(text: &[u8], settings: Settings) -> bool
    ensures { result ≡ hides settings text.now }
{
    let first = byte_at(text, 0);
    settings.backslash | (first == 69) | (first == 101)
}

// The mark that a byte is.
fn mark_of(byte: u8) -> Mark
    ensures { is_mark byte ≡ true → mark_of result ≡ byte }
{
    if byte == 39 {
        Mark::Quote
    } else {
        Mark::DoubleQuote
    }
}

// The first segment, if there is one; its body is what lies behind the opening and before the last byte.
// Rules out: the closing mark left out of the length; a segment without its closing mark; a ' closed by "; a byte hidden in N segments; the mark looked
// for behind the opening (must-fail: mark_left_out, unclosed_is_found).
pub fn first_segment(text: &[u8], settings: Settings) -> Option<Segment>
    ensures { result ≡ segment_of settings text.now }
{
    let open = opening_len(text);
    if open == 0 {
        return None;
    }
    let mark = mark_of(text[open - 1]);
    let hides = backslash_hides(text, settings);
    // Stays: `let else` for `?`: what is told where no mark closes is written out, as a wrong program tells it otherwise (must-fail: unclosed_is_found).
    let Some(place) = closing_mark(&text[open..], mark, hides) else {
        return None;
    };
    Some(Segment {
        opening: open,
        len: open + place + 1,
    })
}
