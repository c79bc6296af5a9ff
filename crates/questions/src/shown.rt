// The view: what an answer shows of the source or of the buffer, as a part of that very slice. A range that does not fit its slice shows an empty part
// at the slice's start, and a refusal one at the source's.
ghost use Rattle.meaning.specs.Answers.{IsPart, shown, shown_place, range_shown, range_place, charset_shown, charset_place};

use leaves::views::part_of;
use meaning::{Part, Refusal, Text};

// Either the source's part or the buffer's.
// Rules out: the source shown for a written text; the buffer shown for a borrowed text; an empty part of the buffer shown for a refusal; a written text shown
// from its second byte on (must-fail: one_for_another, another_part, empty_part_of_the_buffer, off_by_one).
pub fn text_shown<'a>(source: &'a [u8], out: &'a [u8], answer: Result<Text, Refusal>) -> &'a [u8]
    ensures { IsPart (shown source.now out.now answer) (shown_place source.entry out.entry answer) result }
{
    match answer {
        Ok(Text::Borrowed { start, end }) => part_of(source, start, end),
        Ok(Text::Written { len }) => part_of(out, 0, len),
        Err(_) => &source[..0],
    }
}

// The part of the source that a range stands for.
// Rules out: the part from the source's start; an empty part (must-fail: another_part, some_left_out).
pub fn range_shown(source: &[u8], answer: Result<Part, Refusal>) -> &[u8]
    ensures { IsPart (range_shown source.now answer) (range_place source.entry answer) result }
{
    let Ok(part) = answer else {
        return &source[..0];
    };
    part_of(source, part.start, part.end)
}

// The charset's name.
// Rules out: the part from the source's start; an empty part (must-fail: another_part, some_left_out).
pub fn charset_shown(source: &[u8], answer: Result<Option<Part>, Refusal>) -> &[u8]
    ensures { IsPart (charset_shown source.now answer) (charset_place source.entry answer) result }
{
    match answer {
        Ok(Some(part)) => part_of(source, part.start, part.end),
        _ => &source[..0],
    }
}
