// Parts of lent slices, and the view of an answer.
ghost use Rattle.meaning.specs.Answers.{IsPart, part_shown, part_place};
ghost use Rattle.meaning.specs.Reads.{read_shown, read_place};

use meaning::{ReadRefusal, ReadText};

// Either the text's part or the buffer's; a range that does not fit its slice shows an empty part at the slice's start, and a refusal one at the text's.
// Stays: two enums, each with its definition (`read_shown`; `shown` of `text_shown`): a trait over both would have these arms in each impl.
// Rules out: the buffer shown for a borrowed answer; an empty part of the buffer shown for a refusal (must-fail: one_for_another, empty_part_of_the_buffer).
pub fn shown<'a>(text: &'a [u8], out: &'a [u8], answer: Result<ReadText, ReadRefusal>) -> &'a [u8]
    ensures { IsPart (read_shown text.now out.now answer) (read_place text.entry out.entry answer) result }
{
    match answer {
        Ok(ReadText::Borrowed { from, until }) => part_of(text, from, until),
        Ok(ReadText::Written { len }) => part_of(out, 0, len),
        Err(_) => &text[..0],
    }
}

// A part of a slice: these bytes, at their place. Where it does not fit, an empty one at the slice's start.
// Stays: two places, as `part_shown` and `part_place` in the clause of this public function take them; its callers have them as two numbers.
// Stays: no `get`: tried, and the proof stays open: its clause says which bytes, and `IsPart` also where they stand.
// Rules out: every part that fits shown empty; an empty part in the middle of a slice shown at its start (must-fail: some_left_out, other_place).
pub fn part_of(bytes: &[u8], from: usize, until: usize) -> &[u8]
    ensures { IsPart (part_shown from until bytes.now) (part_place from until bytes.entry) result }
{
    if until < from {
        return &bytes[..0];
    }
    if bytes.len() < until {
        return &bytes[..0];
    }
    &bytes[from..until]
}
