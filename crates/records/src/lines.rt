// A line: number; b, w, i, n or -; length or value; the text in hex. Each function puts it behind what the line has.
ghost use Rattle.std.specs.Prelude.{◌≡◌, [], ◌∷◌};
ghost use Rattle.meaning.specs.Numbers.{printed};
ghost use Rattle.meaning.specs.Answers.{refusal_number};
ghost use Rattle.meaning.specs.Records.{line, refused_line, shown_line, text_line_as, range_line, charset_line, integer_line};
ghost use Rattle.records.specs.Adding.{pushed};
ghost use Rattle.records.specs.Heads.{front_of, back_of};

use crate::pushing::Line;
use leaves::views::part_of;
use meaning::{Part, Refusal, Text};
use questions::refusals::refusal_number;

// A line's number and the letter behind it.
fn push_front(number: u64, how: u8, to: &mut Line)
    ensures { to.new ≡ pushed to.old (front_of number how) }
{
    to.push_number(number);
    to.push_all(&[b' ', how, b' ']);
}

// The text and the line's end.
fn push_back(text: &[u8], to: &mut Line)
    ensures { to.new ≡ pushed to.old (back_of text.now) }
{
    to.push(b' ');
    to.push_hex_text(text);
    to.push(b'\n');
}

// The line of a number alone.
pub(crate) fn bare_line(number: u64, how: u8, to: &mut Line)
    ensures { to.new ≡ pushed to.old (line number how (48 ∷ []) []) }
{
    push_front(number, how, to);
    to.push(b'0');
    push_back(b"", to);
}

// The line of a refusal.
fn refused_line(refusal: Refusal, to: &mut Line)
    ensures { to.new ≡ pushed to.old (refused_line (refusal_number refusal)) }
{
    bare_line(refusal_number(refusal) as u64, b'-', to);
}

// The line of a text that an answer shows.
fn shown_line(how: u8, text: &[u8], to: &mut Line)
    ensures { to.new ≡ pushed to.old (shown_line how text.now) }
{
    push_front(0, how, to);
    to.push_number(text.len() as u64);
    push_back(text, to);
}

// The line of a text, a part of the source or of the buffer.
// Rules out: b for w (must-fail: another_letter).
pub(crate) fn text_line(source: &[u8], answer: Result<Text, Refusal>, out: &[u8], to: &mut Line)
    ensures { to.new ≡ pushed to.old (text_line_as source.now out.now answer) }
{
    match answer {
        Ok(Text::Borrowed { start, end }) => shown_line(b'b', part_of(source, start, end), to),
        Ok(Text::Written { len }) => shown_line(b'w', part_of(out, 0, len), to),
        Err(refusal) => refused_line(refusal, to),
    }
}

// The line of a part of the source.
pub(crate) fn range_line(source: &[u8], answer: Result<Part, Refusal>, to: &mut Line)
    ensures { to.new ≡ pushed to.old (range_line source.now answer) }
{
    match answer {
        Ok(part) => shown_line(b'b', part_of(source, part.start, part.end), to),
        Err(refusal) => refused_line(refusal, to),
    }
}

// The line of a charset's name.
// Rules out: - for n (must-fail: another_letter).
pub(crate) fn charset_line(source: &[u8], answer: Result<Option<Part>, Refusal>, to: &mut Line)
    ensures { to.new ≡ pushed to.old (charset_line source.now answer) }
{
    match answer {
        Ok(Some(part)) => shown_line(b'b', part_of(source, part.start, part.end), to),
        Ok(None) => bare_line(0, b'n', to),
        Err(refusal) => refused_line(refusal, to),
    }
}

// The line of an integer's value.
// Rules out: b for i (must-fail: another_letter).
fn value_line(value: i64, to: &mut Line)
    ensures { to.new ≡ pushed to.old (line 0 105 (printed value) []) }
{
    push_front(0, b'i', to);
    to.push_integer(value);
    push_back(b"", to);
}

// An integer's line, or why there is none.
pub(crate) fn integer_line(answer: Result<i64, Refusal>, to: &mut Line)
    ensures { to.new ≡ pushed to.old (integer_line answer) }
{
    match answer {
        Ok(value) => value_line(value, to),
        Err(refusal) => refused_line(refusal, to),
    }
}
