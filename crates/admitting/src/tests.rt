// The tests 1 to 4, in their order: kind, source, span, UTF-8.
ghost use Rattle.std.specs.Prelude.{◌≡◌};
ghost use Rattle.meaning.specs.Questions.{cuts_character, bad_span, source_text, tested};
ghost use Rattle.admitting.specs.Tests.{is_placed, misplaced_of, Tests, Locates};

use leaves::bytes::byte_at;
use meaning::{Literal, LiteralExpected, Part, Refusal, Span};
use utf8::check::is_utf8;

// Whether a place cuts a character: it is below the source's length, and its byte is 80 to BF hex.
fn cuts_character(source: &[u8], at: usize) -> bool
    ensures { result ≡ cuts_character at source.now }
{
    let byte = byte_at(source, at);
    (at < source.len()) & ((0x80 <= byte) & (byte <= 0xBF))
}

// Whether a span is no span of the source: backwards, past the end, or cutting a character at either place.
// Rules out: an end past the source taken; a span that begins in a character taken (must-fail: number_past_the_last, setting_past_the_last).
pub fn is_bad_span(span: Span, source: &[u8]) -> bool
    ensures { result ≡ bad_span span source.now }
{
    let start = span.start as usize;
    let end = span.end as usize;
    (end < start)
        | (source.len() < end)
        | cuts_character(source, start)
        | cuts_character(source, end)
}

// The tests 2 and 3: the literal stands in a source, and its span is one of the source.
fn is_placed(literal: Literal, source: &[u8]) -> bool
    ensures { result ≡ is_placed literal source.now }
{
    !literal.synthetic & !is_bad_span(literal.span, source)
}

// Which of the two a literal fails that does not pass both.
fn misplaced(literal: Literal) -> Refusal
    ensures { result ≡ misplaced_of literal }
{
    let span = literal.span;
    if literal.synthetic {
        return Refusal::MissingSource(span);
    }
    Refusal::InvalidSourceRange(span)
}

// The tests 1 to 3: `right` says whether the kind fits the question, which expects `expected`. Whoever reads the text tests 4.
// Rules out: the kind passed over; another family told (must-fail: located_for_another, located_whatever_its_kind).
pub fn locate(
    right: bool,
    expected: LiteralExpected,
    literal: Literal,
    source: &[u8],
) -> Result<Part, Refusal>
    ensures { Locates literal source.now result (tested right expected literal source.now) }
{
    if !right {
        let found = literal.kind;
        return Err(Refusal::WrongKind(expected, found));
    }
    if !is_placed(literal, source) {
        return Err(misplaced(literal));
    }
    let span = literal.span;
    Ok(Part {
        start: span.start as usize,
        end: span.end as usize,
    })
}

// The tests 2, 3 and 4: the literal stands in a source, its span is one of the source, and its text is UTF-8. Each way out is made where it is known: an answer
// that is taken apart and put together again goes through memory, which cost 18 ns here.
// Rules out: the text's end given for its start; a text that is not UTF-8 told as one without a source (must-fail: end_for_start, two_told_as_one).
pub fn test_source(literal: Literal, source: &[u8]) -> Result<Part, Refusal>
    ensures { Tests literal source.now result (source_text literal source.now) }
{
    if !is_placed(literal, source) {
        return Err(misplaced(literal));
    }
    let span = literal.span;
    let start = span.start as usize;
    let end = span.end as usize;
    if !is_utf8(&source[start..end]) {
        return Err(Refusal::NotUtf8(span));
    }
    Ok(Part { start, end })
}

// The tests 1 to 4: `right` says whether the kind fits the question, which expects `expected`. It is always put in place: where LLVM leaves it a call of its own,
// as for Arm, a decimal question takes more stack than it may.
// Rules out: the kind passed over; another family told (must-fail: another_expected, kind_passed_over).
#[inline(always)]
pub fn test(
    right: bool,
    expected: LiteralExpected,
    literal: Literal,
    source: &[u8],
) -> Result<Part, Refusal>
    ensures { Tests literal source.now result (tested right expected literal source.now) }
{
    if right {
        return test_source(literal, source);
    }
    let kind = literal.kind;
    Err(Refusal::WrongKind(expected, kind))
}
