// Questions whose answer is a part of the source: the literal's text, money, a charset's name. Each has a sister that gives the part itself.
ghost use Rattle.std.specs.Prelude.{◌≡◌};
ghost use Rattle.meaning.specs.Questions.{source_question, money_question, charset_question};
ghost use Rattle.meaning.specs.Kinds.{charset_end};
ghost use Rattle.meaning.specs.Answers.{IsPart, range_shown, range_place, charset_shown, charset_place};
ghost use Rattle.questions.specs.Told.{InText, range_by};

use crate::shown::{charset_shown, range_shown};
use admitting::kinds::{is_money, is_string};
use admitting::tests::{test, test_source};
use cutting::openings::opening_len;
use kinds::money::read_money;
use leaves::bytes::byte_at;
use meaning::{Literal, LiteralExpected, Part, ReadRefusal, ReadText, Refusal};

// Where a literal's text stands; no kind is asked.
// Rules out: a part from the source's start; an empty part (must-fail: another_part, some_left_out).
pub fn source_range(literal: Literal, source: &[u8]) -> Result<Part, Refusal>
    ensures { result ≡ source_question literal source.now }
{
    test_source(literal, source)
}

// A literal's text, a part of the source; empty on a refusal.
// Rules out: the source's first byte shown; the whole source shown (must-fail: first_byte_shown, whole_source_shown).
pub fn source_text(literal: Literal, source: &[u8]) -> &[u8]
    ensures { IsPart (range_shown source.now (source_question literal source.now))
        (range_place source.entry (source_question literal source.now)) result }
{
    let text = source_range(literal, source);
    range_shown(source, text)
}

// A reading of the text at a place of the source, as a part of the source; `bad` is why anything but a part of the text is refused.
fn range_of(
    read: Result<ReadText, ReadRefusal>,
    start: usize,
    bad: Refusal,
) -> Result<Part, Refusal>
    requires { InText start read }
    ensures { result ≡ range_by bad start read }
{
    match read {
        Ok(ReadText::Borrowed { from, until }) => Ok(Part {
            start: start + from,
            end: start + until,
        }),
        Ok(ReadText::Written { len: _ }) => Err(bad),
        Err(ReadRefusal::At { place: _ }) => Err(bad),
        Err(ReadRefusal::NoRoom { needed: _ }) => Err(bad),
    }
}

// Where a money literal's text behind its $ stands.
// Rules out: 5 for 8; bit strings asked (must-fail: one_for_another, another_kind_asked).
pub fn money_range(literal: Literal, source: &[u8]) -> Result<Part, Refusal>
    ensures { result ≡ money_question literal source.now }
{
    let span = literal.span;
    let right = is_money(literal.kind);
    let part = test(right, LiteralExpected::Money, literal, source)?;
    let read = read_money(&source[part.start..part.end]);
    range_of(read, part.start, Refusal::InvalidMoney(span))
}

// A money literal's text behind its $, a part of the source; empty on a refusal.
// Rules out: the source's first byte shown; the whole source shown (must-fail: first_byte_shown, whole_source_shown).
pub fn as_money_text(literal: Literal, source: &[u8]) -> &[u8]
    ensures { IsPart (range_shown source.now (money_question literal source.now))
        (range_place source.entry (money_question literal source.now)) result }
{
    let money = money_range(literal, source);
    range_shown(source, money)
}

// One past the charset's name at a text's front; 0 if there is none.
fn charset_end(text: &[u8]) -> usize
    ensures { result ≡ charset_end text.now }
{
    if byte_at(text, 0) != 95 {
        return 0;
    }
    let open = opening_len(text);
    if open == 0 {
        return 0;
    }
    open - 1
}

// Where the name of a string literal's charset stands, if it names one.
// Rules out: a name told where none ends; decimals asked (must-fail: off_by_one, another_kind_asked).
pub fn charset_range(literal: Literal, source: &[u8]) -> Result<Option<Part>, Refusal>
    ensures { result ≡ charset_question literal source.now }
{
    let right = is_string(literal.kind);
    let part = test(right, LiteralExpected::String, literal, source)?;
    let n = charset_end(&source[part.start..part.end]);
    if n == 0 {
        return Ok(None);
    }
    Ok(Some(Part {
        start: part.start + 1,
        end: part.start + n,
    }))
}

// The name of a string literal's charset, a part of the source; empty on a refusal and without a name.
// Rules out: the source's first byte shown; the whole source shown (must-fail: first_byte_shown, whole_source_shown).
pub fn charset_introducer(literal: Literal, source: &[u8]) -> &[u8]
    ensures { IsPart (charset_shown source.now (charset_question literal source.now))
        (charset_place source.entry (charset_question literal source.now)) result }
{
    let name = charset_range(literal, source);
    charset_shown(source, name)
}
