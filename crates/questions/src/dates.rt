// [02 T-05] The question whose answer is a day.
ghost use Rattle.std.specs.Prelude.{◌≡◌, false};
ghost use Rattle.meaning.specs.Cutting.{off};
ghost use Rattle.meaning.specs.Reading.{value_of};
ghost use Rattle.meaning.specs.Kinds.{temporal};
ghost use Rattle.meaning.specs.Dates.{dated_on, dated_as, date_question};
ghost use Rattle.laws.proofs.dates.Joined.{ends_in_e};
ghost use Rattle.questions.specs.Quick.{Quick};

use admitting::kinds::is_date;
use admitting::tests::test;
use calendar::values::day_in;
use kinds::temporal::{first_mark, read_temporal};
use leaves::views::shown;
use meaning::{
    CalendarDay, Literal, LiteralExpected, ReadRefusal, ReadText, Refusal, Settings, Span,
};

// The day that a value is, or 14 with the literal's span.
// Rules out: 7 for 14 (must-fail: seven_for_fourteen).
fn dated_on(day: Option<CalendarDay>, span: Span) -> Result<CalendarDay, Refusal>
    ensures { result ≡ dated_on span day }
{
    match day {
        Some(found) => Ok(found),
        None => Err(Refusal::InvalidDate(span)),
    }
}

// Whether words end in an E, which before a quote mark may begin an E string.
// Rules out: e taken for no E (must-fail: e_for_no_e).
fn ends_in_e(words: &[u8]) -> bool
    ensures { result ≡ false → ends_in_e words.now ≡ false }
{
    if words.len() == 0 {
        return false;
    }
    let last = words[words.len() - 1];
    (last == 69) | (last == 101)
}

// The day of a text that ends in ten bytes between two quote marks, behind words that hold neither a quote mark nor a $, as DATE '2027-01-31' does: what stands
// between the marks is its value. No day where the text is another one: then it has to be read.
// Rules out: marks passed over in the words; the last byte not looked at (must-fail: mark_passed_over, last_byte_passed_over).
fn quick_date(text: &[u8]) -> Option<CalendarDay>
    ensures { Quick text.now result }
{
    if text.len() < 12 {
        return None;
    }
    let at = text.len() - 12;
    if (text[at] != 39) | (text[text.len() - 1] != 39) {
        return None;
    }
    if ends_in_e(&text[..at]) | (first_mark(text) != at) {
        return None;
    }
    day_in(&text[at + 1..text.len() - 1])
}

// The day of a text, read to its end: a later segment may refuse what is no date already. Ten bytes of room are enough: a longer value is no date.
// Rules out: 14 where the text is refused; 6 where a value is too long; 0 for every place; the setting on
// (must-fail: fourteen_for_six, another_reason_told, place_zero, setting_on).
fn read_date(text: &[u8], span: Span) -> Result<CalendarDay, Refusal>
    ensures { result ≡ dated_as span (value_of text.now (temporal off text.now)) }
{
    let mut ten = [0u8; 10];
    let read = read_temporal(text, Settings { backslash: false }, &mut ten);
    match read {
        Err(ReadRefusal::At { place }) => Err(Refusal::InvalidString { span, place }),
        Ok(_) => dated_on(day_in(shown(text, &ten, read)), span),
        Err(ReadRefusal::NoRoom { needed: _ }) => dated_on(None, span),
    }
}

// The day of a text: as most stand, told at once; any other read.
fn date_of(text: &[u8], span: Span) -> Result<CalendarDay, Refusal>
    ensures { result ≡ dated_as span (value_of text.now (temporal off text.now)) }
{
    match quick_date(text) {
        Some(found) => Ok(found),
        None => read_date(text, span),
    }
}

// The day of a date literal, with the setting off. No buffer is lent.
// Rules out: a temporal literal expected; times asked; every kind from dates on asked (must-fail: one_for_another, another_kind_asked, more_kinds_asked).
pub fn as_date(literal: Literal, source: &[u8]) -> Result<CalendarDay, Refusal>
    ensures { result ≡ date_question literal source.now }
{
    let span = literal.span;
    let right = is_date(literal.kind);
    let part = test(right, LiteralExpected::Date, literal, source)?;
    date_of(&source[part.start..part.end], span)
}
