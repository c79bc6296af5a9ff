// Questions whose answer is a text, a part of the source or written into the buffer: string, decimal, bits, temporal.
ghost use Rattle.std.specs.Prelude.{◌≡◌, ℕ};
ghost use Rattle.meaning.specs.declared.Refusal.{Refusal};
ghost use Rattle.meaning.specs.Answers.{Meets};
ghost use Rattle.meaning.specs.Questions.{string_question, plain_question, decimal_question, bits_question, temporal_question};
ghost use Rattle.questions.specs.Told.{InText, told_by};

use admitting::kinds::{bit_base, is_number, is_string, is_temporal};
use admitting::tests::{locate, test};
use bits::reading::read_bits;
use decimals::decimal::read_decimal;
use kinds::temporal::read_temporal;
use meaning::{Literal, LiteralExpected, ReadRefusal, ReadText, Refusal, Settings, Span, Text};
use strings::plain::is_plain_ascii;
use strings::reading::read_string;

// A reading of the text at a place of the source, told of the source; `bad` says why one is refused that stops at a place, and is asked where that is due.
// Rules out: 0 told for every place; the length that is needed told for one (must-fail: place_left_out, length_for_place).
fn text_of<F: FnOnce(usize) -> Refusal>(
    read: Result<ReadText, ReadRefusal>,
    start: usize,
    bad: F,
) -> Result<Text, Refusal>
    requires callable { F.IsAlwaysCallable bad }
    requires inside { InText start read }
    ensures { (b : ℕ → Refusal) → ((p : ℕ) (x : Refusal) → F.post bad p x → x ≡ b p) → result ≡ told_by b start read }
{
    match read {
        Ok(ReadText::Borrowed { from, until }) => Ok(Text::Borrowed {
            start: start + from,
            end: start + until,
        }),
        Ok(ReadText::Written { len }) => Ok(Text::Written { len }),
        Err(ReadRefusal::At { place }) => Err(bad(place)),
        Err(ReadRefusal::NoRoom { needed }) => Err(Refusal::NoRoom { needed }),
    }
}

// What a string literal means at a setting.
// Rules out: the setting passed over; dates asked; 7 for 6; the text's start told for the place (must-fail: one_for_another, another_kind_asked,
// seven_for_six, start_for_place).
pub fn as_str_in(
    literal: Literal,
    source: &[u8],
    settings: Settings,
    out: &mut [u8],
) -> Result<Text, Refusal>
    ensures { Meets (string_question literal source.now settings out.old) result out.new }
{
    let span = literal.span;
    let right = is_string(literal.kind);
    let part = locate(right, LiteralExpected::String, literal, source)?;
    let text = &source[part.start..part.end];
    if is_plain_ascii(text, settings) {
        return Ok(Text::Borrowed {
            start: part.start + 1,
            end: part.end - 1,
        });
    }
    match read_string(text, settings, out) {
        Ok(read) => text_of(
            read,
            part.start,
            |place| Refusal::InvalidString { span, place },
        ),
        Err(_) => Err(Refusal::NotUtf8(span)),
    }
}

// What a string literal means with the setting off.
// Rules out: the setting on; a number's text given (must-fail: setting_on, another_answer_shown).
pub fn as_str(literal: Literal, source: &[u8], out: &mut [u8]) -> Result<Text, Refusal>
    ensures { Meets (plain_question literal source.now out.old) result out.new }
{
    as_str_in(literal, source, Settings { backslash: false }, out)
}

// A number's decimal text.
// Rules out: 8 for 5; integers alone asked (must-fail: one_for_another, some_left_out).
pub fn as_decimal_text(literal: Literal, source: &[u8], out: &mut [u8]) -> Result<Text, Refusal>
    ensures { Meets (decimal_question literal source.now out.old) result out.new }
{
    let span = literal.span;
    let right = is_number(literal.kind);
    let part = test(right, LiteralExpected::DecimalText, literal, source)?;
    let read = read_decimal(&source[part.start..part.end], out);
    text_of(read, part.start, |_| Refusal::InvalidInteger(span))
}

// A bit string's digits, its text cut with the setting off.
// Rules out: 8 for 7; hex digits asked of every bit string (must-fail: one_for_another, another_kind_asked).
pub fn as_bit_text(literal: Literal, source: &[u8], out: &mut [u8]) -> Result<Text, Refusal>
    ensures { Meets (bits_question literal source.now out.old) result out.new }
{
    let span = literal.span;
    let base = bit_base(literal.kind);
    let right = 0 < base;
    let part = test(right, LiteralExpected::BitString, literal, source)?;
    let digits = &source[part.start..part.end];
    let read = read_bits(digits, base, Settings { backslash: false }, out);
    text_of(read, part.start, |_| Refusal::InvalidBitString(span))
}

// What a temporal literal's token means with the setting off.
// Rules out: intervals refused; strings asked; 7 for 6; the text's start told for the place (must-fail: off_by_one, another_kind_asked, seven_for_six,
// start_for_place).
pub fn as_temporal_text(literal: Literal, source: &[u8], out: &mut [u8]) -> Result<Text, Refusal>
    ensures { Meets (temporal_question literal source.now out.old) result out.new }
{
    let span = literal.span;
    let right = is_temporal(literal.kind);
    let part = test(right, LiteralExpected::Temporal, literal, source)?;
    let token = &source[part.start..part.end];
    let read = read_temporal(token, Settings { backslash: false }, out);
    text_of(
        read,
        part.start,
        |place| Refusal::InvalidString { span, place },
    )
}
