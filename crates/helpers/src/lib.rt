// [01 What is carried over; One segment] The helpers on bare text. The test of a UESCAPE argument and the two validators say no on text that isn't UTF-8, the
// validators yes on other text outside their spelling; the test of an identifier reads bytes.
#![tactic(auto)]

ghost use Rattle.std.specs.Prelude.{not, ◌≡◌};
ghost use Rattle.meaning.specs.Answers.{Meets};
ghost use Rattle.meaning.specs.Helpers.{uescape_legal, escape_valid, unicode_valid, is_unicode_ident};
ghost use Rattle.meaning.specs.Questions.{identifier_question};
ghost use Rattle.meaning.specs.Walk.{stops};
ghost use Rattle.escapes.specs.Families.{course_of};

use cutting::marks::Mark;
use escapes::reading::read_units;
use escapes::units::Family;
use leaves::bytes::byte_at;
use leaves::texts::is_enclosed;
use meaning::{IdentifierError, ReadRefusal, ReadText, Text};
use spellings::spelling::{Spelled, is_unicode_lexeme, unicode_lexeme};
use strings::ident::{read_ident, read_lexeme};
use uescape::{Argument, uescape_argument};
use utf8::check::is_utf8;

// Whether a quoted argument holds a legal UESCAPE character, and nothing else.
// Rules out: bytes that aren't UTF-8 taken for a character; an illegal character taken (must-fail: bytes_pass, too_much_accepted).
pub fn uescape_argument_is_legal(text: &[u8]) -> bool
    ensures { result ≡ uescape_legal text.now }
{
    match uescape_argument(text) {
        Argument::Legal => is_utf8(text),
        Argument::Illegal => false,
    }
}

// Whether a body can be read to its end. A raw NUL does not stop it as such.
// Stays: three arms say which readings go through; a negated `matches!` of the one that does not is no plainer.
fn is_readable(body: &[u8], family: Family, escape: &[u8]) -> bool
    ensures { result ≡ not (stops (course_of family escape.now body.now)) }
{
    let mut none = [0u8; 0];
    match read_units(body, family, escape, &mut none) {
        Ok(_) => true,
        Err(ReadRefusal::At { place: _ }) => false,
        Err(ReadRefusal::NoRoom { needed: _ }) => true,
    }
}

// Whether an E string's body, from the first quote mark to the last, has only good escapes and no lone mark. Yes for text outside this spelling. It can
// differ from reading.
// Rules out: a body passed whose expansion alone is UTF-8; " taken for the mark of an E string (must-fail: bytes_pass, other_mark).
pub fn postgres_escape_string_is_valid(text: &[u8]) -> bool
    ensures { result ≡ escape_valid text.now }
{
    let utf8 = is_utf8(text);
    let first = byte_at(text, 0);
    if !(((first == 69) | (first == 101)) & is_enclosed(text, 1, 39)) {
        return utf8;
    }
    let until = text.len() - 1;
    utf8 & is_readable(&text[2..until], Family::Escape, b"\\")
}

// Whether a U& string's body has only good escapes by its escape character. Yes for text outside this spelling, a bad UESCAPE clause included.
// Rules out: bytes that aren't UTF-8 passed; an identifier judged for a string (must-fail: bytes_pass, other_mark).
pub fn unicode_escape_string_is_valid(text: &[u8]) -> bool
    ensures { result ≡ unicode_valid text.now }
{
    let utf8 = is_utf8(text);
    let mark = Mark::Quote;
    if let Spelled::Unspelt = unicode_lexeme(text, mark) {
        return utf8;
    }
    let mut none = [0u8; 0];
    match read_lexeme(text, mark, &mut none) {
        Ok(_) => utf8,
        Err(ReadRefusal::At { place: _ }) => false,
        Err(ReadRefusal::NoRoom { needed: _ }) => utf8,
    }
}

// Whether a text begins as a U& identifier: three bytes decide, UTF-8 or not.
// Rules out: UTF-8 asked for; a string taken for an identifier (must-fail: bytes_pass, other_mark).
pub fn is_unicode_ident(text: &[u8]) -> bool
    ensures { result ≡ is_unicode_ident text.now }
{
    is_unicode_lexeme(text, Mark::DoubleQuote)
}

// Reads an identifier's text: a part of it, or so many bytes at the buffer's start. Not UTF-8 comes before all else that refuses.
// Rules out: bytes that aren't UTF-8 told as a bad string; a length told where nothing is written (must-fail: bytes_pass, too_much_accepted).
pub fn materialize_unicode_ident(text: &[u8], out: &mut [u8]) -> Result<Text, IdentifierError>
    ensures { Meets (identifier_question text.now out.old) result out.new }
{
    if !is_utf8(text) {
        return Err(IdentifierError::NotUtf8);
    }
    match read_ident(text, out) {
        Ok(ReadText::Borrowed { from, until }) => Ok(Text::Borrowed {
            start: from,
            end: until,
        }),
        Ok(ReadText::Written { len }) => Ok(Text::Written { len }),
        Err(ReadRefusal::At { place: _ }) => Err(IdentifierError::InvalidString),
        Err(ReadRefusal::NoRoom { needed }) => Err(IdentifierError::NoRoom { needed }),
    }
}
