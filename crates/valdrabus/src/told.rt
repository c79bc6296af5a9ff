// An answer in five numbers: 0 or the refusal's number; how a text is answered; two numbers more, a range, a span, or what a refusal returns; and the place
// where the reading of a string stops.
ghost use Rattle.std.specs.Prelude.{◌≡◌};
ghost use Rattle.valdrabus.specs.Numbers.{number_told, borrowed_told, written_told, room_told, span_told, place_told, refusal_told, Says, SaysPlace};
ghost use Rattle.valdrabus.specs.Numbers.{text_told, range_told, charset_told, truth_told, nullness_told, identifier_told, writing_told, bit_writing_told};

use admitting::kinds::kind_code;
use meaning::{BitWritingError, IdentifierError, Part, Refusal, Span, Text, WritingError};
use questions::refusals::expected_code;

// Stays: the numbers that exports hand to C; of a boolean's question `how` is the value (`truth_told` of specs/Numbers).
#[derive(Clone, Copy)]
pub(crate) struct Told {
    pub number: u32,
    pub how: u32,
    pub first: usize,
    pub second: usize,
    pub place: usize,
}

// A number alone.
pub(crate) fn number_told(number: u32) -> Told
    ensures { result ≡ number_told number }
{
    Told {
        number,
        how: 0,
        first: 0,
        second: 0,
        place: 0,
    }
}

// A refusal that returns the literal's span.
fn span_told(number: u32, span: Span) -> Told
    ensures { result ≡ span_told number span }
{
    Told {
        first: span.start as usize,
        second: span.end as usize,
        ..number_told(number)
    }
}

// A string that is not readable: the literal's span, and where reading stops.
fn place_told(span: Span, place: usize) -> Told
    ensures { result ≡ place_told span place }
{
    Told {
        place,
        ..span_told(6, span)
    }
}

// A part of the source.
fn borrowed_told(first: usize, second: usize) -> Told
    ensures { result ≡ borrowed_told first second }
{
    Told {
        how: 1,
        first,
        second,
        ..number_told(0)
    }
}

// The buffer's start.
pub(crate) fn written_told(second: usize) -> Told
    ensures { result ≡ written_told second }
{
    Told {
        how: 2,
        second,
        ..number_told(0)
    }
}

// A length for which there is no room.
fn room_told(second: usize) -> Told
    ensures { result ≡ room_told second }
{
    Told {
        second,
        ..number_told(9)
    }
}

pub(crate) fn refusal_told(refusal: Refusal) -> Told
    ensures { result ≡ refusal_told refusal }
{
    match refusal {
        Refusal::WrongKind(expected, kind) => {
            Told {
                first: expected_code(expected) as usize,
                second: kind_code(kind) as usize,
                ..number_told(1)
            }
        }
        Refusal::MissingSource(span) => span_told(2, span),
        Refusal::InvalidSourceRange(span) => span_told(3, span),
        Refusal::NotUtf8(span) => span_told(4, span),
        Refusal::InvalidInteger(span) => span_told(5, span),
        Refusal::InvalidString { span, place } => place_told(span, place),
        Refusal::InvalidBitString(span) => span_told(7, span),
        Refusal::InvalidMoney(span) => span_told(8, span),
        Refusal::NoRoom { needed } => room_told(needed),
        Refusal::InvalidDate(span) => span_told(14, span),
    }
}

pub(crate) fn text_told(answer: Result<Text, Refusal>) -> Told
    ensures { result ≡ text_told answer }
{
    match answer {
        Ok(Text::Borrowed { start, end }) => borrowed_told(start, end),
        Ok(Text::Written { len }) => written_told(len),
        Err(refusal) => refusal_told(refusal),
    }
}

pub(crate) fn range_told(answer: Result<Part, Refusal>) -> Told
    ensures { result ≡ range_told answer }
{
    match answer {
        Ok(part) => borrowed_told(part.start, part.end),
        Err(refusal) => refusal_told(refusal),
    }
}

pub(crate) fn charset_told(answer: Result<Option<Part>, Refusal>) -> Told
    ensures { result ≡ charset_told answer }
{
    match answer {
        Ok(Some(part)) => borrowed_told(part.start, part.end),
        Ok(None) => number_told(0),
        Err(refusal) => refusal_told(refusal),
    }
}

// A boolean's value stands where another answer says how.
pub(crate) fn truth_told(answer: Result<bool, Refusal>) -> Told
    ensures { result ≡ truth_told answer }
{
    match answer {
        Ok(value) => Told {
            how: value as u32,
            ..number_told(0)
        },
        Err(refusal) => refusal_told(refusal),
    }
}

pub(crate) fn nullness_told(answer: Result<(), Refusal>) -> Told
    ensures { result ≡ nullness_told answer }
{
    match answer {
        Ok(()) => number_told(0),
        Err(refusal) => refusal_told(refusal),
    }
}

pub(crate) fn identifier_told(answer: Result<Text, IdentifierError>) -> Told
    ensures { result ≡ identifier_told answer }
{
    match answer {
        Ok(Text::Borrowed { start, end }) => borrowed_told(start, end),
        Ok(Text::Written { len }) => written_told(len),
        Err(IdentifierError::NotUtf8) => number_told(4),
        Err(IdentifierError::InvalidString) => number_told(6),
        Err(IdentifierError::NoRoom { needed }) => room_told(needed),
    }
}

// The writer's answer: how long the text is, or would be, stands second.
pub(crate) fn writing_told(answer: Result<usize, WritingError>) -> Told
    ensures { result ≡ writing_told answer }
{
    match answer {
        Ok(len) => written_told(len),
        Err(WritingError::OverLimit) => number_told(12),
        Err(WritingError::NotUtf8) => number_told(4),
        Err(WritingError::HoldsNul) => number_told(11),
        Err(WritingError::NoRoom { needed }) => room_told(needed),
    }
}

// [02 T-07] The same of a bit string.
// Rules out: 12 for 16 (must-fail: numbers_mistaken).
pub(crate) fn bit_writing_told(answer: Result<usize, BitWritingError>) -> Told
    ensures { result ≡ bit_writing_told answer }
{
    match answer {
        Ok(len) => written_told(len),
        Err(BitWritingError::OverLimit) => number_told(12),
        Err(BitWritingError::BadBits) => number_told(16),
        Err(BitWritingError::NoRoom { needed }) => room_told(needed),
    }
}

// Lends the numbers out, the refusal's as the result.
pub(crate) fn tell(told: Told, how: &mut u32, first: &mut usize, second: &mut usize) -> u32
    ensures { Says told result how.new first.new second.new }
{
    *how = told.how;
    *first = told.first;
    *second = told.second;
    told.number
}

// The same, the place too.
pub(crate) fn tell_place(
    told: Told,
    how: &mut u32,
    first: &mut usize,
    second: &mut usize,
    place: &mut usize,
) -> u32
    ensures { SaysPlace told result how.new first.new second.new place.new }
{
    *place = told.place;
    tell(told, how, first, second)
}
