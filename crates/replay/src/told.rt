// What any answer tells: its number, a letter for its case, and up to four values, 0 where there is none. The third is the place of a 6; of a date they are
// the year, the month, the day and the number; of packed bits the second is the bit count.
use admitting::kinds::kind_code;
use meaning::{
    BitWritingError, CalendarDay, IdentifierError, PackedBits, Part, Refusal, Span, Text,
    WritingError,
};
use questions::refusals::{expected_code, refusal_number};

#[derive(Clone, Copy, PartialEq)]
pub(crate) struct Told {
    pub number: u32,
    // Stays: letters and no enum, since what a row says is due is printed as it stands, whatever it is.
    pub letter: u8,
    pub first: usize,
    pub second: usize,
    pub third: usize,
    pub fourth: usize,
}

// The letters: b borrowed, w written, i an integer, n no name, y a yes or no, p a prefix, d a day, r refused, c a call on a block.
const BORROWED: u8 = 98;

const WRITTEN: u8 = 119;

const INTEGER: u8 = 105;

const UNNAMED: u8 = 110;

pub(crate) const TRUTH: u8 = 121;

pub(crate) const PREFIX: u8 = 112;

const DAY: u8 = 100;

const REFUSED: u8 = 114;

const CALLED: u8 = 99;

// Stays: the two numbers are fields of `Told`, which this makes; what they are differs by the letter.
pub(crate) fn answered(letter: u8, first: usize, second: usize) -> Told {
    Told {
        number: 0,
        letter,
        first,
        second,
        third: 0,
        fourth: 0,
    }
}

pub(crate) fn refused(number: u32, first: usize, second: usize) -> Told {
    Told {
        number,
        letter: REFUSED,
        first,
        second,
        third: 0,
        fourth: 0,
    }
}

// A call's number, a place of its answer slice, and the number there.
pub(crate) fn called(number: u32, place: usize, found: u32) -> Told {
    Told {
        number,
        letter: CALLED,
        first: place,
        second: found as usize,
        third: 0,
        fourth: 0,
    }
}

// An answer that another question on the same does not gainsay.
pub(crate) fn agreed(told: Told, agrees: bool) -> Told {
    if agrees {
        return told;
    }
    refused(0, 0, 0)
}

fn refused_span(number: u32, span: Span) -> Told {
    refused(number, span.start as usize, span.end as usize)
}

// 6 gives back the span and the place in the text.
fn refused_at(number: u32, span: Span, place: usize) -> Told {
    Told {
        number,
        letter: REFUSED,
        first: span.start as usize,
        second: span.end as usize,
        third: place,
        fourth: 0,
    }
}

fn refusal_told(refusal: Refusal) -> Told {
    let number = refusal_number(refusal);
    match refusal {
        Refusal::WrongKind(expected, kind) => refused(
            number,
            expected_code(expected) as usize,
            kind_code(kind) as usize,
        ),
        Refusal::MissingSource(span) => refused_span(number, span),
        Refusal::InvalidSourceRange(span) => refused_span(number, span),
        Refusal::NotUtf8(span) => refused_span(number, span),
        Refusal::InvalidInteger(span) => refused_span(number, span),
        Refusal::InvalidString { span, place } => refused_at(number, span, place),
        Refusal::InvalidBitString(span) => refused_span(number, span),
        Refusal::InvalidMoney(span) => refused_span(number, span),
        Refusal::NoRoom { needed } => refused(number, needed, 0),
        Refusal::InvalidDate(span) => refused_span(number, span),
    }
}

pub(crate) fn text_told(answer: Result<Text, Refusal>) -> Told {
    match answer {
        Ok(Text::Borrowed { start, end }) => answered(BORROWED, start, end),
        Ok(Text::Written { len }) => answered(WRITTEN, len, 0),
        Err(refusal) => refusal_told(refusal),
    }
}

// The text that an answer tells, for the view; anything else shows nothing.
pub(crate) fn text_of(told: Told) -> Result<Text, Refusal> {
    if told.letter == BORROWED {
        return Ok(Text::Borrowed {
            start: told.first,
            end: told.second,
        });
    }
    Ok(Text::Written {
        len: filled_by(told),
    })
}

pub(crate) fn range_told(answer: Result<Part, Refusal>) -> Told {
    match answer {
        Ok(part) => answered(BORROWED, part.start, part.end),
        Err(refusal) => refusal_told(refusal),
    }
}

pub(crate) fn charset_told(answer: Result<Option<Part>, Refusal>) -> Told {
    match answer {
        Ok(Some(part)) => answered(BORROWED, part.start, part.end),
        Ok(None) => answered(UNNAMED, 0, 0),
        Err(refusal) => refusal_told(refusal),
    }
}

// The integer of a size; where `below` is 1, as far below minus one.
fn integer_of(size: usize, below: usize) -> i64 {
    if 0x7FFF_FFFF_FFFF_FFFF < size {
        return 0;
    }
    if below == 1 {
        return !(size as i64);
    }
    size as i64
}

// The value is told as the one that is due, if it is that.
pub(crate) fn integer_told(answer: Result<i64, Refusal>, size: usize, below: usize) -> Told {
    match answer {
        Ok(value) => agreed(
            answered(INTEGER, size, below),
            value == integer_of(size, below),
        ),
        Err(refusal) => refusal_told(refusal),
    }
}

pub(crate) fn bool_told(answer: Result<bool, Refusal>) -> Told {
    match answer {
        Ok(value) => answered(TRUTH, value as usize, 0),
        Err(refusal) => refusal_told(refusal),
    }
}

pub(crate) fn null_told(answer: Result<(), Refusal>) -> Told {
    match answer {
        Ok(()) => answered(TRUTH, 1, 0),
        Err(refusal) => refusal_told(refusal),
    }
}

pub(crate) fn identifier_told(answer: Result<Text, IdentifierError>) -> Told {
    match answer {
        Ok(Text::Borrowed { start, end }) => answered(BORROWED, start, end),
        Ok(Text::Written { len }) => answered(WRITTEN, len, 0),
        Err(IdentifierError::NotUtf8) => refused(4, 0, 0),
        Err(IdentifierError::InvalidString) => refused(6, 0, 0),
        Err(IdentifierError::NoRoom { needed }) => refused(9, needed, 0),
    }
}

pub(crate) fn writing_told(answer: Result<usize, WritingError>) -> Told {
    match answer {
        Ok(len) => answered(WRITTEN, len, 0),
        Err(WritingError::OverLimit) => refused(12, 0, 0),
        Err(WritingError::NotUtf8) => refused(4, 0, 0),
        Err(WritingError::HoldsNul) => refused(11, 0, 0),
        Err(WritingError::NoRoom { needed }) => refused(9, needed, 0),
    }
}

pub(crate) fn packed_told(answer: Result<PackedBits, Refusal>) -> Told {
    match answer {
        Ok(PackedBits { len, bits }) => answered(WRITTEN, len, bits as usize),
        Err(refusal) => refusal_told(refusal),
    }
}

pub(crate) fn bit_writing_told(answer: Result<usize, BitWritingError>) -> Told {
    match answer {
        Ok(len) => answered(WRITTEN, len, 0),
        Err(BitWritingError::OverLimit) => refused(12, 0, 0),
        Err(BitWritingError::BadBits) => refused(16, 0, 0),
        Err(BitWritingError::NoRoom { needed }) => refused(9, needed, 0),
    }
}

// The day of a literal, and of a number: without a literal 14 is told alone.
fn day_told(day: CalendarDay) -> Told {
    Told {
        number: 0,
        letter: DAY,
        first: day.year as usize,
        second: day.month as usize,
        third: day.day as usize,
        fourth: day.number as usize,
    }
}

pub(crate) fn dated_told(answer: Result<CalendarDay, Refusal>) -> Told {
    match answer {
        Ok(day) => day_told(day),
        Err(refusal) => refusal_told(refusal),
    }
}

pub(crate) fn found_told(answer: Option<CalendarDay>) -> Told {
    match answer {
        Some(day) => day_told(day),
        None => refused(14, 0, 0),
    }
}

// How many bytes of the buffer an answer fills.
// Stays: 0 is how many bytes any other answer fills: no value is missing.
pub(crate) fn filled_by(told: Told) -> usize {
    if told.letter == WRITTEN {
        return told.first;
    }
    0
}

// An answer's places in the source moved: a borrowed range, or the span of a refusal. Lengths and kinds stay, and so does the place of a 6, which counts from
// the text's start.
pub(crate) fn moved(told: Told, by: u8) -> Told {
    if (told.letter == BORROWED) | ((2 <= told.number) & (told.number <= 8)) | (told.number == 14) {
        return Told {
            first: told.first.wrapping_add(by as usize),
            second: told.second.wrapping_add(by as usize),
            ..told
        };
    }
    told
}
