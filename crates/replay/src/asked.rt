// The question that a row asks, of a source and with a buffer. The row says by how many bytes its literal's span is moved.
use crate::rows::Row;
use crate::told::{
    PREFIX, TRUTH, Told, agreed, answered, bit_writing_told, bool_told, charset_told, dated_told,
    found_told, identifier_told, integer_told, null_told, packed_told, range_told, text_told,
    writing_told,
};
use calendar::numbers::date_of_day;
use check::same;
use helpers::{
    is_unicode_ident, materialize_unicode_ident, postgres_escape_string_is_valid,
    uescape_argument_is_legal, unicode_escape_string_is_valid,
};
use leaves::texts::string_literal_embeds_nul;
use meaning::{Literal, Part, Refusal, Text};
use numbers::prefix::split_radix_prefix;
use questions::dates::as_date;
use questions::packing::as_packed_bits;
use questions::parts::{
    as_money_text, charset_introducer, charset_range, money_range, source_range, source_text,
};
use questions::shown::{charset_shown, range_shown};
use questions::texts::{as_bit_text, as_decimal_text, as_str, as_str_in, as_temporal_text};
use questions::values::{as_bool, as_i64, as_null, is_null};
use writer::bits::write_bit_literal;
use writer::forms::write_form;
use writer::literal::write_literal;

// 1 to 5: a text of the source or of the buffer.
fn ask_text(row: Row, literal: Literal, source: &[u8], out: &mut [u8]) -> Result<Text, Refusal> {
    // Stays: each number is met once; an enum of the questions would be made of it by one more such match.
    match row.question() {
        1 => as_str_in(literal, source, row.settings(), out),
        2 => as_str(literal, source, out),
        3 => as_decimal_text(literal, source, out),
        4 => as_bit_text(literal, source, out),
        _ => as_temporal_text(literal, source, out),
    }
}

// 7: a value's literal.
fn ask_writer(row: Row, source: &[u8], out: &mut [u8]) -> Told {
    writing_told(write_literal(source, row.size(), row.settings(), out))
}

// 8: a value as an E or a U& literal.
fn ask_form(row: Row, source: &[u8], out: &mut [u8]) -> Told {
    writing_told(write_form(source, row.form(), out))
}

// 24: a bit string's packed bytes.
fn ask_packed(row: Row, source: &[u8], out: &mut [u8]) -> Told {
    packed_told(as_packed_bits(row.literal(), source, out))
}

// 25: bytes and a bit count as a bit literal.
fn ask_bit_literal(row: Row, source: &[u8], out: &mut [u8]) -> Told {
    bit_writing_told(write_bit_literal(source, row.bit_count(), row.radix(), out))
}

// 1 to 8, 24 and 25: the questions that are lent a buffer.
fn ask_lent(row: Row, source: &[u8], out: &mut [u8]) -> Told {
    // Stays: each number is met once; an enum of the questions would be made of it by one more such match.
    match row.question() {
        6 => identifier_told(materialize_unicode_ident(source, out)),
        7 => ask_writer(row, source, out),
        8 => ask_form(row, source, out),
        24 => ask_packed(row, source, out),
        25 => ask_bit_literal(row, source, out),
        _ => text_told(ask_text(row, row.literal(), source, out)),
    }
}

// 9 and 10: a part of the source; its range, if the part handed back is just that.
fn part_told(source: &[u8], range: Result<Part, Refusal>, part: &[u8]) -> Told {
    agreed(range_told(range), same(part, range_shown(source, range)))
}

// 11: a name, likewise.
fn ask_charset(literal: Literal, source: &[u8]) -> Told {
    let name = charset_range(literal, source);
    agreed(
        charset_told(name),
        same(
            charset_introducer(literal, source),
            charset_shown(source, name),
        ),
    )
}

// 12 and 14: a value. What `is_null` says must agree.
fn ask_i64(row: Row, literal: Literal, source: &[u8]) -> Told {
    let due = row.due();
    integer_told(as_i64(literal, source), due.first, due.second)
}

fn ask_null(literal: Literal) -> Told {
    let told = null_told(as_null(literal));
    agreed(told, is_null(literal) == (told.number == 0))
}

// 9 to 14: the questions on a literal without a buffer.
fn ask_literal(row: Row, literal: Literal, source: &[u8]) -> Told {
    // Stays: each number is met once; an enum of the questions would be made of it by one more such match.
    match row.question() {
        9 => part_told(
            source,
            money_range(literal, source),
            as_money_text(literal, source),
        ),
        10 => part_told(
            source,
            source_range(literal, source),
            source_text(literal, source),
        ),
        11 => ask_charset(literal, source),
        12 => ask_i64(row, literal, source),
        13 => bool_told(as_bool(literal)),
        _ => ask_null(literal),
    }
}

// 15 to 19: yes or no of a bare text.
fn is_so(question: u8, text: &[u8]) -> bool {
    // Stays: each number is met once; an enum of the questions would be made of it by one more such match.
    match question {
        15 => postgres_escape_string_is_valid(text),
        16 => unicode_escape_string_is_valid(text),
        17 => uescape_argument_is_legal(text),
        18 => string_literal_embeds_nul(text),
        _ => is_unicode_ident(text),
    }
}

// 15 to 20: what is asked of a bare text without a buffer.
// Stays: the question is the row's byte, and any byte is answered; an enum would be a second list of the numbers.
fn ask_bare(question: u8, text: &[u8]) -> Told {
    if question == 20 {
        let prefix = split_radix_prefix(text);
        return answered(PREFIX, prefix.base as usize, prefix.start);
    }
    answered(TRUTH, is_so(question, text) as usize, 0)
}

// 22 and 23: the day of a date literal, and of a number.
fn ask_day(row: Row, source: &[u8]) -> Told {
    if row.question() == 23 {
        return found_told(date_of_day(row.day_number()));
    }
    dated_told(as_date(row.literal(), source))
}

// The questions from 9 to 23 are lent no buffer.
// Stays: the question is the row's byte, and any byte is answered; an enum would be a second list of the numbers.
pub(crate) fn lends(row: Row) -> bool {
    let question = row.question();
    (question <= 8) | (24 <= question)
}

pub(crate) fn ask(row: Row, source: &[u8], out: &mut [u8]) -> Told {
    // Stays: ranges of numbers, and any byte is asked; of an enum each variant would have to be named.
    match row.question() {
        _ if lends(row) => ask_lent(row, source, out),
        22.. => ask_day(row, source),
        question @ 15.. => ask_bare(question, source),
        _ => ask_literal(row, row.literal(), source),
    }
}
