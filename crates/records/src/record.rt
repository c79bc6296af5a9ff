// [01 Record program litrec] A record and its line.
ghost use Rattle.std.specs.Prelude.{◌≡◌};
ghost use Rattle.leaves.specs.Puts.{Puts};
ghost use Rattle.meaning.specs.Bytes.{all_zero};
ghost use Rattle.meaning.specs.Records.{asked, good_record, record_line};
ghost use Rattle.records.specs.Adding.{pushed};
ghost use Rattle.records.specs.Goods.{Good};

use crate::lines::{bare_line, charset_line, integer_line, range_line, text_line};
use crate::pushing::Line;
use admitting::kinds::kind_of;
use leaves::puts::put_bytes;
use meaning::{Literal, Settings, Span};
use questions::parts::{charset_range, money_range};
use questions::texts::{as_bit_text, as_decimal_text, as_str_in, as_temporal_text};
use questions::values::as_i64;

// Whether every byte is 0.
// Rules out: ones for zeros (must-fail: other_digits).
fn is_all_zero(bytes: &[u8]) -> bool
    ensures { result ≡ all_zero bytes.now }
{
    bytes.iter().all(|byte| *byte == 0)
}

// Whether 64 bytes are a question, a kind, a setting, a length, and a text with zeros behind it.
// Stays: a record is bytes, and `good_record` of specs/Records says by their numbers which is good.
// Rules out: money's kind refused (must-fail: off_by_one).
fn is_good_record(bytes: &[u8]) -> bool
    ensures { result ≡ good_record bytes.now }
{
    if bytes.len() != 64 {
        return false;
    }
    let question = bytes[0];
    let kind = bytes[1];
    let len = bytes[3] as usize;
    if 60 < len {
        return false;
    }
    (1 <= question)
        & (question <= 7)
        & ((1 <= kind) & (kind <= 14))
        & (bytes[2] <= 1)
        & is_all_zero(&bytes[4 + len..])
}

// The line of a question by its number, 7 for any that is not below it.
fn asked_line(question: u8, literal: Literal, text: &[u8], settings: Settings, to: &mut Line)
    ensures { to.new ≡ pushed to.old (asked question literal settings text.now) }
{
    let mut out = [0u8; 64];
    // Stays: `asked` of specs/Records chooses by the record's number; an enum would be made of it by one more such match.
    match question {
        1 => text_line(text, as_str_in(literal, text, settings, &mut out), &out, to),
        2 => integer_line(as_i64(literal, text), to),
        3 => text_line(text, as_decimal_text(literal, text, &mut out), &out, to),
        4 => text_line(text, as_bit_text(literal, text, &mut out), &out, to),
        5 => range_line(text, money_range(literal, text), to),
        6 => text_line(text, as_temporal_text(literal, text, &mut out), &out, to),
        _ => charset_line(text, charset_range(literal, text), to),
    }
}

// The line of a record that is good.
// Rules out: the setting turned (must-fail: setting_turned).
fn good_line(bytes: &[u8], to: &mut Line)
    requires { Good bytes.now }
    ensures { to.new ≡ pushed to.old (record_line bytes.now) }
{
    let len = bytes[3] as usize;
    let end = 4 + len;
    let literal = Literal {
        kind: kind_of(bytes[1] as u32),
        synthetic: false,
        span: Span {
            start: 0,
            end: bytes[3] as u32,
        },
    };
    let settings = Settings {
        backslash: bytes[2] == 1,
    };
    asked_line(bytes[0], literal, &bytes[4..end], settings, to)
}

// The line of any record.
// Rules out: 9 for 10 (must-fail: nine_for_ten).
fn make_line(bytes: &[u8], to: &mut Line)
    ensures { to.new ≡ pushed to.old (record_line bytes.now) }
{
    if is_good_record(bytes) {
        return good_line(bytes, to);
    }
    bare_line(10, b'-', to)
}

// Puts a record's line at the buffer's start and says how long it is; where there is no room it puts nothing and says 0.
// Stays: a public function keeps its answer, as `Puts` says it.
// Rules out: nothing put; the line's first byte put alone (must-fail: first_byte_put, nothing_put).
pub fn record_line(bytes: &[u8], out: &mut [u8]) -> usize
    ensures { Puts (record_line bytes.now) out.old result out.new }
{
    let mut line = Line::new();
    make_line(bytes, &mut line);
    put_bytes(line.as_slice(), out)
}
