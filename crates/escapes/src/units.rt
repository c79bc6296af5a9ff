// One unit of a body, for each of the three families.
ghost use Rattle.std.specs.Prelude.{◌≡◌, false, ◌<◌, length, drop, ltb};
ghost use Rattle.meaning.specs.Bytes.{digit};
ghost use Rattle.std.specs.Prelude.{if◌then◌else◌};
ghost use Rattle.meaning.specs.Steps.{standard_step, mysql, one_byte, escaped, low_half, uescaped};
ghost use Rattle.cutting.specs.Marks.{mark_of};
ghost use Rattle.escapes.specs.Pieces.{Is, IsBy, letter_of, Behind, HighHalf};

use crate::digits::{digits_at, eight_at, four_at, six_at};
use crate::families::EscapeFamily;
use crate::pieces::Piece;
use cutting::marks::{Mark, mark_byte};
use leaves::bytes::byte_at;
use leaves::texts::starts_at;

// How a body is read: with MySQL's escapes or without them, by E's rules, or by U&'s.
#[derive(Clone, Copy)]
pub enum Family {
    Standard { mark: Mark, backslash: bool },
    Escape,
    Unicode { mark: Mark },
}

// What stands where no escape does: the mark, which doubled is one and alone refuses, or a byte that stands for itself.
pub(crate) fn mark_unit(body: &[u8], at: usize, mark: Mark) -> Piece
    requires { at < length body.now }
    ensures { Is result (standard_step false (mark_of mark) (drop at body.now)) }
{
    let quote = mark_byte(mark);
    if body[at] != quote {
        return Piece::Keep;
    }
    if byte_at(body, at + 1) != quote {
        return Piece::Refused;
    }
    Piece::Byte(quote, 1)
}

// What follows MySQL's backslash, at a place.
// Rules out: % without its backslash (must-fail: percent_loses_its_backslash).
pub(crate) fn mysql_unit(body: &[u8], at: usize) -> Piece
    ensures { Is result (mysql (drop at body.now)) }
{
    if body.len() <= at {
        return Piece::Byte(92, 0);
    }
    let letter = body[at];
    match letter {
        48 => Piece::Byte(0x00, 1),
        98 => Piece::Byte(0x08, 1),
        110 => Piece::Byte(0x0A, 1),
        114 => Piece::Byte(0x0D, 1),
        116 => Piece::Byte(0x09, 1),
        90 => Piece::Byte(0x1A, 1),
        37 => Piece::Two(92, 37, 1),
        95 => Piece::Two(92, 95, 1),
        _ => Piece::Byte(letter, 1),
    }
}

// A byte that E spells, which refuses if it is zero.
fn byte_unit(byte: u8, more: usize) -> Piece
    ensures { Is result (one_byte more byte) }
{
    if byte == 0 {
        return Piece::Refused;
    }
    Piece::Byte(byte, more)
}

// One of two bytes. A choice, and no jump, so that letters in any order are read at one pace.
// Stays: a public function with its own clause; its name says at each call that a choice is meant, and no jump.
// Rules out: the same for both; neither (must-fail: nothing_chosen, one_for_both).
pub fn choose(test: bool, yes: u8, no: u8) -> u8
    ensures { result ≡ (if test then yes else no) }
{
    if test {
        return yes;
    }
    no
}

// The byte that a letter behind E's backslash stands for: by the table, or the letter itself.
// Rules out: \t read as \n; \c read as \b (must-fail: c_read_as_b, letter_of_another).
pub fn escape_letter(letter: u8) -> u8
    ensures { result ≡ letter_of letter }
{
    let t = choose(letter == 116, 0x09, letter);
    let r = choose(letter == 114, 0x0D, t);
    let n = choose(letter == 110, 0x0A, r);
    let f = choose(letter == 102, 0x0C, n);
    choose(letter == 98, 0x08, f)
}

// Whether a byte is an octal digit.
// Stays: a public function; no method of u8 tests octal digits.
// Rules out: 8 taken for one; 0 taken for none (must-fail: eight_is_octal, zero_is_not_octal).
pub fn is_octal(byte: u8) -> bool
    ensures { result ≡ ltb (digit byte) 8 }
{
    (48 <= byte) & (byte <= 55)
}

// What follows E's backslash, at a place behind it. Most letters leave by the last line, behind tests that are seldom true.
// Rules out: three octal digits modulo 255; one hex digit for two (must-fail: octal_modulo_255, one_hex_digit_for_two).
pub fn escaped_unit(body: &[u8], at: usize) -> Piece
    ensures { Is result (escaped (drop at body.now)) }
{
    if body.len() <= at {
        return Piece::Refused;
    }
    let letter = body[at];
    if is_octal(letter) {
        let octal = digits_at(body, at, 8, 3);
        return byte_unit((octal.value % 256) as u8, octal.count);
    }
    if letter == 120 {
        let hex = digits_at(body, at + 1, 16, 2);
        if 0 < hex.count {
            return byte_unit((hex.value % 256) as u8, hex.count + 1);
        }
        return byte_unit(letter, 1);
    }
    if letter == 117 {
        return Piece::Scalar(four_at(body, at + 1), 5);
    }
    if letter == 85 {
        // A part, since the body as it was lent would come through memory, on the other ways too, and be waited for.
        return Piece::Scalar(eight_at(&body[at..], 1), 9);
    }
    byte_unit(escape_letter(letter), 1)
}

// The low half that a high half needs next, at a place behind the high one.
// Rules out: a high half accepted for a low one (must-fail: lone_half_taken).
fn low_half_unit(body: &[u8], at: usize, escape: &[u8], high: u32) -> Piece
    requires { HighHalf escape.now body.now at high }
    ensures { Is result (low_half escape.now high (drop at body.now)) }
{
    let len = escape.len();
    if !starts_at(body, at, escape) {
        return Piece::Refused;
    }
    let low = four_at(body, at + len);
    if low < 0xDC00 {
        return Piece::Refused;
    }
    if 0xDFFF < low {
        return Piece::Refused;
    }
    Piece::Scalar(
        0x10000 + (high - 0xD800) * 0x400 + (low - 0xDC00),
        len + len + 7,
    )
}

// What follows the U& escape character, at a place.
pub(crate) fn uescaped_unit(body: &[u8], at: usize, escape: &[u8]) -> Piece
    requires { Behind escape.now body.now at }
    ensures { IsBy escape.now result (uescaped escape.now (drop at body.now)) }
{
    let len = escape.len();
    if starts_at(body, at, escape) {
        if len == 0 {
            return Piece::Escape(0);
        }
        return Piece::Escape(len + len - 1);
    }
    if byte_at(body, at) == 43 {
        return Piece::Scalar(six_at(body, at + 1), len + 6);
    }
    let value = four_at(body, at);
    if (0xD800 <= value) & (value <= 0xDBFF) {
        return low_half_unit(body, at + 4, escape, value);
    }
    Piece::Scalar(value, len + 3)
}

// The unit at a place of a body; behind its end nothing stands, and nothing can be read.
// Rules out: the unit at the start told; a unit cut off behind its first byte; each unit refused (must-fail: unit_at_the_start, unit_cut_off, unit_refused).
pub fn unit_at<F: EscapeFamily>(body: &[u8], at: usize, family: &F) -> Piece
    ensures { IsBy (F.escape family.now) result (F.step family.now (drop at body.now)) }
{
    if body.len() <= at {
        return Piece::Refused;
    }
    family.unit(body, at)
}
