// Units that stand for other bytes than their own, at a text's front, for each of the three families. Nothing here tells why a unit cannot be read: whoever gets
// none reads by units.
ghost use Rattle.std.specs.Prelude.{◌≡◌, [], ◌∷◌, ◌≤◌};
ghost use Rattle.escapes.specs.declared.units.Family.TheVariants.{Standard, Escape, Unicode};
ghost use Rattle.strings.specs.Quick.{mysql_of, Takes, Scalars, Raws, Pairs};

use cutting::marks::{Mark, mark_byte};
use escapes::digits::{eight_at, four_at, six_at};
use escapes::pieces::Piece;
use escapes::units::{Family, choose, escape_letter, escaped_unit, is_octal};
use leaves::blocks::one_if;
use leaves::bytes::byte_at;
use scalars::encoding::{encode_utf8, is_scalar};
use utf8::tail::{Utf8Tail, is_whole, utf8_tail_push};

// What was taken: `len` bytes of the text, which stand for the first `put` of four bytes; 0 of the text for nothing.
// Stays: no heap; four bytes by value, all of which are put, and those that do not count are then written over; `len` counts bytes of the text.
#[derive(Clone, Copy)]
pub(crate) struct Taken {
    pub len: usize,
    pub put: usize,
    pub bytes: [u8; 4],
}

fn none() -> Taken
    ensures { result ≡ record { len = 0; put = 0; bytes = 0 ∷ 0 ∷ 0 ∷ 0 ∷ [] } }
{
    Taken {
        len: 0,
        put: 0,
        bytes: [0u8; 4],
    }
}

// Two bytes of the text, for one or two others.
fn two_for(put: usize, first: u8, second: u8) -> Taken
    ensures { result ≡ record { len = 2; put = put; bytes = first ∷ second ∷ 0 ∷ 0 ∷ [] } }
{
    let mut bytes = [0u8; 4];
    bytes[0] = first;
    bytes[1] = second;
    Taken { len: 2, put, bytes }
}

// The byte that a letter behind MySQL's backslash stands for: by the table, or the letter itself.
fn mysql_byte(letter: u8) -> u8
    ensures { result ≡ mysql_of letter }
{
    let end = choose(letter == 90, 0x1A, letter);
    let tab = choose(letter == 116, 0x09, end);
    let carriage = choose(letter == 114, 0x0D, tab);
    let feed = choose(letter == 110, 0x0A, carriage);
    let back = choose(letter == 98, 0x08, feed);
    choose(letter == 48, 0x00, back)
}

// A doubled mark, or what MySQL's backslash makes of the byte behind it; % and _ stay two bytes. With the setting off nothing is chosen: a text has one setting.
fn standard_taken(text: &[u8], mark: Mark, backslash: bool) -> Taken
    ensures { Takes (Standard mark backslash) text.now result }
{
    let quote = mark_byte(mark);
    let byte = byte_at(text, 0);
    let next = byte_at(text, 1);
    let escapes = backslash & (byte == 92);
    let doubled = (byte == quote) & (next == quote);
    if (next == 0) | !(escapes | doubled) {
        return none();
    }
    if !backslash {
        return two_for(1, quote, next);
    }
    let wide = escapes & ((next == 37) | (next == 95));
    let value = choose(escapes, mysql_byte(next), quote);
    two_for(1 + one_if(wide) as usize, choose(wide, byte, value), next)
}

// A number that hex digits make, as a character: 0 where they are not there.
fn scalar_taken(len: usize, value: u32) -> Taken
    ensures { Scalars len value result }
{
    let mut bytes = [0u8; 4];
    if value == 0 {
        return none();
    }
    if !is_scalar(value) {
        return none();
    }
    let put = encode_utf8(value, &mut bytes);
    Taken { len, put, bytes }
}

// A byte that E's backslash spells by octal digits or by x.
#[derive(Clone, Copy)]
pub(crate) struct Raw {
    pub len: usize,
    pub byte: u8,
}

fn raw_byte(text: &[u8]) -> Raw
    ensures { Raws text.now result }
{
    let letter = byte_at(text, 1);
    if (byte_at(text, 0) == 92) & (is_octal(letter) | (letter == 120)) {
        let piece = escaped_unit(text, 1);
        if let Piece::Byte(byte, more) = piece {
            return Raw {
                len: more + 1,
                byte,
            };
        }
    }
    Raw { len: 0, byte: 0 }
}

// Bytes that E spells by digits, one after the other, up to the end of a character: no part of one is taken alone.
fn char_taken(text: &[u8]) -> Taken
    ensures { Takes Escape text.now result }
{
    let mut bytes = [0u8; 4];
    let mut tail = Utf8Tail::Start;
    let mut at: usize = 0;
    for n in 0..4 {
        let raw = raw_byte(&text[at..]);
        if raw.len == 0 {
            return none();
        }
        bytes[n] = raw.byte;
        tail = utf8_tail_push(tail, raw.byte);
        at += raw.len;
        if is_whole(tail) {
            return Taken {
                len: at,
                put: n + 1,
                bytes,
            };
        }
    }
    none()
}

// A doubled mark, or what E's backslash makes of what follows it.
fn escape_taken(text: &[u8]) -> Taken
    ensures { Takes Escape text.now result }
{
    let byte = byte_at(text, 0);
    let next = byte_at(text, 1);
    let escapes = byte == 92;
    if (next == 0) | !(escapes | ((byte == 39) & (next == 39))) {
        return none();
    }
    if escapes & (next == 117) {
        return scalar_taken(6, four_at(text, 2));
    }
    if escapes & (next == 85) {
        return scalar_taken(10, eight_at(text, 2));
    }
    if escapes & (is_octal(next) | (next == 120)) {
        return char_taken(text);
    }
    two_for(1, escape_letter(next), 0)
}

// Two halves of a character, by four digits each.
fn pair_taken(text: &[u8], high: u32) -> Taken
    requires { (55296 ≤ high) × (high ≤ 56319) }
    ensures { Pairs high text.now result }
{
    let low = four_at(text, 6);
    if (byte_at(text, 5) == 92) & ((0xDC00 <= low) & (low <= 0xDFFF)) {
        return scalar_taken(10, 0x10000 + (high - 0xD800) * 0x400 + (low - 0xDC00));
    }
    none()
}

// A doubled mark, or what the backslash of U& makes of what follows it.
fn unicode_taken(text: &[u8], mark: Mark) -> Taken
    ensures { Takes (Unicode mark) text.now result }
{
    let byte = byte_at(text, 0);
    let next = byte_at(text, 1);
    if (byte == next) & ((byte == 92) | (byte == mark_byte(mark))) {
        return two_for(1, byte, 0);
    }
    if byte != 92 {
        return none();
    }
    if next == 43 {
        return scalar_taken(8, six_at(text, 2));
    }
    let value = four_at(text, 1);
    if (0xD800 <= value) & (value <= 0xDBFF) {
        return pair_taken(text, value);
    }
    scalar_taken(5, value)
}

// What is taken at a text's front, if it stands for other bytes and can be read.
pub(crate) fn take_unit(text: &[u8], family: Family) -> Taken
    ensures { Takes family text.now result }
{
    match family {
        Family::Standard { mark, backslash } => standard_taken(text, mark, backslash),
        Family::Escape => escape_taken(text),
        Family::Unicode { mark } => unicode_taken(text, mark),
    }
}
