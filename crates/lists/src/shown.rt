// A key as it can stand in a line: control characters by their numbers, between marks. The opening mark is shown so too, so that no two keys look alike.
ghost use Rattle.std.specs.Prelude.{◌<◌, ◌≤◌, length, IfSome};

use crate::said::Stream;
use std::fmt;

// Stays: `char::from_digit` gives lower case, and a char in an Option.
fn hex_digit(digit: u8) -> u8 {
    let low = digit % 16;
    if low < 10 { 48 + low } else { 55 + low }
}

// A number of two hex digits between marks, written at once: `write!` would be a write for each part.
pub(crate) fn show_marked(to: Stream, byte: u8) -> fmt::Result {
    to.put(&[
        0xE2,
        0x80,
        0xB9,
        hex_digit(byte / 16),
        hex_digit(byte),
        0xE2,
        0x80,
        0xBA,
    ])
}

// What a key is shown by: a control character, whose number is its last byte, the opening mark, or a run of bytes that stand for themselves.
#[derive(Clone, Copy)]
enum Piece<'a> {
    Control(u8),
    OpeningMark,
    Run(&'a [u8]),
}

impl<'a> Piece<'a> {
    // Written at once.
    fn show(self, to: Stream) -> fmt::Result {
        match self {
            Piece::Control(number) => show_marked(to, number),
            Piece::OpeningMark => to.put(b"\xE2\x80\xB92039\xE2\x80\xBA"),
            Piece::Run(bytes) => to.put(bytes),
        }
    }

    // How many columns it takes: the digits and two marks, or one for each character, whose later bytes do not count.
    fn columns(self) -> usize {
        match self {
            Piece::Control(_) => 4,
            Piece::OpeningMark => 6,
            Piece::Run(bytes) => bytes
                .iter()
                .filter(|byte| !matches!(**byte, 0x80..0xC0))
                .count(),
        }
    }
}

// The character at a text's front, if it is shown by its number, and what stands behind it.
fn split_marked(text: &[u8]) -> Option<(Piece<'_>, &[u8])>
    ensures { IfSome result (λ parts. length parts.1.now < length text.now) }
{
    match text {
        [byte @ (..0x20 | 0x7F), behind @ ..] => Some((Piece::Control(*byte), behind)),
        [0xC2, byte @ 0x80..0xA0, behind @ ..] => Some((Piece::Control(*byte), behind)),
        [0xE2, 0x80, 0xB9, behind @ ..] => Some((Piece::OpeningMark, behind)),
        _ => None,
    }
}

// Where the run of bytes that stand for themselves ends, the first of them not looked at.
fn run_end(text: &[u8]) -> usize
    requires { 0 < length text.now }
    ensures { (0 < result) × (result ≤ length text.now) }
{
    (0..text.len())
        .skip(1)
        .find(|end| split_marked(&text[*end..]).is_some())
        .unwrap_or(text.len())
}

// The first piece of a key, and what stands behind it.
fn split_piece(key: &[u8]) -> Option<(Piece<'_>, &[u8])>
    ensures { IfSome result (λ parts. length parts.1.now < length key.now) }
{
    if key.is_empty() {
        return None;
    }
    if let Some(parts) = split_marked(key) {
        return Some(parts);
    }
    let (run, behind) = key.split_at(run_end(key));
    Some((Piece::Run(run), behind))
}

pub(crate) fn show_key(to: Stream, key: &[u8]) -> fmt::Result {
    let mut rest = key;
    while let Some((piece, behind)) = split_piece(rest) {
        piece.show(to)?;
        rest = behind;
    }
    Ok(())
}

pub(crate) fn say_key(key: &[u8]) -> fmt::Result {
    show_key(Stream::Output, key)
}

// How many columns a key takes.
pub(crate) fn columns_of(key: &[u8]) -> usize {
    let mut columns: usize = 0;
    let mut rest = key;
    while let Some((piece, behind)) = split_piece(rest) {
        columns = columns.wrapping_add(piece.columns());
        rest = behind;
    }
    columns
}
