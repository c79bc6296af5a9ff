// A line, as it grows.
ghost use Rattle.std.specs.Prelude.{◌≡◌, [], ◌∷◌, List, ℕ, ◌*◌, ◌≤◌, ◌<◌, length, take};
ghost use Rattle.meaning.specs.Numbers.{digits_of, printed};
ghost use Rattle.meaning.specs.Records.{hex_digit, hex_of, hex_text};
ghost use Rattle.records.specs.Adding.{pushed};

use crate::printing::print_number;
use leaves::puts::put_bytes;
use std::marker::Model;

// The bytes that are put into it, one behind the other. It has a place for each byte of any record's line; what finds none is left out.
#[derive(Drop)]
pub(crate) struct Line {
    bytes: [u8; 192],
    len: usize,
}

impl Model for Line {
    ghost Value = { List ℕ };

    ghost view = { λ l. take l.len l.bytes };

    ghost invariant = { λ l. l.len ≤ 192 };
}

// The upper-case digit of a number below 16.
// Stays: `char::from_digit` gives lower case, and a char in an Option.
// Rules out: lower case (must-fail: other_digits).
fn hex_digit(value: u8) -> u8
    requires { value < 16 }
    ensures { result ≡ hex_digit value }
{
    if value < 10 {
        return 48 + value;
    }
    55 + value
}

// Two digits for each byte, over the whole of a place that is just as long.
fn put_hex(text: &[u8], place: &mut [u8])
    requires { length place.old ≡ 2 * length text.now }
    ensures { place.new ≡ hex_of text.now }
{
    for (at, byte) in text.iter().enumerate() {
        place[2 * at] = hex_digit(*byte / 16);
        place[2 * at + 1] = hex_digit(*byte % 16);
    }
}

impl Line {
    pub(crate) fn new() -> Self
        ensures { result ≡ [] }
    {
        Line {
            bytes: [0; 192],
            len: 0,
        }
    }

    pub(crate) fn as_slice(&self) -> &[u8]
        ensures { result.now ≡ self.now }
    {
        &self.bytes[..self.len]
    }

    // One byte.
    // Rules out: a place one byte too far told (must-fail: off_by_one).
    pub(crate) fn push(&mut self, byte: u8)
        ensures { self.new ≡ pushed self.old (byte ∷ []) }
    {
        if self.len < 192 {
            self.bytes[self.len] = byte;
            self.len += 1;
        }
    }

    // A run of bytes. Whether there is room is asked once for all of it: asked for each byte, the length is stored and read again with each.
    pub(crate) fn push_all(&mut self, bytes: &[u8])
        ensures { self.new ≡ pushed self.old bytes.now }
    {
        if bytes.len() <= 192 - self.len {
            let end = self.len + bytes.len();
            put_bytes(bytes, &mut self.bytes[self.len..end]);
            self.len = end;
            return;
        }
        for byte in bytes {
            self.push(*byte);
        }
    }

    // A number in decimal.
    pub(crate) fn push_number(&mut self, value: u64)
        ensures { self.new ≡ pushed self.old (digits_of value) }
    {
        let mut digits = [0u8; 21];
        let from = print_number(value, &mut digits);
        self.push_all(&digits[from..]);
    }

    // An integer in decimal, behind a minus if it is below 0.
    pub(crate) fn push_integer(&mut self, value: i64)
        ensures { self.new ≡ pushed self.old (printed value) }
    {
        if value < 0 {
            self.push(b'-');
        }
        self.push_number(value.unsigned_abs());
    }

    // Two digits for each byte; whether there is room is asked once, as in `push_all`.
    fn push_hex(&mut self, text: &[u8])
        ensures { self.new ≡ pushed self.old (hex_of text.now) }
    {
        if text.len() <= (192 - self.len) / 2 {
            let end = self.len + 2 * text.len();
            put_hex(text, &mut self.bytes[self.len..end]);
            self.len = end;
            return;
        }
        for byte in text {
            self.push(hex_digit(*byte / 16));
            self.push(hex_digit(*byte % 16));
        }
    }

    // The text in hex, or - for an empty one.
    pub(crate) fn push_hex_text(&mut self, text: &[u8])
        ensures { self.new ≡ pushed self.old (hex_text text.now) }
    {
        if text.is_empty() {
            return self.push(b'-');
        }
        self.push_hex(text)
    }
}
