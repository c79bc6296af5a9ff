// [01 Cutting; One segment] The classes of bytes that openings and tags are made of. No test branches on another.
ghost use Rattle.std.specs.Prelude.{◌≡◌};
ghost use Rattle.meaning.specs.Bytes.{is_mark, in_name, starts_tag, in_tag};

// A quote mark, ' or ".
// Stays: a public function; no method of u8 tests these two bytes, and its definition `is_mark` names them so.
// Rules out: ` taken for a mark; one mark missed (must-fail: other_bytes, one_left_out).
pub fn is_mark(byte: u8) -> bool
    ensures { result ≡ is_mark byte }
{
    (byte == 39) | (byte == 34)
}

// A byte of a charset name: an ASCII letter, a digit or _.
// Rules out: - taken into names; every byte taken into names.
pub(crate) fn is_charset_name_byte(byte: u8) -> bool
    ensures { result ≡ in_name byte }
{
    byte.is_ascii_alphabetic() | byte.is_ascii_digit() | (byte == 95)
}

// The first byte of a dollar tag: a letter, _ or a byte from 80 hex.
// Rules out: 80 hex left out of tags; $ taken into tags (must-fail: one_left_out, other_bytes).
pub fn is_dollar_tag_start(byte: u8) -> bool
    ensures { result ≡ starts_tag byte }
{
    byte.is_ascii_alphabetic() | (byte == 95) | (0x80 <= byte)
}

// A later byte of a dollar tag: also a digit.
// Rules out: digits left out; anything but digits left out (must-fail: some_left_out, letters_refused).
pub fn is_dollar_tag_continue(byte: u8) -> bool
    ensures { result ≡ in_tag byte }
{
    is_dollar_tag_start(byte) | byte.is_ascii_digit()
}
