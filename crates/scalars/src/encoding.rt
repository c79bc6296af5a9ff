// The encoding of a scalar, into a lent buffer.
ghost use Rattle.std.specs.Prelude.{◌≡◌, length};
ghost use Rattle.meaning.specs.Chars.{encode, is_scalar};
ghost use Rattle.scalars.specs.Scalars.{Encodes};

// How many bytes a scalar's encoding has.
// Rules out: three for four; 7FF hex in three (must-fail: range_too_wide, last_mistaken).
pub fn utf8_len(scalar: u32) -> usize
    ensures { result ≡ length (encode scalar) }
{
    if scalar < 0x80 {
        return 1;
    }
    if scalar < 0x800 {
        return 2;
    }
    if scalar < 0x10000 {
        return 3;
    }
    4
}

// Whether a number is a Unicode scalar value.
// Stays: a public function, and the two tests of its definition `is_scalar`; `char::from_u32` would make a char that no one takes.
// Rules out: low surrogates taken for scalars; numbers above 10FFFF taken for scalars (must-fail: range_too_wide, last_mistaken).
pub fn is_scalar(number: u32) -> bool
    ensures { result ≡ is_scalar number }
{
    (number <= 0x10FFFF) & !((0xD800 <= number) & (number <= 0xDFFF))
}

// Writes a scalar's encoding at the buffer's start and says how long it is. A number that is no scalar, or a shorter buffer, leaves the
// buffer as it is, and the answer is 0.
// Stays: no Option: `Encodes`, the clause of this public function, which could not fail and still can't, says 0 for none.
// Rules out: room asked for one byte alone; the first byte of another width (must-fail: character_cut_off, another_width).
pub fn encode_utf8(scalar: u32, out: &mut [u8]) -> usize
    ensures { Encodes scalar out.old result out.new }
{
    if !is_scalar(scalar) {
        return 0;
    }
    if out.len() < utf8_len(scalar) {
        return 0;
    }
    if scalar <= 0x7F {
        out[0] = scalar as u8;
        return 1;
    }
    if scalar <= 0x7FF {
        out[0] = (0xC0 + scalar / 64) as u8;
        out[1] = (0x80 + scalar % 64) as u8;
        return 2;
    }
    if scalar <= 0xFFFF {
        out[0] = (0xE0 + scalar / 4096) as u8;
        out[1] = (0x80 + scalar / 64 % 64) as u8;
        out[2] = (0x80 + scalar % 64) as u8;
        return 3;
    }
    out[0] = (0xF0 + scalar / 262144) as u8;
    out[1] = (0x80 + scalar / 4096 % 64) as u8;
    out[2] = (0x80 + scalar / 64 % 64) as u8;
    out[3] = (0x80 + scalar % 64) as u8;
    4
}
