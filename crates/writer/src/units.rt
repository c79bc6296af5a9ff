// The spelling of one character that does not stand for itself.
ghost use Rattle.std.specs.Prelude.{◌≡◌, [], ◌∷◌, ◌≤◌, ◌<◌, length, drop};
ghost use Rattle.meaning.specs.Bytes.{backslash};
ghost use Rattle.meaning.specs.Forms.{figures, unicode_figures};
ghost use Rattle.scalars.specs.Scalars.{scalar_of};
ghost use Rattle.writer.specs.Manners.{letter_for, unit_by};
ghost use Rattle.writer.specs.Texts.{PutBytes, UnitAt};

use crate::figures::put_figures;
use crate::manners::Spelling;
use scalars::reading::scalar_at;

// E's letter for a byte, where it has one. One test tells those that have: a match over all of them is compiled into one table of jumps with the test of a
// doubled byte, and a backslash is then told by a jump.
// Rules out: 0B by a letter; 0C without its own (must-fail: another_byte_or_limit, no_plus_sign).
pub(crate) fn escape_letter(byte: u8) -> Option<u8>
    ensures { result ≡ letter_for byte }
{
    if !((8 <= byte) & (byte <= 13) & (byte != 11)) {
        return None;
    }
    Some(match byte {
        8 => 98,
        9 => 116,
        10 => 110,
        12 => 102,
        _ => 114,
    })
}

pub(crate) fn put_two(first: u8, second: u8, out: &mut [u8]) -> usize
    requires { 2 ≤ length out.old }
    ensures { PutBytes (first ∷ second ∷ []) out.old result out.new }
{
    out[0] = first;
    out[1] = second;
    2
}

// A backslash and three octal digits.
pub(crate) fn put_octal(byte: u8, out: &mut [u8]) -> usize
    requires { 4 ≤ length out.old }
    ensures { PutBytes (backslash ∷ figures 8 3 byte) out.old result out.new }
{
    out[0] = 92;
    put_figures(byte as u32, 8, &mut out[1..4]);
    4
}

// A backslash and four hex digits, or a plus sign and six.
// Rules out: FFFF by six digits.
fn put_scalar(scalar: u32, out: &mut [u8]) -> usize
    requires { length (unicode_figures scalar) ≤ length out.old }
    ensures { PutBytes (unicode_figures scalar) out.old result out.new }
{
    out[0] = 92;
    if scalar <= 0xFFFF {
        put_figures(scalar, 16, &mut out[1..5]);
        return 5;
    }
    out[1] = 43;
    put_figures(scalar, 16, &mut out[2..8]);
    8
}

// An ASCII character's number: of its four digits two are zeros.
fn put_low(byte: u8, out: &mut [u8]) -> usize
    requires { 5 ≤ length out.old }
    ensures { PutBytes (backslash ∷ 48 ∷ 48 ∷ figures 16 2 byte) out.old result out.new }
{
    out[0] = 92;
    out[1] = 48;
    out[2] = 48;
    put_figures(byte as u32, 16, &mut out[3..5]);
    5
}

// The number of the character at a place. An ASCII one, as most control characters are, is put without looking further.
pub(crate) fn put_character(value: &[u8], at: usize, out: &mut [u8]) -> usize
    requires { (at < length value.now) × (length (unicode_figures (scalar_of (drop at value.now))) ≤ length out.old) }
    ensures { PutBytes (unicode_figures (scalar_of (drop at value.now))) out.old result out.new }
{
    let byte = value[at];
    if byte < 128 {
        return put_low(byte, out);
    }
    put_scalar(scalar_at(value, at), out)
}

// Puts the spelling of the character at a place at the buffer's start, and says how long it is. Each way doubles the quote mark, and a backslash that it spells.
// Rules out: a quote mark by a backslash; one not doubled (must-fail: quote_by_a_backslash, quote_not_doubled).
pub(crate) fn put_unit<S: Spelling>(value: &[u8], at: usize, spelling: &S, out: &mut [u8]) -> usize
    requires { UnitAt (S.manner spelling.now) value.now at (length out.old) }
    ensures { PutBytes (unit_by (S.manner spelling.now) (drop at value.now)) out.old result out.new }
{
    let byte = value[at];
    if (byte == 39) | (byte == 92) {
        return put_two(byte, byte, out);
    }
    spelling.put_other(value, at, out)
}
