// [01 The writer; 02 T-02] The parts of a value: each takes as many whole characters as fit, and a line feed stands between two.
ghost use Rattle.std.specs.Prelude.{◌++◌, ◌≡◌, ◌+◌, length, drop};
ghost use Rattle.meaning.specs.Bytes.{within};
ghost use Rattle.meaning.specs.Writer.{literals, parts_from};
ghost use Rattle.writer.specs.Manners.{text_by};
ghost use Rattle.writer.specs.Manners as manners;
ghost use Rattle.writer.specs.Texts.{PutBytes, Fits};
ghost use Rattle.writer.specs.Parts.{limit_of, first_part, later_parts, Cuttable, FitsInParts};

use crate::plain::Plain;
use crate::texts::write_text;
use leaves::puts::put_bytes;
use meaning::PartSize;

// How many value bytes a part may have. A value that is written whole is a part without an end: no value has so many bytes.
pub(crate) fn part_limit(size: PartSize) -> usize
    ensures { result ≡ limit_of size }
{
    match size {
        PartSize::Whole => usize::MAX,
        PartSize::AtMost(limit) => limit,
    }
}

// Whether a byte goes on with a character.
// Stays: the name says what is tested; std's `is_char_boundary` is asked of a str.
fn is_later(byte: u8) -> bool
    ensures { result ≡ within 0x80 0xBF byte }
{
    (0x80 <= byte) & (byte <= 0xBF)
}

// Where the part ends that begins at a place.
// Rules out: a character cut between two parts; a part that could have taken one more.
fn part_end(value: &[u8], from: usize, limit: usize) -> usize
    requires { Cuttable limit from value.now }
    ensures { result ≡ from + length (first_part limit (drop from value.now)) }
{
    if value.len() - from <= limit {
        return value.len();
    }
    let mut end = from + limit;
    // Stays: a `for` down the places would need an answer behind it for a text without a character's first byte, which no value is.
    while is_later(value[end]) {
        end -= 1;
    }
    end
}

// How many parts there are behind the first.
pub(crate) fn count_later(value: &[u8], limit: usize) -> usize
    requires { Cuttable limit 0 value.now }
    ensures { result ≡ length (later_parts limit value.now) }
{
    let mut count: usize = 0;
    let mut end = part_end(value, 0, limit);
    // Stays: a part begins where the one before ends: an iterator would hold the same place.
    while end < value.len() {
        end = part_end(value, end, limit);
        count += 1;
    }
    count
}

// Writes a part's text and what stands behind it, for which there is room, and says how long that is.
// Rules out: the part once more for what stands behind it (must-fail: part_put_again).
fn write_part(part: &[u8], behind: &[u8], plain: Plain, whole: bool, out: &mut [u8]) -> usize
    requires { Fits (manners.Plain plain.backslash) whole part.now (text_by (manners.Plain plain.backslash) part.now ++ behind.now) (length out.old) }
    ensures { PutBytes (text_by (manners.Plain plain.backslash) part.now ++ behind.now) out.old result out.new }
{
    let from = write_text(part, &plain, whole, out);
    from + put_bytes(behind, &mut out[from..])
}

// Writes the literals of the parts, for which there is room, and says how long that is.
// Rules out: a space for the line feed; CR LF; none; a line feed behind the last part (must-fail: space_between_parts, crlf_between_parts,
// no_gap_between, line_feed_behind_the_last_part).
pub(crate) fn write_parts(
    value: &[u8],
    limit: usize,
    plain: Plain,
    whole: bool,
    out: &mut [u8],
) -> usize
    requires { FitsInParts limit plain.backslash whole value.now (length out.old) }
    ensures { PutBytes (literals plain.backslash (parts_from limit limit value.now)) out.old result out.new }
{
    let mut from: usize = 0;
    let mut end = part_end(value, 0, limit);
    let mut n: usize = 0;
    // Stays: a part begins where the one before ends, and the last has no line feed: an iterator would hold the same two places.
    while end < value.len() {
        n += write_part(&value[from..end], b"\n", plain, whole, &mut out[n..]);
        from = end;
        end = part_end(value, from, limit);
    }
    n + write_part(&value[from..end], b"", plain, whole, &mut out[n..])
}
