// [01 Cutting] White space: Unicode White_Space, ten ranges.
#![tactic(auto)]

ghost use Rattle.std.specs.Prelude.{◌≡◌, ◌<◌, drop};
ghost use Rattle.std.specs.Prelude.{if◌then◌else◌};
ghost use Rattle.meaning.specs.Chars.{is_space, space};
ghost use Rattle.meaning.specs.Steps.{gap};
ghost use Rattle.spaces.specs.Blanks.{is_blank};

use scalars::reading::{scalar_at, utf8_width};

// The low and the high end of each range.
const SPACES: [(u32, u32); 10] = [
    (0x9, 0xD),
    (0x20, 0x20),
    (0x85, 0x85),
    (0xA0, 0xA0),
    (0x1680, 0x1680),
    (0x2000, 0x200A),
    (0x2028, 0x2029),
    (0x202F, 0x202F),
    (0x205F, 0x205F),
    (0x3000, 0x3000),
];

// Whether a scalar is white space: it lies in one of the ranges.
// Rules out: the zero-width space taken for one; the tab missed (must-fail: tab_missed, zero_width_is_space).
fn is_white_space(scalar: u32) -> bool
    ensures { result ≡ is_space scalar }
{
    SPACES
        .iter()
        .any(|(low, high)| (*low <= scalar) & (scalar <= *high))
}

// Whether a byte is one of the blanks of ASCII.
// Stays: `is_ascii_whitespace` leaves 11 out, the vertical tab, which is white space in document 01.
fn is_blank(byte: u8) -> bool
    ensures { result ≡ is_blank byte }
{
    ((9 <= byte) & (byte <= 13)) | (byte == 32)
}

// How many bytes an ASCII byte has as white space: one, or none.
fn ascii_space(byte: u8) -> usize
    requires { byte < 0x80 }
    ensures { result ≡ (if is_space byte then 1 else 0) }
{
    usize::from(is_blank(byte))
}

// How many bytes the white-space character at a place has; 0 if none stands there. Most gaps are ASCII, and no number is made of that.
// Stays: no Option: a public function that could not fail still can't, and its definition `space` says 0 for none.
// Rules out: the character at the start asked, or its width told (must-fail: start_asked, width_of_the_start).
pub fn space_at(text: &[u8], at: usize) -> usize
    ensures { result ≡ space (drop at text.now) }
{
    if text.len() <= at {
        return 0;
    }
    let byte = text[at];
    if byte < 0x80 {
        return ascii_space(byte);
    }
    if is_white_space(scalar_at(text, at)) {
        return utf8_width(byte);
    }
    0
}

// How many bytes of white space stand at a place. A blank of ASCII is passed by a guess that it is one, so that what follows need not wait for its byte.
// Rules out: a place told for a length; the first character asked again at each turn (must-fail: first_space_again, place_for_length).
pub fn gap_at(text: &[u8], at: usize) -> usize
    ensures { result ≡ gap (drop at text.now) }
{
    let mut i = at;
    // Stays: no `for`: a turn passes one to three bytes.
    while i < text.len() {
        if is_blank(text[i]) {
            i += 1;
        } else {
            let size = space_at(text, i);
            if size == 0 {
                return i - at;
            }
            i += size;
        }
    }
    i - at
}
