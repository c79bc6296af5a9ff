// [01 The writer; 02 T-02] A value as a literal, or as several with a line feed between. "Writing tests 12, 4, 11, 9."
ghost use Rattle.std.specs.Prelude.{◌≡◌};
ghost use Rattle.meaning.specs.Answers.{Meets};
ghost use Rattle.meaning.specs.Writer.{over_limit, unwritable_nul, write_question};

use crate::lengths::measure;
use crate::parts::{count_later, part_limit, write_parts};
use crate::plain::Plain;
use leaves::texts::string_literal_embeds_nul;
use meaning::{PartSize, Settings, WritingError};
use utf8::check::is_utf8;

// Whether a value is too long to be written, or the parts are too small.
// Rules out: the limit off by one (must-fail: another_byte_or_limit).
pub(crate) fn is_over_limit(value: &[u8], size: PartSize) -> bool
    ensures { result ≡ over_limit size value.now }
{
    match size {
        PartSize::Whole => 268_435_456 < value.len(),
        PartSize::AtMost(limit) => (268_435_456 < value.len()) | (limit < 4),
    }
}

// Whether a value holds a NUL, which can be spelled with the setting on alone.
// Rules out: every value refused for a NUL with the setting on (must-fail: another_byte_or_limit).
fn holds_unwritable_nul(value: &[u8], settings: Settings) -> bool
    ensures { result ≡ unwritable_nul settings value.now }
{
    if settings.backslash {
        return false;
    }
    string_literal_embeds_nul(value)
}

// Writes a value as a plain literal, or as several of so many value bytes, and says how long the text is; or refuses it, and leaves the buffer as lent.
// Stays: a public function keeps its parameters, which `write_question` of specs/Writer takes apart.
// Rules out: a text written without room; another length in 9 (must-fail: room_mistaken, size_for_length).
pub fn write_literal(
    value: &[u8],
    size: PartSize,
    settings: Settings,
    out: &mut [u8],
) -> Result<usize, WritingError>
    ensures { Meets (write_question settings size value.now out.old) result out.new }
{
    if is_over_limit(value, size) {
        return Err(WritingError::OverLimit);
    }
    if !is_utf8(value) {
        return Err(WritingError::NotUtf8);
    }
    if holds_unwritable_nul(value, settings) {
        return Err(WritingError::HoldsNul);
    }
    let plain = Plain {
        backslash: settings.backslash,
    };
    let limit = part_limit(size);
    let measured = measure(value, &plain);
    let len = measured.len + 3 * count_later(value, limit);
    if out.len() < len {
        return Err(WritingError::NoRoom { needed: len });
    }
    write_parts(value, limit, plain, measured.whole, out);
    Ok(len)
}
