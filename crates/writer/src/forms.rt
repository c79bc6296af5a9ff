// [02 T-01] A value as an E or a U& literal, which reads back at either setting: E leaves no byte below 20 hex, and U& none outside 20 to 7E.
// "Refusals: 12, 4, 11 (any NUL, at either setting), 9, in that order."
ghost use Rattle.meaning.specs.Answers.{Meets};
ghost use Rattle.meaning.specs.Writer.{writes};
ghost use Rattle.meaning.specs.Forms.{form_question};
ghost use Rattle.writer.specs.Manners.{text_by};
ghost use Rattle.writer.specs.Texts.{Spellable};

use crate::escape::Escape;
use crate::lengths::measure;
use crate::literal::is_over_limit;
use crate::manners::Spelling;
use crate::texts::write_text;
use crate::unicode::Unicode;
use leaves::texts::string_literal_embeds_nul;
use meaning::{Form, PartSize, WritingError};
use utf8::check::is_utf8;

// Writes a value that has passed the tests where there is room, and says how long the text is, or would be.
// Rules out: a length that counts the value; room for one byte more asked for (must-fail: room_mistaken, limit_mistaken).
fn write_by<S: Spelling>(value: &[u8], spelling: &S, out: &mut [u8]) -> Result<usize, WritingError>
    requires { Spellable (S.manner spelling.now) value.now }
    ensures { Meets (writes (text_by (S.manner spelling.now) value.now) out.old) result out.new }
{
    let measured = measure(value, spelling);
    if out.len() < measured.len {
        return Err(WritingError::NoRoom {
            needed: measured.len,
        });
    }
    write_text(value, spelling, measured.whole, out);
    Ok(measured.len)
}

// Writes a value in a form, and says how long the text is; or refuses it, and leaves the buffer as lent.
// Rules out: 11 where 4 is due; every value refused as too long (must-fail: space_between_parts, another_refusal_told).
pub fn write_form(value: &[u8], form: Form, out: &mut [u8]) -> Result<usize, WritingError>
    ensures { Meets (form_question form value.now out.old) result out.new }
{
    if is_over_limit(value, PartSize::Whole) {
        return Err(WritingError::OverLimit);
    }
    if !is_utf8(value) {
        return Err(WritingError::NotUtf8);
    }
    if string_literal_embeds_nul(value) {
        return Err(WritingError::HoldsNul);
    }
    match form {
        Form::Escape => write_by(value, &Escape, out),
        Form::Unicode => write_by(value, &Unicode, out),
    }
}
