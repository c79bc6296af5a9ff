// The writer: a value as one plain literal, or as several; and as an E or a U& literal.
ghost use Rattle.meaning.specs.declared.Form.TheVariants.{Escape, Unicode};
ghost use Rattle.meaning.specs.declared.PartSize.TheVariants.{Whole, AtMost};
ghost use Rattle.meaning.specs.Answers.{Meets};
ghost use Rattle.valdrabus.specs.Calls.{write_call, form_call, Lengths};

use crate::told::{Told, number_told, writing_told};
use admitting::literals::settings_of;
use meaning::{Form, PartSize};
use writer::forms::write_form;
use writer::literal::write_literal;

// Stays: the C interface gives the setting as a number, and `write_call` of specs/Calls says which are known.
fn write_called(value: &[u8], size: PartSize, setting: u32, out: &mut [u8]) -> Told
    ensures { Meets (write_call size value.now setting out.old) result out.new }
{
    if 1 < setting {
        return number_told(10);
    }
    writing_told(write_literal(value, size, settings_of(setting), out))
}

// A value as one plain literal.
// Rules out: the setting passed over; parts of four bytes (must-fail: one_for_another, one_answer_always).
#[unsafe(no_mangle)]
pub extern "C" fn valdrabus_write_literal(
    value: &[u8],
    setting: u32,
    out: &mut [u8],
    len: &mut usize,
) -> u32
    ensures { Lengths (write_call Whole value.now setting out.old) result len.new out.new }
{
    let told = write_called(value, PartSize::Whole, setting, out);
    *len = told.second;
    told.number
}

// A value in parts of at most so many bytes, a line feed between.
// Rules out: one part for several; the setting passed over (must-fail: one_for_another, argument_passed_over).
#[unsafe(no_mangle)]
pub extern "C" fn valdrabus_write_parts(
    value: &[u8],
    part_size: usize,
    setting: u32,
    out: &mut [u8],
    len: &mut usize,
) -> u32
    ensures { Lengths (write_call (AtMost part_size) value.now setting out.old) result len.new out.new }
{
    let told = write_called(value, PartSize::AtMost(part_size), setting, out);
    *len = told.second;
    told.number
}

// A value as an E literal. No number is given that could name nothing, so it never answers 10.
// Rules out: U& for E; an empty value written (must-fail: one_for_another, empty_text_asked).
#[unsafe(no_mangle)]
pub extern "C" fn valdrabus_write_escape(value: &[u8], out: &mut [u8], len: &mut usize) -> u32
    ensures { Lengths (form_call Escape value.now out.old) result len.new out.new }
{
    let told = writing_told(write_form(value, Form::Escape, out));
    *len = told.second;
    told.number
}

// A value as a U& literal.
// Rules out: E for U&; the second half of the value written (must-fail: one_for_another, cut_down).
#[unsafe(no_mangle)]
pub extern "C" fn valdrabus_write_unicode(value: &[u8], out: &mut [u8], len: &mut usize) -> u32
    ensures { Lengths (form_call Unicode value.now out.old) result len.new out.new }
{
    let told = writing_told(write_form(value, Form::Unicode, out));
    *len = told.second;
    told.number
}
