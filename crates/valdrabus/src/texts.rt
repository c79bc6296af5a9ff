// Texts: a part of the source, or written into the buffer.
ghost use Rattle.meaning.specs.Answers.{Meets};
ghost use Rattle.valdrabus.specs.Numbers.{Tells, TellsPlace};
ghost use Rattle.valdrabus.specs.Calls.{string_call, decimal_call, bits_call, temporal_call};

use crate::known::known_literal;
use crate::told::{Told, number_told, tell, tell_place, text_told};
use admitting::literals::settings_of;
use questions::texts::{as_bit_text, as_decimal_text, as_str_in, as_temporal_text};

// Stays: the C interface gives the numbers.
fn string_called(
    kind: u32,
    synthetic: u32,
    start: u32,
    end: u32,
    source: &[u8],
    setting: u32,
    out: &mut [u8],
) -> Told
    ensures { Meets (string_call kind synthetic start end source.now setting out.old) result out.new }
{
    let Some(literal) = known_literal(kind, synthetic, start, end, setting) else {
        return number_told(10);
    };
    text_told(as_str_in(literal, source, settings_of(setting), out))
}

// What a string literal means at a setting.
// Rules out: start and end exchanged; the setting passed over (must-fail: one_for_another, argument_passed_over).
#[unsafe(no_mangle)]
pub extern "C" fn valdrabus_as_str_in(
    kind: u32,
    synthetic: u32,
    start: u32,
    end: u32,
    source: &[u8],
    setting: u32,
    out: &mut [u8],
    how: &mut u32,
    first: &mut usize,
    second: &mut usize,
    place: &mut usize,
) -> u32
    ensures { TellsPlace (string_call kind synthetic start end source.now setting out.old) result
        how.new first.new second.new place.new out.new }
{
    let told = string_called(kind, synthetic, start, end, source, setting, out);
    tell_place(told, how, first, second, place)
}

// Stays: the C interface gives the numbers, and one function over the question would take them all, and the question besides.
fn decimal_called(
    kind: u32,
    synthetic: u32,
    start: u32,
    end: u32,
    source: &[u8],
    out: &mut [u8],
) -> Told
    ensures { Meets (decimal_call kind synthetic start end source.now out.old) result out.new }
{
    let Some(literal) = known_literal(kind, synthetic, start, end, 0) else {
        return number_told(10);
    };
    text_told(as_decimal_text(literal, source, out))
}

// A number's decimal text.
// Rules out: start and end exchanged; the mark passed over (must-fail: one_for_another, argument_passed_over).
#[unsafe(no_mangle)]
pub extern "C" fn valdrabus_as_decimal_text(
    kind: u32,
    synthetic: u32,
    start: u32,
    end: u32,
    source: &[u8],
    out: &mut [u8],
    how: &mut u32,
    first: &mut usize,
    second: &mut usize,
) -> u32
    ensures { Tells (decimal_call kind synthetic start end source.now out.old) result
        how.new first.new second.new out.new }
{
    let told = decimal_called(kind, synthetic, start, end, source, out);
    tell(told, how, first, second)
}

// Stays: the C interface gives the numbers, and one function over the question would take them all, and the question besides.
fn bits_called(
    kind: u32,
    synthetic: u32,
    start: u32,
    end: u32,
    source: &[u8],
    out: &mut [u8],
) -> Told
    ensures { Meets (bits_call kind synthetic start end source.now out.old) result out.new }
{
    let Some(literal) = known_literal(kind, synthetic, start, end, 0) else {
        return number_told(10);
    };
    text_told(as_bit_text(literal, source, out))
}

// A bit string's digits.
// Rules out: start and end exchanged; the mark passed over (must-fail: one_for_another, argument_passed_over).
#[unsafe(no_mangle)]
pub extern "C" fn valdrabus_as_bit_text(
    kind: u32,
    synthetic: u32,
    start: u32,
    end: u32,
    source: &[u8],
    out: &mut [u8],
    how: &mut u32,
    first: &mut usize,
    second: &mut usize,
) -> u32
    ensures { Tells (bits_call kind synthetic start end source.now out.old) result
        how.new first.new second.new out.new }
{
    let told = bits_called(kind, synthetic, start, end, source, out);
    tell(told, how, first, second)
}

// Stays: the C interface gives the numbers, and one function over the question would take them all, and the question besides.
fn temporal_called(
    kind: u32,
    synthetic: u32,
    start: u32,
    end: u32,
    source: &[u8],
    out: &mut [u8],
) -> Told
    ensures { Meets (temporal_call kind synthetic start end source.now out.old) result out.new }
{
    let Some(literal) = known_literal(kind, synthetic, start, end, 0) else {
        return number_told(10);
    };
    text_told(as_temporal_text(literal, source, out))
}

// What a temporal literal's token means.
// Rules out: start and end exchanged; the mark passed over (must-fail: one_for_another, argument_passed_over).
#[unsafe(no_mangle)]
pub extern "C" fn valdrabus_as_temporal_text(
    kind: u32,
    synthetic: u32,
    start: u32,
    end: u32,
    source: &[u8],
    out: &mut [u8],
    how: &mut u32,
    first: &mut usize,
    second: &mut usize,
    place: &mut usize,
) -> u32
    ensures { TellsPlace (temporal_call kind synthetic start end source.now out.old) result
        how.new first.new second.new place.new out.new }
{
    let told = temporal_called(kind, synthetic, start, end, source, out);
    tell_place(told, how, first, second, place)
}
