// Values: an integer, a boolean, NULL.
ghost use Rattle.std.specs.Prelude.{◌≡◌};
ghost use Rattle.valdrabus.specs.Numbers.{Says};
ghost use Rattle.valdrabus.specs.Calls.{i64_call, bool_call, null_call, is_null_call, Counts, Bare};

use crate::counted::{Counted, integer_counted};
use crate::known::known_literal;
use crate::told::{Told, nullness_told, number_told, tell, truth_told};
use admitting::literals::{is_known, literal_of};
use questions::values::{as_bool, as_i64, as_null, is_null};

// Stays: the C interface gives the numbers.
fn i64_called(kind: u32, synthetic: u32, start: u32, end: u32, source: &[u8]) -> Counted
    ensures { result ≡ i64_call kind synthetic start end source.now }
{
    let Some(literal) = known_literal(kind, synthetic, start, end, 0) else {
        return Counted {
            told: number_told(10),
            value: 0,
        };
    };
    integer_counted(as_i64(literal, source))
}

// An integer literal's value; 0 on a refusal.
// Rules out: start and end exchanged; the mark passed over (must-fail: one_for_another, argument_passed_over).
#[unsafe(no_mangle)]
pub extern "C" fn valdrabus_as_i64(
    kind: u32,
    synthetic: u32,
    start: u32,
    end: u32,
    source: &[u8],
    value: &mut i64,
    first: &mut usize,
    second: &mut usize,
) -> u32
    ensures { Counts (i64_call kind synthetic start end source.now) result value.new first.new second.new }
{
    let answer = i64_called(kind, synthetic, start, end, source);
    let told = answer.told;
    let number = answer.value;
    *value = number;
    *first = told.first;
    *second = told.second;
    told.number
}

// Stays: the C interface gives the kind alone, and one function over the question would take it, and the question besides.
fn bool_called(kind: u32) -> Told
    ensures { result ≡ bool_call kind }
{
    let Some(literal) = known_literal(kind, 0, 0, 0, 0) else {
        return number_told(10);
    };
    truth_told(as_bool(literal))
}

// A boolean literal's value, 1 or 0; 0 on a refusal. It reads no source.
// Rules out: true for every kind; the two numbers exchanged (must-fail: one_for_another, exchanged).
#[unsafe(no_mangle)]
pub extern "C" fn valdrabus_as_bool(
    kind: u32,
    value: &mut u32,
    first: &mut usize,
    second: &mut usize,
) -> u32
    ensures { Says (bool_call kind) result value.new first.new second.new }
{
    let told = bool_called(kind);
    tell(told, value, first, second)
}

// Stays: the C interface gives the kind alone, and one function over the question would take it, and the question besides.
fn null_called(kind: u32) -> Told
    ensures { result ≡ null_call kind }
{
    let Some(literal) = known_literal(kind, 0, 0, 0, 0) else {
        return number_told(10);
    };
    nullness_told(as_null(literal))
}

// That a literal is NULL.
// Rules out: NULL for every kind; a date asked for every kind (must-fail: one_for_another, one_kind_for_all).
#[unsafe(no_mangle)]
pub extern "C" fn valdrabus_as_null(kind: u32, first: &mut usize, second: &mut usize) -> u32
    ensures { Bare (null_call kind) result first.new second.new }
{
    let told = null_called(kind);
    *first = told.first;
    *second = told.second;
    told.number
}

// Whether a literal is NULL; false for a code that names no kind.
// Rules out: every known kind taken for NULL; NULL asked for every kind (must-fail: one_for_another, one_kind_for_all).
#[unsafe(no_mangle)]
pub extern "C" fn valdrabus_is_null(kind: u32) -> bool
    ensures { result ≡ is_null_call kind }
{
    is_known(kind, 0, 0) & is_null(literal_of(kind, 0, 0, 0))
}
