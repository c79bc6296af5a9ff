// Parts of the source.
ghost use Rattle.std.specs.Prelude.{◌≡◌};
ghost use Rattle.valdrabus.specs.Numbers.{Says};
ghost use Rattle.valdrabus.specs.Calls.{source_call, money_call, charset_call};

use crate::known::known_literal;
use crate::told::{Told, charset_told, number_told, range_told, tell};
use questions::parts::{charset_range, money_range, source_range};

// Stays: the C interface gives the numbers, and one function over the question would take them all, and the question besides.
fn source_called(kind: u32, synthetic: u32, start: u32, end: u32, source: &[u8]) -> Told
    ensures { result ≡ source_call kind synthetic start end source.now }
{
    let Some(literal) = known_literal(kind, synthetic, start, end, 0) else {
        return number_told(10);
    };
    range_told(source_range(literal, source))
}

// A literal's text, of any kind.
// Rules out: start and end exchanged; the mark passed over (must-fail: one_for_another, argument_passed_over).
#[unsafe(no_mangle)]
pub extern "C" fn valdrabus_source_text(
    kind: u32,
    synthetic: u32,
    start: u32,
    end: u32,
    source: &[u8],
    how: &mut u32,
    first: &mut usize,
    second: &mut usize,
) -> u32
    ensures { Says (source_call kind synthetic start end source.now) result how.new first.new second.new }
{
    let told = source_called(kind, synthetic, start, end, source);
    tell(told, how, first, second)
}

// Stays: the C interface gives the numbers, and one function over the question would take them all, and the question besides.
fn money_called(kind: u32, synthetic: u32, start: u32, end: u32, source: &[u8]) -> Told
    ensures { result ≡ money_call kind synthetic start end source.now }
{
    let Some(literal) = known_literal(kind, synthetic, start, end, 0) else {
        return number_told(10);
    };
    range_told(money_range(literal, source))
}

// A money literal's text behind its $.
// Rules out: start and end exchanged; the mark passed over (must-fail: one_for_another, argument_passed_over).
#[unsafe(no_mangle)]
pub extern "C" fn valdrabus_as_money_text(
    kind: u32,
    synthetic: u32,
    start: u32,
    end: u32,
    source: &[u8],
    how: &mut u32,
    first: &mut usize,
    second: &mut usize,
) -> u32
    ensures { Says (money_call kind synthetic start end source.now) result how.new first.new second.new }
{
    let told = money_called(kind, synthetic, start, end, source);
    tell(told, how, first, second)
}

// Stays: the C interface gives the numbers, and one function over the question would take them all, and the question besides.
fn charset_called(kind: u32, synthetic: u32, start: u32, end: u32, source: &[u8]) -> Told
    ensures { result ≡ charset_call kind synthetic start end source.now }
{
    let Some(literal) = known_literal(kind, synthetic, start, end, 0) else {
        return number_told(10);
    };
    charset_told(charset_range(literal, source))
}

// The name of a string literal's character set, or that there is none.
// Rules out: start and end exchanged; the mark passed over (must-fail: one_for_another, argument_passed_over).
#[unsafe(no_mangle)]
pub extern "C" fn valdrabus_charset_introducer(
    kind: u32,
    synthetic: u32,
    start: u32,
    end: u32,
    source: &[u8],
    how: &mut u32,
    first: &mut usize,
    second: &mut usize,
) -> u32
    ensures { Says (charset_call kind synthetic start end source.now) result how.new first.new second.new }
{
    let told = charset_called(kind, synthetic, start, end, source);
    tell(told, how, first, second)
}
