// The helpers on bare text.
ghost use Rattle.std.specs.Prelude.{◌≡◌};
ghost use Rattle.meaning.specs.Helpers.{uescape_legal, escape_valid, unicode_valid, embeds_nul, is_unicode_ident};
ghost use Rattle.meaning.specs.Numbers.{radix_prefix};
ghost use Rattle.valdrabus.specs.Numbers.{Tells};
ghost use Rattle.valdrabus.specs.Calls.{identifier_call, Splits};

use crate::told::{identifier_told, tell};
use helpers::{
    is_unicode_ident, materialize_unicode_ident, postgres_escape_string_is_valid,
    uescape_argument_is_legal, unicode_escape_string_is_valid,
};
use leaves::texts::string_literal_embeds_nul;
use numbers::prefix::split_radix_prefix;

// The base that a number's first two bytes choose; where the digits begin.
// Rules out: the digits begin at 0; base ten always (must-fail: one_for_another, one_answer_always).
#[unsafe(no_mangle)]
pub extern "C" fn valdrabus_split_radix_prefix(text: &[u8], start: &mut usize) -> u32
    ensures { Splits (radix_prefix text.now) result start.new }
{
    let prefix = split_radix_prefix(text);
    *start = prefix.start;
    prefix.base
}

// Whether a quoted argument holds a legal UESCAPE character and nothing else.
// Rules out: no for yes; yes always (must-fail: one_for_another, one_answer_always).
#[unsafe(no_mangle)]
pub extern "C" fn valdrabus_uescape_argument_is_legal(text: &[u8]) -> bool
    ensures { result ≡ uescape_legal text.now }
{
    uescape_argument_is_legal(text)
}

// Whether the body of an E string has only good escapes and no lone mark; yes for other text that is UTF-8. It can differ from reading.
// Rules out: no for yes; yes always (must-fail: one_for_another, one_answer_always).
#[unsafe(no_mangle)]
pub extern "C" fn valdrabus_postgres_escape_string_is_valid(text: &[u8]) -> bool
    ensures { result ≡ escape_valid text.now }
{
    postgres_escape_string_is_valid(text)
}

// Whether the body of a U& string has only good escapes; yes for other text that is UTF-8. It can differ from reading.
// Rules out: no for yes; yes always (must-fail: one_for_another, one_answer_always).
#[unsafe(no_mangle)]
pub extern "C" fn valdrabus_unicode_escape_string_is_valid(text: &[u8]) -> bool
    ensures { result ≡ unicode_valid text.now }
{
    unicode_escape_string_is_valid(text)
}

// Whether a text holds a raw NUL.
// Rules out: no for yes; yes always (must-fail: one_for_another, one_answer_always).
#[unsafe(no_mangle)]
pub extern "C" fn valdrabus_string_literal_embeds_nul(text: &[u8]) -> bool
    ensures { result ≡ embeds_nul text.now }
{
    string_literal_embeds_nul(text)
}

// Whether a text begins as a U& identifier.
// Rules out: no for yes; yes always (must-fail: one_for_another, one_answer_always).
#[unsafe(no_mangle)]
pub extern "C" fn valdrabus_is_unicode_ident(text: &[u8]) -> bool
    ensures { result ≡ is_unicode_ident text.now }
{
    is_unicode_ident(text)
}

// An identifier's text.
// Rules out: the two numbers exchanged; another text read (must-fail: one_for_another, one_answer_always).
#[unsafe(no_mangle)]
pub extern "C" fn valdrabus_materialize_unicode_ident(
    text: &[u8],
    out: &mut [u8],
    how: &mut u32,
    first: &mut usize,
    second: &mut usize,
) -> u32
    ensures { Tells (identifier_call text.now out.old) result
        how.new first.new second.new out.new }
{
    let told = identifier_told(materialize_unicode_ident(text, out));
    tell(told, how, first, second)
}
