// [01 One segment, U&] The UESCAPE clause, and its character.
#![tactic(auto)]

ghost use Rattle.std.specs.Prelude.{◌≡◌, drop};
ghost use Rattle.meaning.specs.Spelling.{legal_escape};
ghost use Rattle.uescape.specs.Clauses.{all_later, is_keyword, argument_of, clause_of};

use leaves::digits::hex_value;
use leaves::texts::is_enclosed;
use scalars::reading::utf8_width;
use spaces::{gap_at, space_at};

// Whether each byte is 80 to BF hex.
fn later_bytes(bytes: &[u8]) -> bool
    ensures { result ≡ all_later bytes.now }
{
    bytes.iter().all(|byte| (0x80 <= *byte) & (*byte <= 0xBF))
}

// Whether some bytes are one character that may be an escape: no hex digit, +, quote mark or white space.
// Rules out: a hex digit, + or white space taken; two characters taken (must-fail: hex_digit_escapes).
fn is_legal_uescape_char(bytes: &[u8]) -> bool
    ensures { result ≡ legal_escape bytes.now }
{
    if bytes.len() == 0 {
        return false;
    }
    let first = bytes[0];
    if utf8_width(first) != bytes.len() {
        return false;
    }
    later_bytes(&bytes[1..])
        & (15 < hex_value(first))
        & !((first == 43) | (first == 39) | (first == 34))
        & (space_at(bytes, 0) == 0)
}

// A quoted argument's escape character.
// Stays: a truth with names: neither case holds anything, so no Option or Result is plainer.
#[derive(Clone, Copy)]
pub enum Argument {
    // its bytes lie from place 1 to the place before the last
    Legal,
    Illegal,
}

// Whether a quoted argument holds a legal escape character, and nothing else.
// Rules out: a doubled quote taken for a character; one of two characters taken; an argument in " (must-fail: double_quotes_argue, first_of_two_passed).
pub fn uescape_argument(argument: &[u8]) -> Argument
    ensures { result ≡ argument_of argument.now }
{
    if !is_enclosed(argument, 0, 39) {
        return Argument::Illegal;
    }
    let end = argument.len() - 1;
    if is_legal_uescape_char(&argument[1..end]) {
        return Argument::Legal;
    }
    Argument::Illegal
}

// Whether UESCAPE stands at a place, in any case.
fn is_uescape_keyword(text: &[u8], at: usize) -> bool
    ensures { result ≡ is_keyword (drop at text.now) }
{
    let word = b"UESCAPE";
    if text.len() <= at {
        return false;
    }
    if text.len() - at < word.len() {
        return false;
    }
    for (i, letter) in word.iter().enumerate() {
        if text[at + i].to_ascii_uppercase() != *letter {
            return false;
        }
    }
    true
}

// Where the escape character that a clause chooses lies in its text.
// Stays: places of a text; those of `Part` and `Span` are the source's, and one type for all would let one pass for the other.
#[derive(Clone, Copy)]
pub struct EscapeCharacter {
    pub start: usize,
    pub end: usize,
}

// What follows a U& body's closing mark is neither white space alone nor a clause with a legal character.
#[derive(Clone, Copy)]
pub struct BadClause;

// The escape character that is chosen behind a place, past which nothing else stands; none where nothing but white space does.
// Rules out: no white space before UESCAPE; UESCAP taken for the word; the closing mark taken for a part of the character (must-fail:
// clause_without_its_mark, no_space_before_the_word).
pub fn uescape_clause(text: &[u8], at: usize) -> Result<Option<EscapeCharacter>, BadClause>
    ensures { result ≡ clause_of text.now at }
{
    if text.len() <= at {
        return Ok(None);
    }
    let next = at + gap_at(text, at);
    if text.len() <= next {
        return Ok(None);
    }
    if !is_uescape_keyword(text, next) {
        return Err(BadClause);
    }
    let behind = next + 7;
    let start = behind + gap_at(text, behind);
    match uescape_argument(&text[start..]) {
        Argument::Legal => Ok(Some(EscapeCharacter {
            start: start + 1,
            end: text.len() - 1,
        })),
        Argument::Illegal => Err(BadClause),
    }
}
