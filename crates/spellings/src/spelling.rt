// [01 One segment] How a text that is read as one is spelled, and from where to where its body goes.
ghost use Rattle.std.specs.Prelude.{◌≡◌, drop};
ghost use Rattle.meaning.specs.Spelling.{is_unicode, tag_length, delimiter, spelling};
ghost use Rattle.cutting.specs.Marks.{mark_of};
ghost use Rattle.spellings.specs.Spelled.{enclosed_of, introduced_of, other_of, Spells, Lexes, Dollars};

use cutting::marks::{Mark, closing_mark, mark_byte};
use cutting::openings::opening_len;
use escapes::units::Family;
use leaves::bytes::byte_at;
use leaves::names::is_dollar_tag_start;
use leaves::runs::{NameClass, run_len};
use leaves::texts::{is_enclosed, starts_at};
use meaning::Settings;
use uescape::uescape_clause;

// A body in its text: by which family it is read, from where to where it goes, and the part of the text in which its escape character lies; an empty part
// stands for the backslash.
#[derive(Clone, Copy)]
pub struct Body {
    pub family: Family,
    pub from: usize,
    pub until: usize,
    pub escape_from: usize,
    pub escape_until: usize,
}

// How a text is spelled: with a body, in dollars, or in no way that can be read.
#[derive(Clone, Copy)]
pub enum Spelled {
    Body(Body),
    Dollar { from: usize, until: usize },
    Unspelt,
}

// A body that no clause follows.
fn enclosed(family: Family, from: usize, until: usize) -> Spelled
    ensures { result ≡ enclosed_of family from until }
{
    Spelled::Body(Body {
        family,
        from,
        until,
        escape_from: 0,
        escape_until: 0,
    })
}

// Whether a text begins with U&, in either case, and a mark.
// Rules out: u refused; + for &; another mark taken (must-fail: lower_u_refused, other_mark_taken, plus_for_ampersand).
pub fn is_unicode_lexeme(text: &[u8], mark: Mark) -> bool
    ensures { result ≡ is_unicode (mark_of mark) text.now }
{
    let first = byte_at(text, 0);
    ((first == 85) | (first == 117))
        & (byte_at(text, 1) == 38)
        & (byte_at(text, 2) == mark_byte(mark))
}

// U& and a mark, closed by the first mark that is not doubled; then white space, or a UESCAPE clause that ends the text.
// Rules out: a mark hidden by a backslash; the mark taken for a part of what follows it (must-fail: mark_hidden_by_backslash,
// mark_in_the_clause).
pub fn unicode_lexeme(text: &[u8], mark: Mark) -> Spelled
    ensures { Lexes mark text.now result }
{
    if !is_unicode_lexeme(text, mark) {
        return Spelled::Unspelt;
    }
    let family = Family::Unicode { mark };
    let Some(place) = closing_mark(&text[3..], mark, false) else {
        return Spelled::Unspelt;
    };
    let until = 3 + place;
    match uescape_clause(text, until + 1) {
        Ok(None) => enclosed(family, 3, until),
        Ok(Some(escape)) => Spelled::Body(Body {
            family,
            from: 3,
            until,
            escape_from: escape.start,
            escape_until: escape.end,
        }),
        Err(_) => Spelled::Unspelt,
    }
}

// How many bytes of a dollar tag stand at a place.
fn tag_len(text: &[u8], at: usize) -> usize
    ensures { result ≡ tag_length (drop at text.now) }
{
    if is_dollar_tag_start(byte_at(text, at)) {
        return run_len(text, at, NameClass::DollarTag);
    }
    0
}

// The bytes of a dollar delimiter at a place; 0 if none stands there.
// Stays: no Option: a public function that could not fail still can't, and `delimiter` in the rules is a number; no delimiter is empty.
// Rules out: another byte than $ at its end; the last $ left out (must-fail: last_dollar_left_out, other_byte_ends_tag).
pub fn dollar_open_delim_len(text: &[u8], at: usize) -> usize
    ensures { result ≡ delimiter (drop at text.now) }
{
    if byte_at(text, at) != 36 {
        return 0;
    }
    let from = at + 1;
    let tag = tag_len(text, from);
    if byte_at(text, from + tag) != 36 {
        return 0;
    }
    tag + 2
}

// Equal delimiters at both ends, not overlapping.
// Rules out: the string ended at the first close; overlapping delimiters (must-fail: dollar_first_close, one_delimiter_for_both).
fn dollar_quoted(text: &[u8]) -> Spelled
    ensures { Dollars text.now result }
{
    let len = dollar_open_delim_len(text, 0);
    if len == 0 {
        return Spelled::Unspelt;
    }
    let close = text.len() - len;
    if close < len {
        return Spelled::Unspelt;
    }
    if starts_at(text, close, &text[..len]) {
        return Spelled::Dollar {
            from: len,
            until: close,
        };
    }
    Spelled::Unspelt
}

// A charset introducer, and a string in either mark that ends the text.
// Rules out: one mark taken for the other (must-fail: one_mark_for_the_other).
fn introduced(text: &[u8], backslash: bool) -> Spelled
    ensures { Spells backslash text.now result (introduced_of text.now) }
{
    let open = opening_len(text);
    if open == 0 {
        return Spelled::Unspelt;
    }
    let quote = text[open - 1];
    if !is_enclosed(text, open - 1, quote) {
        return Spelled::Unspelt;
    }
    let until = text.len() - 1;
    if quote == 39 {
        let mark = Mark::Quote;
        return enclosed(Family::Standard { mark, backslash }, open, until);
    }
    let mark = Mark::DoubleQuote;
    enclosed(Family::Standard { mark, backslash }, open, until)
}

// The spelling of a text by a charset introducer, U& or $.
// Rules out: U& read with ".
fn other_spelling(text: &[u8], backslash: bool) -> Spelled
    ensures { Spells backslash text.now result (other_of text.now) }
{
    if byte_at(text, 0) == 95 {
        return introduced(text, backslash);
    }
    if is_unicode_lexeme(text, Mark::Quote) {
        return unicode_lexeme(text, Mark::Quote);
    }
    dollar_quoted(text)
}

// The spelling of a text, tried in document 01's order.
// Rules out: N read as E; the mark taken for a part of an E body; the setting lost (must-fail: escape_from_its_mark, national_escapes, setting_lost).
pub fn string_spelling(text: &[u8], settings: Settings) -> Spelled
    ensures { Spells settings.backslash text.now result (spelling text.now) }
{
    if text.len() == 0 {
        return Spelled::Unspelt;
    }
    let first = text[0];
    let until = text.len() - 1;
    let backslash = settings.backslash;
    let mark = Mark::Quote;
    let standard = Family::Standard { mark, backslash };
    if is_enclosed(text, 0, 39) {
        return enclosed(standard, 1, until);
    }
    if is_enclosed(text, 0, 34) {
        let double = Mark::DoubleQuote;
        let family = Family::Standard {
            mark: double,
            backslash,
        };
        return enclosed(family, 1, until);
    }
    let prefixed = is_enclosed(text, 1, 39);
    if ((first == 69) | (first == 101)) & prefixed {
        return enclosed(Family::Escape, 2, until);
    }
    if ((first == 78) | (first == 110)) & prefixed {
        return enclosed(standard, 2, until);
    }
    other_spelling(text, backslash)
}
