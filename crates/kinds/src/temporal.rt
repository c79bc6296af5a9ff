// [01 Numbers and the other kinds, Temporal] The string in a temporal text, and its reading at a setting.
ghost use Rattle.std.specs.Prelude.{◌≡◌, drop};
ghost use Rattle.meaning.specs.Kinds.{past_last, found, dollar_token, token_start, quote_token, temporal_token, temporal};
ghost use Rattle.meaning.specs.Reads.{Reads};
ghost use Rattle.meaning.specs.Spelling.{delimiter};
ghost use Rattle.kinds.specs.Tokens.{token_of, place_of, first_mark};

use leaves::bytes::byte_at;
use leaves::names::is_dollar_tag_continue;
use leaves::texts::starts_at;
use meaning::{ReadRefusal, ReadText, Settings};
use spellings::spelling::dollar_open_delim_len;
use strings::reading::read_bytes;

// The string token of a temporal text, from a place up to another.
#[derive(Clone, Copy)]
pub(crate) struct Token {
    pub from: usize,
    pub until: usize,
}

// The place of the first ' or $; the length if there is none.
// Stays: the definition `first_mark` is a number, and this public function answers it for every text.
// Rules out: " taken for '; % taken for $ (must-fail: one_for_another, other_sign).
pub fn first_mark(text: &[u8]) -> usize
    ensures { result ≡ first_mark text.now }
{
    text.iter()
        .position(|byte| (*byte == 39) | (*byte == 36))
        .unwrap_or(text.len())
}

// One past the place of the last such byte, sought from the end; 0 if there is none.
// Stays: `quote_token` of specs/Kinds, which takes any text, has the token end at 0 where there is none.
// Rules out: the first mark taken for the last (must-fail: one_for_another).
fn past_last(text: &[u8], byte: u8) -> usize
    ensures { result ≡ past_last byte text.now }
{
    for place in (0..text.len()).rev() {
        if text[place] == byte {
            return place + 1;
        }
    }
    0
}

// How many bytes lie between a place and where a text next stands; None if it stands nowhere behind. Each byte is compared with the delimiter's first; behind
// a $ alone more are compared, up to the first that differs or the end of its block (`starts_at`). A delimiter has its $ at its ends alone: beyond that no
// byte is compared again.
fn found_from(text: &[u8], at: usize, wanted: &[u8]) -> Option<usize>
    ensures { result ≡ place_of (found wanted.now (drop at text.now)) }
{
    for place in at..text.len() {
        if starts_at(text, place, wanted) {
            return Some(place - at);
        }
    }
    None
}

// The dollar token at a place, to its first close.
// Rules out: the opening of a dollar token taken for its close (must-fail: one_for_another).
fn dollar_token(text: &[u8], at: usize) -> Option<Token>
    ensures { result ≡ token_of (dollar_token at (drop at text.now) (delimiter (drop at text.now))) }
{
    let len = dollar_open_delim_len(text, at);
    if len == 0 {
        return None;
    }
    let body = at + len;
    let found = found_from(text, body, &text[at..body])?;
    Some(Token {
        from: at,
        until: body + found + len,
    })
}

// Where a token begins whose first quote mark is given: at an E before the mark, unless a tag byte stands before the E.
// Rules out: DATE'..' read as an E string (must-fail: byte_before_taken_in).
fn token_start(text: &[u8], quote: usize) -> usize
    ensures { result ≡ token_start quote text.now }
{
    if quote == 0 {
        return quote;
    }
    let before = quote - 1;
    let letter = byte_at(text, before);
    if !((letter == 69) | (letter == 101)) {
        return quote;
    }
    if before == 0 {
        return before;
    }
    if is_dollar_tag_continue(byte_at(text, before - 1)) {
        return quote;
    }
    before
}

// The token whose first quote mark is given, to the last one.
fn quote_token(text: &[u8], quote: usize) -> Option<Token>
    ensures { result ≡ token_of (quote_token quote text.now) }
{
    if text.len() <= quote {
        return None;
    }
    Some(Token {
        from: token_start(text, quote),
        until: past_last(text, 39),
    })
}

// The string token, by its first mark: by $ if a $ precedes any ', otherwise by '.
// Rules out: a token in quotes read as a dollar token (must-fail: quote_read_as_dollar).
fn temporal_token(text: &[u8]) -> Option<Token>
    ensures { result ≡ token_of (temporal_token text.now) }
{
    let at = first_mark(text);
    if byte_at(text, at) == 36 {
        return dollar_token(text, at);
    }
    quote_token(text, at)
}

// Reads a temporal text: its string token, read as a string at the setting, at the token's place of the text.
// Rules out: the setting lost, on or off; a range or a place told within the token; no token told behind the start (must-fail: range_within_the_token,
// setting_lost, setting_on, place_within_the_token, no_token_behind_the_start).
pub fn read_temporal(
    text: &[u8],
    settings: Settings,
    out: &mut [u8],
) -> Result<ReadText, ReadRefusal>
    ensures { Reads (temporal settings text.now) out.old result out.new }
{
    match temporal_token(text) {
        Some(Token { from, until }) => {
            match read_bytes(&text[from..until], settings, out) {
                Ok(
                    ReadText::Borrowed {
                        from: start,
                        until: end,
                    },
                ) => Ok(ReadText::Borrowed {
                    from: from + start,
                    until: from + end,
                }),
                Ok(ReadText::Written { len }) => Ok(ReadText::Written { len }),
                Err(ReadRefusal::At { place }) => Err(ReadRefusal::At {
                    place: from + place,
                }),
                Err(ReadRefusal::NoRoom { needed }) => Err(ReadRefusal::NoRoom { needed }),
            }
        }
        None => Err(ReadRefusal::At { place: 0 }),
    }
}
