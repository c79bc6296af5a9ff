// A string in ' that holds no other mark and nothing that could be an escape: most names are. One scan tells, and its body is the value.
ghost use Rattle.std.specs.Prelude.{◌≡◌};
ghost use Rattle.strings.specs.Plain.{setting_stops, is_plain, is_plain_ascii};

use leaves::blocks::{Stops, is_free};
use leaves::texts::is_enclosed;
use meaning::Settings;
use utf8::ascii::is_plain_run;

// The bytes that such a body may not hold: the mark, with the setting on the backslash, and NUL.
// Rules out: an escape taken for plain (must-fail: escape_taken_for_plain).
fn plain_stops(settings: Settings) -> Stops
    ensures { result ≡ setting_stops settings }
{
    if settings.backslash {
        return Stops {
            first: 39,
            second: 92,
            third: 0,
        };
    }
    Stops {
        first: 39,
        second: 39,
        third: 0,
    }
}

// Whether a text is such a string.
// Rules out: an active backslash not looked for (must-fail: plain_by_the_setting_off).
pub(crate) fn is_plain(text: &[u8], settings: Settings) -> bool
    ensures { result ≡ is_plain settings text.now }
{
    if !is_enclosed(text, 0, 39) {
        return false;
    }
    let until = text.len() - 1;
    is_free(&text[1..until], plain_stops(settings))
}

// Whether a text is such a string, and in ASCII: then it is UTF-8 too, and nothing else has to be looked at.
// Rules out: an active backslash not looked for; a text told plain of which nothing was looked at; none told plain (must-fail: backslash_not_looked_for,
// plain_unseen, never_plain).
pub fn is_plain_ascii(text: &[u8], settings: Settings) -> bool
    ensures { result ≡ is_plain_ascii settings text.now }
{
    if !is_enclosed(text, 0, 39) {
        return false;
    }
    let end = text.len() - 1;
    let stops = plain_stops(settings);
    is_plain_run(&text[1..end], stops.first, stops.second)
}
