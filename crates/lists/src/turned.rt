// A row at the other setting: a row with a backslash in it can mean another product there, and nothing in the row tells which is meant.
use crate::answers::whole;
use crate::said::say;
use crate::shown::say_key;
use meaning::{Refusal, Settings, Text};
use questions::shown::text_shown;
use questions::texts::as_str_in;
use std::fmt;

// Whether two answers to one row have one key, or none.
fn is_same<'a>(
    line: &'a [u8],
    value: &'a [u8],
    answer: Result<Text, Refusal>,
    other: &'a [u8],
    turned: Result<Text, Refusal>,
) -> bool {
    if answer.is_err() | turned.is_err() {
        return answer.is_err() & turned.is_err();
    }
    text_shown(line, value, answer) == text_shown(line, other, turned)
}

// What a row means at the other setting.
fn say_turned<'a>(
    settings: Settings,
    line: &'a [u8],
    other: &'a [u8],
    turned: Result<Text, Refusal>,
) -> fmt::Result {
    if settings.backslash {
        say(b"        with backslash on: ")?;
    } else {
        say(b"        with backslash off: ")?;
    }
    if turned.is_err() {
        return say(b"refused\n");
    }
    say_key(text_shown(line, other, turned))?;
    say(b"\n")
}

// Whether a row means another product at the other setting, and which: at which setting a dump was written must then be known.
pub(crate) fn say_if_turned<'a>(
    line: &'a [u8],
    value: &'a [u8],
    answer: Result<Text, Refusal>,
    settings: Settings,
    other: &mut [u8],
) -> Result<bool, fmt::Error> {
    if !line.contains(&b'\\') {
        return Ok(false);
    }
    let settings = Settings {
        backslash: !settings.backslash,
    };
    let turned = as_str_in(whole(line), line, settings, other);
    if is_same(line, value, answer, other, turned) {
        return Ok(false);
    }
    say_turned(settings, line, other, turned)?;
    Ok(true)
}
