// [01 Cutting, String reading] The reading of a string's text: what one scan shows to be its own value, the quick reading, and where that does not answer the reading
// by units.
ghost use Rattle.meaning.specs.Chars.{utf8};
ghost use Rattle.meaning.specs.Reading.{read};
ghost use Rattle.meaning.specs.Reads.{Reads};
ghost use Rattle.strings.specs.Driving.{FitsAs, Checks, Tries};

use crate::joined::read_by_units;
use crate::plain::{is_plain, is_plain_ascii};
use crate::quick::{Untold, read_quick};
use meaning::{ReadRefusal, ReadText, Settings};
use utf8::ascii::is_plain_run;
use utf8::check::{is_clean, is_utf8};

// A text is not UTF-8, and nothing of it is read.
#[derive(Clone, Copy)]
pub struct NotUtf8;

// How a text may be read: as its own body, quickly, or by units alone.
#[derive(Clone, Copy)]
pub(crate) enum Fit {
    Plain,
    Clean,
    Other,
}

// Tells a text that is UTF-8 without NULs, and of these one whose body stands for itself. One in ASCII that is so is told before.
// Rules out: a text with a NUL read quickly; any text in ASCII taken for its own body (must-fail: nul_read_quickly, ascii_taken_for_plain).
fn fit_of(text: &[u8], settings: Settings) -> Fit
    ensures { FitsAs settings text.now result }
{
    if is_plain_run(text, 0, 0) {
        return Fit::Clean;
    }
    if !is_clean(text) {
        return Fit::Other;
    }
    if is_plain(text, settings) {
        return Fit::Plain;
    }
    Fit::Clean
}

// Tells a text that is not UTF-8, and reads any other where one scan or the quick reading does. What is left is UTF-8, and the buffer is then as good as it was.
// Both readers of texts call it, so that it stays a function of its own: its frame, with the chunk of the quick reading, is gone before the reading by units
// begins, which would else stand on top of it with some 500 bytes more of stack.
// Rules out: a text with a NUL told as not UTF-8; a plain body shown from its mark on, or nothing of it; the setting lost; the first byte passed over (must-fail:
// nul_told_as_not_utf8, plain_from_its_mark, plain_shown_empty, setting_lost_on_the_way, first_byte_passed_over).
fn try_string(text: &[u8], settings: Settings, out: &mut [u8]) -> Result<ReadText, Untold>
    ensures { Tries (utf8 text.now) (read settings text.now) out.old result out.new }
{
    // A part of the text comes by its place and its length. The slice as it was lent would come through memory, stored by halves and loaded whole, which the
    // processor waits for: some 5 ns a text on x86-64.
    let text = &text[0..];
    match fit_of(text, settings) {
        Fit::Plain => {
            let until: usize = text.len() - 1;
            Ok(ReadText::Borrowed { from: 1, until })
        }
        Fit::Clean => read_quick(text, settings, out),
        Fit::Other => {
            if is_utf8(text) {
                return Err(Untold::Unread);
            }
            Err(Untold::NotUtf8)
        }
    }
}

// Reads a string's text, which is tested to be UTF-8. Whoever asks tells a plain text in ASCII before, by `is_plain_ascii`: that costs a scan where this costs a call.
// Rules out: 6 for bytes that are not UTF-8; the setting lost (must-fail: not_utf8_told_as_refused, setting_lost_by_units).
pub fn read_string(
    text: &[u8],
    settings: Settings,
    out: &mut [u8],
) -> Result<Result<ReadText, ReadRefusal>, NotUtf8>
    ensures { Checks (utf8 text.now) (read settings text.now) out.old result out.new }
{
    match try_string(text, settings, out) {
        Ok(text) => Ok(Ok(text)),
        Err(Untold::NoRoom { needed }) => Ok(Err(ReadRefusal::NoRoom { needed })),
        Err(Untold::Unread) => Ok(read_by_units(text, settings, out)),
        Err(Untold::NotUtf8) => Err(NotUtf8),
    }
}

// Reads any bytes as a string's text: what is not UTF-8 has a meaning too.
// Rules out: a plain body shown with its opening mark, or nothing of it; the setting lost (must-fail: bytes_from_the_mark, bytes_shown_empty,
// bytes_with_the_setting_off).
pub fn read_bytes(text: &[u8], settings: Settings, out: &mut [u8]) -> Result<ReadText, ReadRefusal>
    ensures { Reads (read settings text.now) out.old result out.new }
{
    if is_plain_ascii(text, settings) {
        let until = text.len() - 1;
        return Ok(ReadText::Borrowed { from: 1, until });
    }
    match try_string(text, settings, out) {
        Ok(text) => Ok(text),
        Err(Untold::NoRoom { needed }) => Err(ReadRefusal::NoRoom { needed }),
        Err(Untold::Unread) => read_by_units(text, settings, out),
        Err(Untold::NotUtf8) => read_by_units(text, settings, out),
    }
}
