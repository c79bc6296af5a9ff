// A row whose reading stops at a place: its text around there, and a mark under the place. Of a long row 40 characters to each side are shown. A row that is
// not UTF-8 has no characters: of it 40 bytes to each side are shown, around the first that may not stand there.
use crate::bytes::{columns_of_bytes, readable_len, say_bytes};
use crate::said::say;
use crate::shown::{columns_of, say_key};
use leaves::views::part_of;
use std::fmt;

const AROUND: usize = 40;

// Whether no character's later byte stands at a place; none does past the end.
fn begins_at(text: &[u8], at: usize) -> bool {
    text.get(at).is_none_or(|byte| !matches!(*byte, 0x80..0xC0))
}

// Where the character before a place begins; at the text's start there is none.
fn before(text: &[u8], at: usize) -> usize {
    (0..at)
        .rev()
        .find(|from| begins_at(text, *from))
        .unwrap_or(0)
}

// Where the character at a place ends; at the text's end there is none.
fn behind(text: &[u8], at: usize) -> usize {
    (at..text.len())
        .skip(1)
        .find(|until| begins_at(text, *until))
        .unwrap_or(text.len())
}

// By what a text is shown.
#[derive(Clone, Copy)]
enum Unit {
    Character,
    Byte,
}

impl Unit {
    fn say(self, text: &[u8]) -> fmt::Result {
        match self {
            Unit::Character => say_key(text),
            Unit::Byte => say_bytes(text),
        }
    }

    fn columns(self, text: &[u8]) -> usize {
        match self {
            Unit::Character => columns_of(text),
            Unit::Byte => columns_of_bytes(text),
        }
    }
}

fn say_blanks(n: usize) -> fmt::Result {
    say(part_of(&[b' '; 256], 0, n))
}

// Three points where a text goes on.
fn say_points(goes_on: bool) -> fmt::Result {
    if goes_on {
        return say(b"\xE2\x80\xA6");
    }
    Ok(())
}

// A text that is shown around a place, from and to where, and by what.
#[derive(Clone, Copy)]
struct Around<'a> {
    text: &'a [u8],
    from: usize,
    place: usize,
    until: usize,
    unit: Unit,
}

impl<'a> Around<'a> {
    // The text around the place.
    fn say_part(&self) -> fmt::Result {
        say_blanks(8)?;
        say_points(0 < self.from)?;
        self.unit.say(part_of(self.text, self.from, self.until))?;
        say_points(self.until < self.text.len())?;
        say(b"\n")
    }

    // The mark, under the character or byte at the place.
    fn say_mark(&self) -> fmt::Result {
        say_blanks(8)?;
        say_blanks(usize::from(0 < self.from))?;
        say_blanks(self.unit.columns(part_of(self.text, self.from, self.place)))?;
        say(b"^\n")
    }

    fn say(&self) -> fmt::Result {
        self.say_part()?;
        self.say_mark()
    }
}

pub(crate) fn say_stop(text: &[u8], place: usize) -> fmt::Result {
    let around = Around {
        text,
        from: (0..AROUND).fold(place, |at, _| before(text, at)),
        place,
        until: (0..AROUND).fold(place, |at, _| behind(text, at)),
        unit: Unit::Character,
    };
    around.say()
}

pub(crate) fn say_broken(text: &[u8]) -> fmt::Result {
    let place = readable_len(text);
    let around = Around {
        text,
        from: place.saturating_sub(AROUND),
        place,
        until: place.wrapping_add(AROUND).min(text.len()),
        unit: Unit::Byte,
    };
    around.say()
}
