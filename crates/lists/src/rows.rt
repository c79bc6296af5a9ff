// A line of a list: a row, told and kept, a setting, or none of these.
use crate::answers::{say_answer, whole};
use crate::kept::Kept;
use crate::lines::{Line, line_of, may_set, without_order_mark};
use crate::said::{Stopped, Stream, say_line, tell, tell_number};
use crate::shown::show_key;
use crate::turned::say_if_turned;
use meaning::Settings;
use questions::shown::text_shown;
use questions::texts::as_str_in;
use std::fmt::Write;

// What is known of a list as far as it is read.
// Stays: `value` and `other` are two rooms for two answers to one row, both lent: no table of pairs.
#[derive(Drop)]
pub(crate) struct Rows<'a> {
    // the setting that holds for the rows to come
    settings: Settings,
    // lines so far
    lines: usize,
    // room for what a row means, at its setting and at the other
    value: &'a mut [u8],
    other: &'a mut [u8],
    pub kept: Kept<'a>,
    // rows refused; rows too long to be read; rows that have another key, or none, or one, at the other setting
    pub refused: usize,
    pub unread: usize,
    pub depending: usize,
}

impl<'a> Rows<'a> {
    pub(crate) fn new(value: &'a mut [u8], other: &'a mut [u8], kept: Kept<'a>) -> Rows<'a> {
        Rows {
            settings: Settings { backslash: false },
            lines: 0,
            value,
            other,
            kept,
            refused: 0,
            unread: 0,
            depending: 0,
        }
    }

    // A refused row is counted, any other row's key is kept. A row that means another product at the other setting is told with that.
    fn take_row(&mut self, line: &[u8]) -> Result<(), Stopped> {
        let (number, settings) = (self.lines, self.settings);
        let value = &mut *self.value;
        let answer = as_str_in(whole(line), line, settings, value);
        say_line(number)?;
        say_answer(line, value, answer)?;
        if say_if_turned(line, value, answer, settings, self.other)? {
            self.depending = self.depending.wrapping_add(1);
        }
        if answer.is_err() {
            self.refused = self.refused.wrapping_add(1);
        } else {
            self.kept.keep(text_shown(line, value, answer), number);
        }
        Ok(())
    }

    // A line that may be a setting, and is none that is known.
    fn no_setting(&self, line: &[u8]) -> Stopped {
        tell(b"keys: line ");
        tell_number(self.lines);
        tell(b": ");
        let _ = show_key(Stream::Error, line);
        tell(
            b" is neither -- backslash on nor -- backslash off; no row from here on is read, and none is compared\n",
        );
        Stopped::Told
    }

    // Counts a line; it is handed back without a byte order mark.
    fn count<'t>(&mut self, line: &'t [u8]) -> &'t [u8] {
        let before = self.lines;
        self.lines = before.wrapping_add(1);
        without_order_mark(line, before)
    }

    // A line without its end.
    pub(crate) fn take(&mut self, line: &[u8]) -> Result<(), Stopped> {
        let text = self.count(line);
        match line_of(text) {
            Line::Row => self.take_row(text),
            Line::Passed => Ok(()),
            Line::Backslash(backslash) => {
                self.settings = Settings { backslash };
                Ok(())
            }
            Line::NoSetting => Err(self.no_setting(text)),
        }
    }

    // A row of which only the beginning is there.
    fn pass_row(&mut self, beginning: &[u8]) -> Result<(), Stopped> {
        say_line(self.lines)?;
        let mut output = Stream::Output;
        writeln!(output, "not read: it has {} bytes or more", beginning.len())?;
        self.unread = self.unread.wrapping_add(1);
        Ok(())
    }

    // A line that fills the window and goes on, by its beginning: the rest of it is passed. Where it may be a setting, no row behind it has a meaning.
    pub(crate) fn pass(&mut self, beginning: &[u8]) -> Result<(), Stopped> {
        let text = self.count(beginning);
        match line_of(text) {
            Line::Row if !may_set(text) => self.pass_row(text),
            Line::Passed if !may_set(text) => Ok(()),
            _ => Err(self.no_setting(b"a line that fills the window")),
        }
    }

    // Reading fails: the line at hand may be cut off, so it is no row.
    pub(crate) fn cut_off(&self) -> Stopped {
        tell(b"keys: behind line ");
        tell_number(self.lines);
        tell(b" the list cannot be read on; no row from there on is read, and none is compared\n");
        Stopped::Told
    }
}
