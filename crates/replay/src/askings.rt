// The askings of a row, up to four, and their count: 1 the text alone with a long buffer; 2 with padding around it; 3 with a buffer just as long as what is
// written; 4 with one a byte shorter.
use crate::asked::{ask, lends};
use crate::calls::ask_block;
use crate::rows::{BLOCK, Row};
use crate::said::{say, say_difference, say_number};
use crate::seen::{FILL, Seen, is_kept};
use crate::told::{Told, filled_by, moved, refused, text_of};
use check::same;
use questions::shown::text_shown;

// How many rows and askings a stratum has had, and how many askings differ.
#[derive(Clone, Copy, Default)]
pub(crate) struct Tally {
    rows: u64,
    askings: u64,
    different: u64,
}

// Asks with the first bytes of a buffer.
fn ask_within(row: Row, source: &[u8], room: usize, out: &mut [u8]) -> Told {
    match out.get_mut(..room) {
        Some(lent) => ask(row, source, lent),
        None => refused(0, 0, 0),
    }
}

// Asks; then looks at the bytes shown and at the whole of the buffer, not only at the part that was lent.
fn asked(row: Row, source: &[u8], value: &[u8], room: usize) -> Seen {
    let mut out = [FILL; 256];
    let told = ask_within(row, source, room, &mut out);
    Seen {
        told,
        shown: same(text_shown(source, &out, text_of(told)), value),
        kept: is_kept(&out, filled_by(told)),
    }
}

// A block of literals is one call, any other row one question.
fn ask_alone(row: Row) -> Seen {
    if row.question() == BLOCK {
        return ask_block(row);
    }
    asked(row, row.source(), row.value(), row.room())
}

impl Tally {
    // Counts an asking; says how the first of a stratum that differs does.
    fn count(&mut self, row: Row, number: u64, seen: Seen, due: Told) {
        self.askings = self.askings.wrapping_add(1);
        if (seen.told == due) & seen.shown & seen.kept {
            return;
        }
        if self.different == 0 {
            say_difference(row, number, seen, due);
        }
        self.different = self.different.wrapping_add(1);
    }

    fn alone(&mut self, row: Row) {
        self.count(row, 1, ask_alone(row), row.due());
    }

    // Bare text and some wrong spans have no padding. Places move with it.
    fn padded(&mut self, row: Row) {
        if !row.has_padding() {
            return;
        }
        let seen = asked(row.moved(), row.padded_source(), row.value(), row.room());
        self.count(row, 2, seen, moved(row.due(), row.front()));
    }

    fn exact(&mut self, row: Row) {
        if !lends(row) {
            return;
        }
        let due = row.due();
        let seen = asked(row, row.source(), row.value(), filled_by(due));
        self.count(row, 3, seen, due);
    }

    // A buffer can be too short only where a byte is written.
    fn short(&mut self, row: Row) {
        let filled = filled_by(row.due());
        if filled == 0 {
            return;
        }
        let seen = asked(row, row.source(), b"", filled - 1);
        self.count(row, 4, seen, refused(9, filled, 0));
    }

    fn say(self) {
        say_number(b": ", self.rows);
        say_number(b" rows, ", self.askings);
        say_number(b" askings, ", self.different);
        say(b" different\n");
    }

    // A row of question 0 ends a stratum and names it; one of 255 fills a block.
    pub(crate) fn take(&mut self, row: Row) {
        // Stays: three ways by one byte of the input; any other than 0 and 255 is a question.
        match row.question() {
            255 => {}
            0 => {
                say(row.name());
                self.say();
                *self = Tally::default();
            }
            _ => {
                self.rows = self.rows.wrapping_add(1);
                self.alone(row);
                self.padded(row);
                self.exact(row);
                self.short(row);
            }
        }
    }
}
