// Printing: how an answer differs, and the counts.
use crate::rows::Row;
use crate::seen::Seen;
use crate::told::Told;

const STDOUT_FILENO: i32 = 1;

pub(crate) fn say(bytes: &[u8]) {
    io::write_all(STDOUT_FILENO, bytes);
}

// A number, and what stands before it.
pub(crate) fn say_number(before: &[u8], n: u64) {
    say(before);
    io::print_decimal(STDOUT_FILENO, n);
}

// An answer in the order of vectors/: its letter, number and values.
fn say_told(before: &[u8], told: Told) {
    say(before);
    say(&[told.letter]);
    say_number(b" ", told.number as u64);
    say_number(b" ", told.first as u64);
    say_number(b" ", told.second as u64);
    say_number(b" ", told.third as u64);
    say_number(b" ", told.fourth as u64);
}

// Which row differs, in which asking, and what is due. Behind that, 1 if the bytes shown are the value, and 1 if the other bytes of the buffer are as they were.
pub(crate) fn say_difference(row: Row, asking: u64, seen: Seen, due: Told) {
    say(row.name());
    say_number(b", asking ", asking);
    say_told(b": ", seen.told);
    say_told(b", due ", due);
    say_number(b", shown ", u64::from(seen.shown));
    say_number(b", kept ", u64::from(seen.kept));
    say(b"\n");
}
