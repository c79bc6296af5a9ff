// A row that is not UTF-8, byte by byte: those that are no visible ASCII by their numbers, between marks.
use crate::said::{Stream, say};
use crate::shown::show_marked;
use std::fmt;
use utf8::tail::{Utf8Tail, is_whole, utf8_tail_push};

// Up to where a text is UTF-8: behind its last whole character before a byte that may not stand there, or before the end that comes too soon.
pub(crate) fn readable_len(text: &[u8]) -> usize {
    let mut state = Utf8Tail::Start;
    let mut len: usize = 0;
    for (at, byte) in text.iter().enumerate() {
        state = utf8_tail_push(state, *byte);
        if is_whole(state) {
            len = at + 1;
        }
    }
    len
}

fn is_visible(byte: u8) -> bool {
    matches!(byte, b' '..=b'~')
}

pub(crate) fn say_bytes(text: &[u8]) -> fmt::Result {
    for byte in text {
        if is_visible(*byte) {
            say(&[*byte])?;
        } else {
            show_marked(Stream::Output, *byte)?;
        }
    }
    Ok(())
}

// A byte by its number takes two digits and two marks.
fn columns_of_byte(byte: u8) -> usize {
    if is_visible(byte) { 1 } else { 4 }
}

pub(crate) fn columns_of_bytes(text: &[u8]) -> usize {
    text.iter().fold(0usize, |columns, byte| {
        columns.wrapping_add(columns_of_byte(*byte))
    })
}
