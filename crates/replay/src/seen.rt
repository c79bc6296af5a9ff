// What is seen of an asking, and of the buffer behind it.
use crate::told::Told;
use check::same;
use leaves::views::part_of;

// An answer; whether the bytes that it shows are the value, and the other bytes of the buffer as they were.
#[derive(Clone, Copy)]
pub(crate) struct Seen {
    pub told: Told,
    pub shown: bool,
    pub kept: bool,
}

// What the buffer is full of before it is lent.
pub(crate) const FILL: u8 = 0xA5;

// Whether every byte from a place on is as it was.
pub(crate) fn is_kept(out: &[u8], from: usize) -> bool {
    let full = [FILL; 256];
    same(part_of(out, from, 256), part_of(&full, from, 256))
}
