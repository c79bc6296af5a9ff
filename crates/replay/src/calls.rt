// 21: a block of literals in one call. A row has its items, the answer slice as it is lent and as it is due, and the bytes that are written. Both slices are
// compared whole, past what was lent too.
use crate::rows::{Row, numbers_in};
use crate::seen::{FILL, Seen, is_kept};
use crate::told::{Told, called};
use blocks::block::read_block;
use check::same;
use leaves::views::part_of;

// Calls with the first numbers and bytes of the slices; a row that asks for more is told as no call's number.
fn call_within(
    items: Option<&[u32]>,
    source: &[u8],
    answers: Option<&mut [u32]>,
    out: Option<&mut [u8]>,
) -> u32 {
    match (items, answers, out) {
        (Some(items), Some(answers), Some(out)) => read_block(items, source, answers, out),
        _ => 255,
    }
}

// What a call told: its number, and the first number of the answer slice that is not as due, with its place; 128 and 0 if none is.
// Stays: the call is lent the one array, and the row tells the other: they are compared as they are.
fn told_by(number: u32, answers: &[u32; 128], due: &[u32; 128]) -> Told {
    for (at, (answer, due)) in answers.iter().zip(due).enumerate() {
        if answer != due {
            return called(number, at, *answer);
        }
    }
    called(number, 128, 0)
}

pub(crate) fn ask_block(row: Row) -> Seen {
    let items = numbers_in(row.items());
    let mut answers = numbers_in(row.lent());
    let mut out = [FILL; 256];
    let number = call_within(
        items.get(..row.items().len() / 4),
        row.source(),
        answers.get_mut(..row.lent().len() / 4),
        out.get_mut(..row.room()),
    );
    let due = numbers_in(row.slice_due());
    let written = row.written();
    Seen {
        told: told_by(number, &answers, &due),
        shown: same(part_of(&out, 0, written.len()), written),
        kept: is_kept(&out, written.len()),
    }
}
