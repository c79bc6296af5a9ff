// A list, read through a window: lines end with a line feed, with CR and a line feed, or with CR alone; the last needs no end.
ghost use Rattle.std.specs.Prelude.{◌≡◌, ◌+◌, ◌-◌, ◌<◌, ◌≤◌, length, take, drop, IfOk, IfSome};

use crate::rows::Rows;
use crate::said::Stopped;
use leaves::blocks::{Stops, free_run};
use std::io::{Read, Stdin};

const LINE_ENDS: Stops = Stops {
    first: b'\n',
    second: b'\r',
    third: b'\r',
};

// How many bytes stand before the first end of a line.
fn line_len(text: &[u8]) -> usize
    ensures { result ≤ length text.now }
{
    free_run(text, 0, LINE_ENDS)
}

// The first line of a text, and what stands behind its end: a CR and a line feed are one end.
// Rules out: what is behind begun at the line's end or inside the line (must-fail: line_left_in_the_rest).
fn split_line(text: &[u8]) -> Option<(&[u8], &[u8])>
    ensures apart { IfSome result (λ parts. length parts.0.now + length parts.1.now < length text.now) }
    ensures front { IfSome result (λ parts. parts.0.now ≡ take (length parts.0.now) text.now) }
    ensures rest { IfSome result (λ parts. parts.1.now ≡ drop (length text.now - length parts.1.now) text.now) }
{
    let end = line_len(text);
    let behind = match &text[end..] {
        [b'\r', b'\n', behind @ ..] => behind,
        [_, behind @ ..] => behind,
        [] => return None,
    };
    Some((&text[..end], behind))
}

// What one reading leaves for the next.
#[derive(Clone, Copy, Default)]
struct Left {
    // bytes of an unfinished line at the window's start
    unfinished: usize,
    // the line at hand filled the window, and is told already
    skipping: bool,
    // the window's last byte was a CR: a line feed next to it ends no other line
    after_cr: bool,
}

// Moves the last bytes of a text to its front. The two places may overlap.
// Stays: `copy_within` is C's memmove, and of C's functions what we lend asks for memcpy alone (docs/TRUST).
// Stays: `len` is not the text's length, but how many of its last bytes move.
fn to_front(text: &mut [u8], len: usize)
    requires { len ≤ length text.old }
{
    let from = text.len() - len;
    for at in 0..len {
        text[at] = text[from + at];
    }
}

// Takes each line of a text that has its end; tells how many bytes stand behind them.
fn take_lines(text: &[u8], left: Left, rows: &mut Rows) -> Result<Left, Stopped>
    ensures { IfOk result (λ next. next.unfinished ≤ length text.now) }
{
    let mut rest = match text {
        [b'\n', behind @ ..] if left.after_cr => behind,
        _ => text,
    };
    let mut skipping = left.skipping;
    while let Some((line, behind)) = split_line(rest) {
        if !skipping {
            rows.take(line)?;
        }
        skipping = false;
        rest = behind;
    }
    Ok(Left {
        unfinished: rest.len(),
        skipping,
        after_cr: text.ends_with(b"\r"),
    })
}

// Takes the lines that end in the window's first bytes, and moves what is behind them to its front. A line that fills the window is passed.
fn take_block(window: &mut [u8], held: usize, left: Left, rows: &mut Rows) -> Result<Left, Stopped>
    requires { held ≤ length window.old }
    ensures { IfOk result (λ next. next.unfinished ≤ length window.new) }
{
    let next = take_lines(&window[..held], left, rows)?;
    if next.unfinished < window.len() {
        to_front(&mut window[..held], next.unfinished);
        return Ok(next);
    }
    if !next.skipping {
        rows.pass(window)?;
    }
    Ok(Left {
        unfinished: 0,
        skipping: true,
        after_cr: false,
    })
}

// Reads the list to its end, or as far as it can be read and its rows be written.
pub(crate) fn read_list(
    from: &mut Stdin,
    window: &mut [u8],
    rows: &mut Rows,
) -> Result<(), Stopped> {
    let mut left = Left::default();
    for _ in 0..u64::MAX {
        match from.read(&mut window[left.unfinished..]) {
            // The last line needs no end.
            Ok(0) => {
                if !left.skipping {
                    rows.take(&window[..left.unfinished])?;
                }
                return Ok(());
            }
            Ok(n) => left = take_block(window, left.unfinished + n, left, rows)?,
            Err(_) => return Err(rows.cut_off()),
        }
    }
    Ok(())
}
