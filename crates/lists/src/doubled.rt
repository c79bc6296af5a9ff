// The products that stand in several rows: `doubles::find_before` tells of each row the newest row before it that has its key.
ghost use Rattle.std.specs.Prelude.{◌≡◌, ◌<◌, length, IfSome};

use crate::kept::Kept;
use crate::rows::Rows;
use crate::said::{Stream, say};
use crate::shown::say_key;
use doubles::find_before;
use std::fmt;
use std::fmt::Write;

// How many rows there are whose key did not stand before, and how many of these keys stand again.
#[derive(Clone, Copy, Default)]
pub(crate) struct Counts {
    pub products: usize,
    pub doubled: usize,
}

// A number for each row that is kept.
pub(crate) fn for_rows() -> [usize; 32768]
    ensures { 32768 ≡ length result }
{
    [0; 32768]
}

// The rows that are kept. Of each row, the newest before it that has its key, counted from 1, and the next behind it, counted from 0; both 0 if there is none,
// since no row is followed by the first.
// Stays: `find_before` fixes the first array; numbers in place of options let both be arrays of zeros, and there is no heap.
#[derive(Clone, Copy)]
struct Linked<'a> {
    kept: &'a Kept<'a>,
    before: &'a [usize],
    after: &'a [usize],
}

impl<'a> Linked<'a> {
    fn is_first(&self, row: usize) -> bool {
        self.before.get(row).is_none_or(|before| *before == 0)
    }

    // The next row that has a row's key.
    fn next(&self, row: usize) -> Option<usize>
        ensures { IfSome result (λ next. (row < next) × (next < length self.now.after.now)) }
    {
        let next = self.after.get(row).copied()?;
        if row < next && next < self.after.len() {
            Some(next)
        } else {
            None
        }
    }

    // The lines of a row and of the later rows that have its key.
    fn say_lines(&self, row: usize) -> fmt::Result {
        let mut output = Stream::Output;
        write!(output, ", on lines {}", self.kept.line(row))?;
        let mut at = row;
        while let Some(next) = self.next(at) {
            write!(output, ", {}", self.kept.line(next))?;
            at = next;
        }
        Ok(())
    }

    // Each doubled product, in the order of first rows.
    fn say_products(&self) -> Result<Counts, fmt::Error> {
        let mut counts = Counts::default();
        for row in 0..self.kept.rows() {
            if !self.is_first(row) {
                continue;
            }
            counts.products = counts.products.wrapping_add(1);
            if self.next(row).is_some() {
                counts.doubled = counts.doubled.wrapping_add(1);
                say(b"doubled: ")?;
                say_key(self.kept.key(row))?;
                self.say_lines(row)?;
                say(b"\n")?;
            }
        }
        Ok(counts)
    }
}

// Turns the links round: from each row to the next that has its key.
// Stays: `find_before` fixes the links that this turns round, and there is no heap for a list of each key's rows.
fn turn_round(before: &[usize], after: &mut [usize]) {
    for (row, link) in before.iter().enumerate() {
        if let Some(at) = link.checked_sub(1) {
            if let Some(next) = after.get_mut(at) {
                *next = row;
            }
        }
    }
}

// Of the rows that are kept; there is room for a link of each.
fn say_kept(kept: &Kept) -> Result<Counts, fmt::Error> {
    let mut heads = for_rows();
    let mut older = for_rows();
    let mut before = for_rows();
    let ends = kept.ends();
    find_before(kept.store(), ends, &mut heads, &mut older, &mut before);
    let mut after = for_rows();
    turn_round(before.get(..ends.len()).unwrap_or(&[]), &mut after);
    let linked = Linked {
        kept,
        before: &before,
        after: &after,
    };
    linked.say_products()
}

// What the program had no room for.
fn say_left_out(rows: &Rows) -> fmt::Result {
    let mut output = Stream::Output;
    if rows.unread != 0 {
        writeln!(output, "not read: {} rows that are too long", rows.unread)?;
    }
    if let Some(unkept) = rows.kept.unkept {
        writeln!(
            output,
            "not compared: {} rows, from line {} on; their keys are shown above",
            unkept.rows, unkept.first_line
        )?;
    }
    Ok(())
}

fn say_counts(rows: &Rows, counts: Counts) -> fmt::Result {
    let mut output = Stream::Output;
    let kept = rows.kept.rows();
    let unkept = rows.kept.unkept.map_or(0, |unkept| unkept.rows);
    // A doubled product stands in its first row, and in all whose key stood before.
    let in_rows = kept
        .wrapping_sub(counts.products)
        .wrapping_add(counts.doubled);
    writeln!(
        output,
        "rows with a key: {}; different products: {}; doubled products: {}, in {} rows; refused rows: {}; rows that depend on the setting: {}",
        kept.wrapping_add(unkept),
        counts.products,
        counts.doubled,
        in_rows,
        rows.refused,
        rows.depending,
    )
}

pub(crate) fn report(rows: &Rows) -> Result<Counts, fmt::Error> {
    let counts = say_kept(&rows.kept)?;
    say_left_out(rows)?;
    say_counts(rows, counts)?;
    Ok(counts)
}
