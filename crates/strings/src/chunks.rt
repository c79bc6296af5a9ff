// A turn of reading, for any of the three families: what stands for itself at a text's front, copied, and the unit behind it.
ghost use Rattle.std.specs.Prelude.{◌≡◌, ◌+◌, ◌≤◌, length};
ghost use Rattle.strings.specs.Quick.{mark_by, other_by, TurnsBehind, Turns, Ends};

use crate::runs::{copy_front, copy_run};
use crate::taking::take_unit;
use cutting::marks::mark_byte;
use escapes::units::Family;
use leaves::bytes::byte_at;

// What follows a turn.
#[derive(Clone, Copy)]
pub(crate) enum End {
    // another turn
    More,
    // a mark that is not doubled
    Closed,
    // nothing that can be read here
    Unread,
}

// What one turn read; `ends` where nothing stands behind it that could be read here.
#[derive(Clone, Copy)]
pub(crate) struct Turn {
    pub at: usize,
    pub n: usize,
    pub plain: bool,
    pub ends: bool,
}

// The mark that a family's body ends with.
// Stays: no step is chosen: a byte is told that the family holds, or that is fixed, as its definition `mark_by` tells it.
fn mark_of(family: Family) -> u8
    ensures { result ≡ mark_by family }
{
    match family {
        Family::Standard { mark, backslash: _ } => mark_byte(mark),
        Family::Escape => 39,
        Family::Unicode { mark } => mark_byte(mark),
    }
}

// The other byte that ends a run: the backslash where it is active, else the mark again.
// Stays: no step is chosen: a byte is told by the family, as its definition `other_by` tells it.
fn other_of(family: Family) -> u8
    ensures { result ≡ other_by family }
{
    match family {
        Family::Standard { mark, backslash } => {
            if backslash {
                return 92;
            }
            mark_byte(mark)
        }
        Family::Escape => 92,
        Family::Unicode { mark: _ } => 92,
    }
}

// The unit behind a run that stands in the buffer already: four bytes are put, of which those that count are left, and the others written over.
fn take_behind(text: &[u8], run: usize, family: Family, out: &mut [u8]) -> Turn
    requires { (run ≤ length text.now) × (run + 4 ≤ length out.old) }
    ensures { TurnsBehind family text.now run out.old result out.new }
{
    let unit = take_unit(&text[run..], family);
    if unit.len == 0 {
        return Turn {
            at: run,
            n: run,
            plain: true,
            ends: true,
        };
    }
    copy_front::<4>(&unit.bytes, &mut out[run..]);
    Turn {
        at: run + unit.len,
        n: run + unit.put,
        plain: false,
        ends: false,
    }
}

// A turn: a run of bytes that stand for themselves, and the unit behind it.
pub(crate) fn take_turn(text: &[u8], family: Family, out: &mut [u8]) -> Turn
    requires { 32 ≤ length out.old }
    ensures { Turns family text.now out.old result out.new }
{
    let run = copy_run(text, mark_of(family), other_of(family), out);
    if run == 16 {
        return Turn {
            at: run,
            n: run,
            plain: true,
            ends: false,
        };
    }
    take_behind(text, run, family, out)
}

// What follows a turn that has come to a place.
pub(crate) fn end_at(text: &[u8], at: usize, family: Family, ends: bool) -> End
    ensures { Ends text.now at family ends result }
{
    if !ends {
        return End::More;
    }
    if text.len() <= at {
        return End::Unread;
    }
    let mark = mark_of(family);
    if (text[at] == mark) & (byte_at(text, at + 1) != mark) {
        return End::Closed;
    }
    End::Unread
}
