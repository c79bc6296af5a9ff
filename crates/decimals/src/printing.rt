// [01 Numbers] "printed in at most 40 bytes": a number of 128 bits in decimal, nine digits at a time.
ghost use Rattle.std.specs.Prelude.{◌≡◌, ◌∷◌, length};
ghost use Rattle.meaning.specs.Reading.{written};
ghost use Rattle.meaning.specs.Reads.{Reads};
ghost use Rattle.meaning.specs.Numbers.{digits_of};
ghost use Rattle.meaning.specs.Halves.{joined_halves, text_of};
ghost use Rattle.decimals.specs.Printing.{Parts, last_of};

use crate::halves::negated;
use meaning::{ReadRefusal, ReadText};
use numbers::radix::Halves;

// A billionth of a number, and what is left of it.
#[derive(Clone, Copy)]
pub(crate) struct Parted {
    pub quotient: Halves,
    pub rest: u64,
}

// The number divided by a billion: the low half goes by two limbs of 32 bits.
// Rules out: what is left taken by another divisor, or of another limb (must-fail: digits_mistaken, other_digits).
fn by_billion(halves: Halves) -> Parted
    ensures { Parts (joined_halves halves.hi halves.lo) result }
{
    let a = halves.hi % 1_000_000_000 * 0x1_0000_0000 + halves.lo / 0x1_0000_0000;
    let b = a % 1_000_000_000 * 0x1_0000_0000 + halves.lo % 0x1_0000_0000;
    Parted {
        quotient: Halves {
            hi: halves.hi / 1_000_000_000,
            lo: a / 1_000_000_000 * 0x1_0000_0000 + b / 1_000_000_000,
        },
        rest: b % 1_000_000_000,
    }
}

// How many decimal digits a number of 64 bits has.
// Stays: no `ilog10`: one of the wrong programs of this loop counts without end (must-fail: same_digit_again).
// Rules out: 9 counted as two digits; 10 as one (must-fail: digits_mistaken, other_digits).
fn count_low(value: u64) -> usize
    ensures { result ≡ length (digits_of value) }
{
    let mut n = 0;
    let mut left = value;
    while 10 <= left {
        left /= 10;
        n += 1;
    }
    n + 1
}

// How many decimal digits a number of 128 bits has.
// Rules out: the low half alone counted, or as it was given (must-fail: low_half_alone, group_mistaken).
fn count_digits(halves: Halves) -> usize
    ensures { result ≡ length (digits_of (joined_halves halves.hi halves.lo)) }
{
    let mut n = 0;
    let mut left = halves;
    while left.hi != 0 {
        left = by_billion(left).quotient;
        n += 9;
    }
    n + count_low(left.lo)
}

// Fills a part of a buffer, from its end back, with the last digits of a number, zeros in front.
// Stays: Display writes to a Formatter, and these digits, zeros in front, fill a part of a lent buffer (`last_of`).
// Rules out: a group without its leading zeros; digits from 9 on (must-fail: digits_mistaken, other_digits).
fn fill_low(value: u64, out: &mut [u8])
    ensures { out.new ≡ last_of (length out.old) value }
{
    let mut left = value;
    for place in (0..out.len()).rev() {
        out[place] = 48 + (left % 10) as u8;
        left /= 10;
    }
}

// Fills a part of a buffer that is as long as the number's digits with them.
// Rules out: a place that moves by less than is filled; a group's places left as they were lent (must-fail: group_mistaken, group_left_out).
#[inline(always)]
fn fill_digits(halves: Halves, out: &mut [u8])
    requires { length (digits_of (joined_halves halves.hi halves.lo)) ≡ length out.old }
    ensures { out.new ≡ digits_of (joined_halves halves.hi halves.lo) }
{
    let mut end = out.len();
    let mut left = halves;
    while left.hi != 0 {
        let parted = by_billion(left);
        fill_low(parted.rest, &mut out[end - 9..end]);
        end -= 9;
        left = parted.quotient;
    }
    fill_low(left.lo, &mut out[..end]);
}

// Prints a number of 128 bits. Without room the buffer is as it was lent.
// Rules out: a store before the test of room; more room asked than is needed (must-fail: limit_or_place_mistaken, room_mistaken).
fn print_plus(halves: Halves, out: &mut [u8]) -> Result<ReadText, ReadRefusal>
    ensures { Reads (written (digits_of (joined_halves halves.hi halves.lo))) out.old result out.new }
{
    let needed = count_digits(halves);
    if out.len() < needed {
        return Err(ReadRefusal::NoRoom { needed });
    }
    fill_digits(halves, &mut out[..needed]);
    Ok(ReadText::Written { len: needed })
}

// Prints a number of 128 bits behind a minus. Without room the buffer is as it was lent.
// Rules out: the minus over the first digit; a store before the test of room; the minus not counted (must-fail: limit_or_place_mistaken,
// minus_before_the_test, room_mistaken).
fn print_minus(halves: Halves, out: &mut [u8]) -> Result<ReadText, ReadRefusal>
    ensures { Reads (written (45 ∷ digits_of (joined_halves halves.hi halves.lo))) out.old result out.new }
{
    let needed = 1 + count_digits(halves);
    if out.len() < needed {
        return Err(ReadRefusal::NoRoom { needed });
    }
    fill_digits(halves, &mut out[1..needed]);
    out[0] = 45;
    Ok(ReadText::Written { len: needed })
}

// Prints the signed number that 128 bits stand for. Without room the buffer is as it was lent.
// Rules out: -2^127 without its minus; 2^127 - 1 behind one; a borrow by a low half of zero (must-fail: minus_lost, minus_before_the_greatest,
// borrowed_by_zero).
pub(crate) fn print_halves(halves: Halves, out: &mut [u8]) -> Result<ReadText, ReadRefusal>
    ensures { Reads (written (text_of (joined_halves halves.hi halves.lo))) out.old result out.new }
{
    if halves.hi < 0x8000_0000_0000_0000 {
        return print_plus(halves, out);
    }
    print_minus(negated(halves), out)
}
