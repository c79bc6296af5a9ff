// Runs of digits: octal and hex escapes, once over base and width; and pairs of hex digits of which a number must be there, once over that number.
ghost use Rattle.std.specs.Prelude.{◌≡◌, ◌+◌, ◌≤◌, drop};
ghost use Rattle.escapes.specs.Digits.{Run, hex_by};

use leaves::digits::hex_value;

// So many digits, and the number that they make.
#[derive(Clone, Copy)]
pub struct Digits {
    pub count: usize,
    pub value: u32,
}

// The digits of a base at a place, `most` at the most.
pub(crate) fn digits_at(body: &[u8], at: usize, base: u8, most: usize) -> Digits
    requires { (base ≤ 16) × (most ≤ 8) }
    ensures { Run base most (drop at body.now) result }
{
    let mut value: u32 = 0;
    if body.len() <= at {
        return Digits { count: 0, value };
    }
    let left = body.len() - at;
    for count in 0..most {
        if left <= count {
            return Digits { count, value };
        }
        let digit = hex_value(body[at + count]);
        if base <= digit {
            return Digits { count, value };
        }
        value = value * (base as u32) + (digit as u32);
    }
    Digits { count: most, value }
}

// The number that some pairs of hex digits at a place make; 0 where they are not there. No byte ends the loop: it is laid out as straight code for each number
// of pairs, and digits in any order are read at one pace.
// Stays: no Option: `four_at`, `six_at` and `eight_at`, public functions, hand its answer on and promise `hex_by`, which says 0 for none.
// Stays: by pairs: by single digits it takes 1.05 to 1.16 times as long, and on Arm texts full of such escapes took a tenth longer.
// Rules out: another base; the last pair alone asked (must-fail: digits_by_fifteens, last_digits_alone_asked).
fn hex_pairs<const PAIRS: usize>(body: &[u8], at: usize) -> u32
    requires { PAIRS ≤ 4 }
    ensures { result ≡ hex_by (PAIRS + PAIRS) (drop at body.now) }
{
    if body.len() <= at {
        return 0;
    }
    if body.len() - at < PAIRS + PAIRS {
        return 0;
    }
    let mut whole = true;
    let mut value: u64 = 0;
    for i in 0..PAIRS {
        let first = hex_value(body[at + i + i]);
        let second = hex_value(body[at + i + i + 1]);
        whole = whole & ((first < 16) & (second < 16));
        value = value * 256 + ((first as u64) * 16 + (second as u64));
    }
    if whole {
        return value as u32;
    }
    0
}

// The number that four hex digits at a place make; 0 where they are not there.
// Stays: no Option: a public function that could not fail still can't (`hex_by`: 0 for none); no twin: all three are `hex_pairs`, named by digits.
// Rules out: the digits at the start told; two read (must-fail: digits_at_the_start, one_pair_less).
pub fn four_at(body: &[u8], at: usize) -> u32
    ensures { result ≡ hex_by 4 (drop at body.now) }
{
    hex_pairs::<2>(body, at)
}

// The number that six hex digits at a place make; 0 where they are not there.
// Stays: no Option: a public function that could not fail still can't (`hex_by`: 0 for none); no twin: all three are `hex_pairs`, named by digits.
// Rules out: the digits at the start told; four read (must-fail: digits_at_the_start, one_pair_less).
pub fn six_at(body: &[u8], at: usize) -> u32
    ensures { result ≡ hex_by 6 (drop at body.now) }
{
    hex_pairs::<3>(body, at)
}

// The number that eight hex digits at a place make; 0 where they are not there.
// Stays: no Option: a public function that could not fail still can't (`hex_by`: 0 for none); no twin: all three are `hex_pairs`, named by digits.
// Rules out: the digits at the start told; six read (must-fail: digits_at_the_start, one_pair_less).
pub fn eight_at(body: &[u8], at: usize) -> u32
    ensures { result ≡ hex_by 8 (drop at body.now) }
{
    hex_pairs::<4>(body, at)
}
