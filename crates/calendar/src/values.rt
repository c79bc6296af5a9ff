// [02 T-05] "exactly ten bytes, yyyy-mm-dd": the day that a value stands for.
ghost use Rattle.std.specs.Prelude.{◌≡◌};
ghost use Rattle.meaning.specs.Dates.{day_in};
ghost use Rattle.calendar.specs.Pairs.{pair_of};

use crate::numbers::day_of;
use meaning::CalendarDay;

// The number of two decimal digits; None if one is none.
// Rules out: : taken for a digit; the digits turned round (must-fail: no_day_taken, year_0000_taken).
fn two_digits(first: u8, second: u8) -> Option<u32>
    ensures { result ≡ pair_of first second }
{
    if (first < 48) | (57 < first) {
        return None;
    }
    if (second < 48) | (57 < second) {
        return None;
    }
    Some(10 * (first as u32) + (second as u32) - 528)
}

// The day that a value stands for. Refused: other than ten bytes, another byte for a digit or for -, and what is no day.
// Rules out: what stands behind ten bytes passed over; / taken for -; month and day turned round (must-fail: end_passed_over, other_taken, one_for_another).
pub fn day_in(value: &[u8]) -> Option<CalendarDay>
    ensures { result ≡ day_in value.now }
{
    if value.len() != 10 {
        return None;
    }
    if (value[4] != 45) | (value[7] != 45) {
        return None;
    }
    let century = two_digits(value[0], value[1])?;
    let of_century = two_digits(value[2], value[3])?;
    let month = two_digits(value[5], value[6])?;
    let day = two_digits(value[8], value[9])?;
    day_of(100 * century + of_century, month, day)
}
