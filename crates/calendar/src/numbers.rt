// [02 T-05] "Day 1 is 0001-01-01": a day's number, and the day that a number stands for, by divisions alone.
ghost use Rattle.std.specs.Prelude.{◌≡◌, ◌<◌};
ghost use Rattle.std.specs.Prelude.{if◌then◌else◌};
ghost use Rattle.meaning.specs.Dates.{day_number, day_question};
ghost use Rattle.laws.proofs.dates.Calendar.{IsDay};
ghost use Rattle.calendar.specs.Falls.{InYear, InMonth, day_of};

use crate::lengths::{days_before_month, days_of_years, is_leap, lack, month_length};
use meaning::CalendarDay;

// A year, and how many of its days are past.
#[derive(Clone, Copy)]
pub(crate) struct YearDay {
    pub year: u32,
    pub past: u32,
}

// The year in which the day falls before which there are so many since 0001-01-01. A hundred years have 36524 days and a quarter, a year of them 365 and a
// quarter: rounded down, since a leap day ends its four years, and a fourth century its four hundred.
// Rules out: a leap day at the end of every century; years counted from 0 (must-fail: leap_day_mistaken, four_hundredth_common).
fn year_at(past: u32) -> YearDay
    requires { past < 3652059 }
    ensures { InYear past result.year result.past }
{
    let century = (4 * past + 3) / 146097;
    let in_century = past - 146097 * century / 4;
    let of_century = (4 * in_century + 3) / 1461;
    YearDay {
        year: 100 * century + of_century + 1,
        past: in_century - 1461 * of_century / 4,
    }
}

// The month in which the day falls before which so many of its year are past: what `days_before_month` counts, turned round.
// Rules out: the leap day forgotten from March on; a leap day in every year (must-fail: leap_day_forgotten, century_leap).
fn month_at(leap: bool, past: u32) -> u32
    requires { past < (if leap then 366 else 365) }
    ensures { InMonth leap past result }
{
    let behind = 61 <= past + lack(true, leap);
    (12 * (past + lack(behind, leap)) + 373) / 367
}

// The number of a day. From March on it is counted back from the year's end: a year and what its February lacks of 30 days are 367 days, so that nothing has to
// ask whether it is a leap year.
// Rules out: the year's own days counted before it; a year of 366 days with what February lacks; days counted from 0 or from 1970 on (must-fail:
// own_year_counted, leap_day_forgotten, counted_from_0, counted_from_1970).
fn day_number(year: u32, month: u32, day: u32) -> u32
    requires { IsDay year month day }
    ensures { result ≡ day_number year month day }
{
    let even = (367 * month - 362) / 12;
    if month <= 2 {
        return days_of_years(year - 1) + even + day;
    }
    days_of_years(year) + even + day - 367
}

// The day of this year, month and day of the month with its number; refused if there is none.
// Stays: until they are tested here the three numbers are no day; the answer is the struct of them.
// Rules out: day 0 taken; year 0000 taken; month 13 taken (must-fail: no_day_taken, year_0000_taken, month_13_taken).
pub(crate) fn day_of(year: u32, month: u32, day: u32) -> Option<CalendarDay>
    ensures { result ≡ day_of year month day }
{
    if (year == 0) | (9999 < year) {
        return None;
    }
    if (month == 0) | (12 < month) {
        return None;
    }
    if (day == 0) | (month_length(year, month) < day) {
        return None;
    }
    Some(CalendarDay {
        year,
        month,
        day,
        number: day_number(year, month, day),
    })
}

// The day that a number stands for. Refused: 0, and numbers past 9999-12-31.
// Rules out: a number past 9999-12-31 taken; 0 taken; days counted from 0 or from 1970 on; the days of a month counted from 0; the month told for the year
// (must-fail: end_passed_over, other_taken, counted_from_0, counted_from_1970, one_for_another, month_for_year).
pub fn date_of_day(number: u32) -> Option<CalendarDay>
    ensures { result ≡ day_question number }
{
    if (number == 0) | (3652059 < number) {
        return None;
    }
    let at = year_at(number - 1);
    let leap = is_leap(at.year);
    let month = month_at(leap, at.past);
    Some(CalendarDay {
        year: at.year,
        month,
        day: at.past - days_before_month(leap, month) + 1,
        number,
    })
}
