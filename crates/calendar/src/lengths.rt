// [02 T-05] The Gregorian calendar: leap years, the lengths of months, and the days before a year and before a month, without a loop.
ghost use Rattle.std.specs.Prelude.{◌≡◌, ◌-◌, ◌*◌, ◌≤◌};
ghost use Rattle.calendar.specs.Falls.{lack_by};
ghost use Rattle.meaning.specs.Dates.{is_leap, length_by, month_length, year_length, before};

// Whether a year is a leap year.
// Rules out: every fourth year a leap year; 1900 one; 2000 none; the rule of centuries from 1582 on alone (must-fail: leap_day_mistaken, century_leap,
// four_hundredth_common, every_fourth_before_1582).
pub(crate) fn is_leap(year: u32) -> bool
    ensures { result ≡ is_leap year }
{
    (year % 4 == 0) & ((year % 100 != 0) | (year % 400 == 0))
}

// What February lacks of 30 days, where it counts; 0 elsewhere. A choice between constants, so that months in any order are counted at one pace.
// Rules out: a leap day in every year; a February of 30 days in a leap year (must-fail: leap_day_mistaken, four_hundredth_common).
pub(crate) fn lack(counts: bool, leap: bool) -> u32
    ensures { result ≡ lack_by counts leap }
{
    if counts {
        if leap {
            return 1;
        }
        return 2;
    }
    0
}

// The days of a month. Only February asks for the year.
// Rules out: 31 days in every month but February; a February of 30 days (must-fail: century_leap, leap_day_forgotten).
pub(crate) fn month_length(year: u32, month: u32) -> u32
    ensures { result ≡ month_length year month }
{
    if month == 2 {
        return 30 - lack(true, is_leap(year));
    }
    31 - u32::from((month == 4) | (month == 6) | (month == 9) | (month == 11))
}

// The days of so many years, from the first on.
// Rules out: a leap day for every hundredth year; none for every four hundredth; one for every third (must-fail: century_leap, four_hundredth_common,
// leap_day_mistaken).
pub(crate) fn days_of_years(years: u32) -> u32
    requires { years ≤ 9999 }
    ensures { (result ≡ before year_length years) × (result ≤ 366 * 9999) }
{
    let centuries = years / 100;
    365 * years + years / 4 - centuries + centuries / 4
}

// The days of a year before a month. Were February 30 days long, they would be the twelfths of 367 m - 362.
// Rules out: the leap day left out; a February of 30 days (must-fail: leap_day_forgotten, century_leap).
pub(crate) fn days_before_month(leap: bool, month: u32) -> u32
    requires { (1 ≤ month) × (month ≤ 12) }
    ensures { result ≡ before (length_by leap) (month - 1) }
{
    (367 * month - 362) / 12 - lack(2 < month, leap)
}
