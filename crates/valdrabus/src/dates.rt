// [02 T-05] Days: of a date literal, and of a day number.
ghost use Rattle.std.specs.Prelude.{◌≡◌};
ghost use Rattle.valdrabus.specs.Calls.{date_call, day_call, Dates, Finds};

use crate::dated::{DayTold, dated_told, found_told, no_day};
use crate::known::known_literal;
use crate::told::number_told;
use calendar::numbers::date_of_day;
use questions::dates::as_date;

// Stays: the C interface gives the numbers.
fn date_called(kind: u32, synthetic: u32, start: u32, end: u32, source: &[u8]) -> DayTold
    ensures { result ≡ date_call kind synthetic start end source.now }
{
    let Some(literal) = known_literal(kind, synthetic, start, end, 0) else {
        return DayTold {
            told: number_told(10),
            on: no_day(),
        };
    };
    dated_told(as_date(literal, source))
}

// A date literal's year, month, day and day number; all 0 on a refusal.
// Rules out: the day lent for the month; the mark passed over; start and end exchanged; the day lent for the number (must-fail: exchanged,
// argument_passed_over, one_for_another, another_place).
#[unsafe(no_mangle)]
pub extern "C" fn valdrabus_as_date(
    kind: u32,
    synthetic: u32,
    start: u32,
    end: u32,
    source: &[u8],
    year: &mut u32,
    month: &mut u32,
    day: &mut u32,
    number: &mut u32,
    first: &mut usize,
    second: &mut usize,
) -> u32
    ensures { Dates (date_call kind synthetic start end source.now) result year.new month.new day.new
        number.new first.new second.new }
{
    let answer = date_called(kind, synthetic, start, end, source);
    let told = answer.told;
    let on = answer.on;
    *year = on.year;
    *month = on.month;
    *day = on.day;
    *number = on.number;
    *first = told.first;
    *second = told.second;
    told.number
}

// The date of a day number; 14 and all 0 for a number that no day has.
// Rules out: the day lent for the month; 0 asked for every number (must-fail: exchanged, one_for_another).
#[unsafe(no_mangle)]
pub extern "C" fn valdrabus_date_of_day(
    number: u32,
    year: &mut u32,
    month: &mut u32,
    day: &mut u32,
) -> u32
    ensures { Finds (day_call number) result year.new month.new day.new }
{
    let answer = found_told(date_of_day(number));
    let told = answer.told;
    let found = answer.on;
    *year = found.year;
    *month = found.month;
    *day = found.day;
    told.number
}
