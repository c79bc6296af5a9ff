// [02 T-05] A day in numbers.
ghost use Rattle.std.specs.Prelude.{◌≡◌};
ghost use Rattle.valdrabus.specs.Calls.{no_day, dated_told, found_told};

use crate::told::{Told, number_told, refusal_told};
use meaning::{CalendarDay, Refusal};

// What is told, and the day: on a refusal all its numbers are 0.
// Stays: the numbers that an export hands to C (`day_told` of specs/Calls names them).
#[derive(Clone, Copy)]
pub(crate) struct DayTold {
    pub told: Told,
    pub on: CalendarDay,
}

pub(crate) fn no_day() -> CalendarDay
    ensures { result ≡ no_day }
{
    CalendarDay {
        year: 0,
        month: 0,
        day: 0,
        number: 0,
    }
}

// A date literal's day.
pub(crate) fn dated_told(answer: Result<CalendarDay, Refusal>) -> DayTold
    ensures { result ≡ dated_told answer }
{
    match answer {
        Ok(on) => DayTold {
            told: number_told(0),
            on,
        },
        Err(refusal) => DayTold {
            told: refusal_told(refusal),
            on: no_day(),
        },
    }
}

// A number's day; 14 returns the number alone.
pub(crate) fn found_told(answer: Option<CalendarDay>) -> DayTold
    ensures { result ≡ found_told answer }
{
    match answer {
        Some(on) => DayTold {
            told: number_told(0),
            on,
        },
        None => DayTold {
            told: number_told(14),
            on: no_day(),
        },
    }
}
