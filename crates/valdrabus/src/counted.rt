// An integer's answer in numbers.
ghost use Rattle.std.specs.Prelude.{◌≡◌};
ghost use Rattle.valdrabus.specs.Calls.{counted_of};

use crate::told::{Told, number_told, refusal_told};
use meaning::Refusal;

// The value is 0 on a refusal.
// Stays: the numbers that an export hands to C (`counted_of` of specs/Calls names them).
#[derive(Clone, Copy)]
pub(crate) struct Counted {
    pub told: Told,
    pub value: i64,
}

pub(crate) fn integer_counted(answer: Result<i64, Refusal>) -> Counted
    ensures { result ≡ counted_of answer }
{
    match answer {
        Ok(value) => Counted {
            told: number_told(0),
            value,
        },
        Err(refusal) => Counted {
            told: refusal_told(refusal),
            value: 0,
        },
    }
}
