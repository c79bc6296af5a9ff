// The number of a refusal, and of what a question expects.
ghost use Rattle.std.specs.Prelude.{◌≡◌};
ghost use Rattle.meaning.specs.Answers.{refusal_number, expected_code};

use meaning::{LiteralExpected, Refusal};

// 1 to 9, and 14.
// Stays: a public function keeps its name and its answer, `refusal_number` of specs/Answers; a From would only call it.
// Rules out: 6 for 7; 3 for 4 (must-fail: one_for_another, another_reason_told).
pub fn refusal_number(refusal: Refusal) -> u32
    ensures { result ≡ refusal_number refusal }
{
    match refusal {
        Refusal::WrongKind(_, _) => 1,
        Refusal::MissingSource(_) => 2,
        Refusal::InvalidSourceRange(_) => 3,
        Refusal::NotUtf8(_) => 4,
        Refusal::InvalidInteger(_) => 5,
        Refusal::InvalidString { span: _, place: _ } => 6,
        Refusal::InvalidBitString(_) => 7,
        Refusal::InvalidMoney(_) => 8,
        Refusal::NoRoom { needed: _ } => 9,
        Refusal::InvalidDate(_) => 14,
    }
}

// The families of kinds, in the order of `LiteralExpected`, from 1.
// Stays: C and the record program take them as numbers, `expected_code` of specs/Answers.
// Rules out: NULL told as temporal; money told as dates (must-fail: another_reason_told, exchanged).
pub fn expected_code(expected: LiteralExpected) -> u32
    ensures { result ≡ expected_code expected }
{
    match expected {
        LiteralExpected::Integer => 1,
        LiteralExpected::DecimalText => 2,
        LiteralExpected::String => 3,
        LiteralExpected::Boolean => 4,
        LiteralExpected::Null => 5,
        LiteralExpected::Temporal => 6,
        LiteralExpected::BitString => 7,
        LiteralExpected::Money => 8,
        LiteralExpected::Date => 9,
    }
}
