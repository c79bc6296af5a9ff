// A literal's kind and the record program's code, both ways.
ghost use Rattle.std.specs.Prelude.{◌≡◌};
ghost use Rattle.meaning.specs.Answers.{kind_code};
ghost use Rattle.meaning.specs.Codes.{kind_of};
ghost use Rattle.meaning.specs.Questions.{is_integer, is_number, is_string, is_temporal, is_money, bit_base};
ghost use Rattle.meaning.specs.Dates.{is_date_kind};

use meaning::{BitStringRadix, LiteralKind, TimeZone};

// The code of a kind, 1 to 14; what the kind holds besides is not in it.
// Rules out: both radices by one code; true and false by one code (must-fail: radices_as_one, two_told_as_one).
pub fn kind_code(kind: LiteralKind) -> u32
    ensures { result ≡ kind_code kind }
{
    match kind {
        LiteralKind::Integer => 1,
        LiteralKind::Float => 2,
        LiteralKind::Decimal => 3,
        LiteralKind::String => 4,
        LiteralKind::Boolean(value) => { if value { 5 } else { 6 } }
        LiteralKind::Null => 7,
        LiteralKind::Date => 8,
        LiteralKind::Time(_) => 9,
        LiteralKind::Timestamp(_) => 10,
        LiteralKind::Interval(_, _) => 11,
        LiteralKind::BitString(radix) => {
            match radix {
                BitStringRadix::Binary => 12,
                BitStringRadix::Hex => 13,
            }
        }
        LiteralKind::Money => 14,
    }
}

// The kind of a code: time zones are unspecified, interval data absent. A code outside 1 to 14 is no kind, and its callers ask for none.
// Rules out: times and timestamps by one kind; floats and decimals by one kind (must-fail: times_as_timestamps, two_told_as_one).
// Stays: a TryFrom would refuse the codes that this is promised to answer (`kind_of` of specs/Codes).
pub fn kind_of(code: u32) -> LiteralKind
    ensures { result ≡ kind_of code }
{
    match code {
        0 => LiteralKind::Integer,
        1 => LiteralKind::Integer,
        2 => LiteralKind::Float,
        3 => LiteralKind::Decimal,
        4 => LiteralKind::String,
        5 => LiteralKind::Boolean(true),
        6 => LiteralKind::Boolean(false),
        7 => LiteralKind::Null,
        8 => LiteralKind::Date,
        9 => LiteralKind::Time(TimeZone::Unspecified),
        10 => LiteralKind::Timestamp(TimeZone::Unspecified),
        11 => LiteralKind::Interval(None, None),
        12 => LiteralKind::BitString(BitStringRadix::Binary),
        13 => LiteralKind::BitString(BitStringRadix::Hex),
        14 => LiteralKind::Money,
        _ => LiteralKind::Null,
    }
}

// Whether a kind is that of integers.
// Rules out: floats for integers; decimals let in (must-fail: kind_left_out, other_kind_let_in).
pub fn is_integer(kind: LiteralKind) -> bool
    ensures { result ≡ is_integer kind }
{
    matches!(kind, LiteralKind::Integer)
}

// Whether a kind is that of numbers.
// Rules out: decimals left out; strings let in (must-fail: kind_left_out, other_kind_let_in).
pub fn is_number(kind: LiteralKind) -> bool
    ensures { result ≡ is_number kind }
{
    matches!(
        kind,
        LiteralKind::Integer | LiteralKind::Float | LiteralKind::Decimal
    )
}

// Whether a kind is that of strings.
// Rules out: NULL for strings; dates let in (must-fail: kind_left_out, other_kind_let_in).
pub fn is_string(kind: LiteralKind) -> bool
    ensures { result ≡ is_string kind }
{
    matches!(kind, LiteralKind::String)
}

// Whether a kind is that of dates, times, timestamps or intervals.
// Rules out: intervals left out; bit strings let in (must-fail: kind_left_out, other_kind_let_in).
pub fn is_temporal(kind: LiteralKind) -> bool
    ensures { result ≡ is_temporal kind }
{
    matches!(
        kind,
        LiteralKind::Date
            | LiteralKind::Time(_)
            | LiteralKind::Timestamp(_)
            | LiteralKind::Interval(_, _)
    )
}

// Whether a kind is that of money.
// Rules out: bit strings for money; integers let in (must-fail: kind_left_out, other_kind_let_in).
pub fn is_money(kind: LiteralKind) -> bool
    ensures { result ≡ is_money kind }
{
    matches!(kind, LiteralKind::Money)
}

// Whether a kind is that of dates.
// Rules out: times for dates; timestamps let in (must-fail: kind_left_out, other_kind_let_in).
pub fn is_date(kind: LiteralKind) -> bool
    ensures { result ≡ is_date_kind kind }
{
    matches!(kind, LiteralKind::Date)
}

// The base of a bit string's digits; 0 for any other kind.
// Stays: `bit_base` of the rules is a number, and 0 the base of no bit string.
// Rules out: hex for binary digits; a base for every kind (must-fail: kind_left_out, other_kind_let_in).
pub fn bit_base(kind: LiteralKind) -> u8
    ensures { result ≡ bit_base kind }
{
    match kind {
        LiteralKind::BitString(BitStringRadix::Binary) => 2,
        LiteralKind::BitString(BitStringRadix::Hex) => 16,
        _ => 0,
    }
}
