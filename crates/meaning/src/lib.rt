// What goes into a question and what comes out of it. The definitions of specs/ give these types their meaning; there is no function here.
#![tactic(auto)]

// What the reading of strings may differ by, given at each call.
#[derive(Clone, Copy)]
pub struct Settings {
    // MySQL's backslash escapes in standard strings
    pub backslash: bool,
}

// The WITH or WITHOUT TIME ZONE of a TIME or TIMESTAMP.
#[derive(Clone, Copy)]
pub enum TimeZone {
    Unspecified,
    WithTimeZone,
    WithoutTimeZone,
}

// The qualifier behind an INTERVAL.
#[derive(Clone, Copy)]
pub enum IntervalFields {
    Year,
    Month,
    Day,
    Hour,
    Minute,
    Second,
    YearToMonth,
    DayToHour,
    DayToMinute,
    DayToSecond,
    HourToMinute,
    HourToSecond,
    MinuteToSecond,
    Week,
    Quarter,
    Decade,
    Century,
    Millennium,
    Millisecond,
    Microsecond,
    DayToMicrosecond,
    HourToMicrosecond,
    MinuteToMicrosecond,
    SecondToMicrosecond,
}

// The base of a bit string's digits.
#[derive(Clone, Copy)]
pub enum BitStringRadix {
    Binary,
    Hex,
}

// What a literal is said to be.
#[derive(Clone, Copy)]
pub enum LiteralKind {
    Integer,
    Float,
    Decimal,
    String,
    Boolean(bool),
    Null,
    Date,
    Time(TimeZone),
    Timestamp(TimeZone),
    // the qualifier and the precision, where they stand
    Interval(Option<IntervalFields>, Option<u32>),
    BitString(BitStringRadix),
    Money,
}

// What a question expects a literal to be.
#[derive(Clone, Copy)]
pub enum LiteralExpected {
    Integer,
    DecimalText,
    String,
    Boolean,
    Null,
    Temporal,
    BitString,
    Money,
    Date,
}

// From a place of the source up to another.
#[derive(Clone, Copy)]
pub struct Span {
    pub start: u32,
    pub end: u32,
}

// A literal: its kind, whether it stands in no source, and its span.
#[derive(Clone, Copy)]
pub struct Literal {
    pub kind: LiteralKind,
    pub synthetic: bool,
    pub span: Span,
}

// Why a question on a literal is refused: numbers 1 to 9. [02 T-04] 6 carries the place where reading stops, counted from the text's start. [02 T-05] 14: the
// value is no date.
#[derive(Clone, Copy)]
pub enum Refusal {
    WrongKind(LiteralExpected, LiteralKind),
    MissingSource(Span),
    InvalidSourceRange(Span),
    NotUtf8(Span),
    InvalidInteger(Span),
    InvalidString { span: Span, place: usize },
    InvalidBitString(Span),
    InvalidMoney(Span),
    NoRoom { needed: usize },
    InvalidDate(Span),
}

// A text that was read, before any span or kind is known: a part of it, or the first bytes of the buffer.
#[derive(Clone, Copy)]
pub enum ReadText {
    Borrowed { from: usize, until: usize },
    Written { len: usize },
}

// Why a text is not read: the place where reading stops, or the length for which there is no room.
#[derive(Clone, Copy)]
pub enum ReadRefusal {
    At { place: usize },
    NoRoom { needed: usize },
}

// A text: a part of the source, or the first bytes of the buffer.
#[derive(Clone, Copy)]
pub enum Text {
    Borrowed { start: usize, end: usize },
    Written { len: usize },
}

// From a place of the source up to another, in bytes.
// Stays: `Span` holds the 32-bit places that C gives; public functions and definitions of specs/ name both types.
#[derive(Clone, Copy)]
pub struct Part {
    pub start: usize,
    pub end: usize,
}

// Why an identifier's text is refused: it is asked of a bare text, no literal, so there is no span to give back.
#[derive(Clone, Copy)]
pub enum IdentifierError {
    NotUtf8,
    InvalidString,
    NoRoom { needed: usize },
}

// Why a value is not written: 12, 4, 11 and 9.
#[derive(Clone, Copy)]
pub enum WritingError {
    OverLimit,
    NotUtf8,
    HoldsNul,
    NoRoom { needed: usize },
}

// A spelling of a value that leaves no byte below 20 hex, E'..', or none outside 20 to 7E, U&'..'.
#[derive(Clone, Copy)]
pub enum Form {
    Escape,
    Unicode,
}

// How many value bytes a written part may hold.
// Stays: `Whole` and `AtMost` say what None and Some would not.
#[derive(Clone, Copy)]
pub enum PartSize {
    Whole,
    AtMost(usize),
}

// A number's base by its prefix, and where the digits begin.
#[derive(Clone, Copy)]
pub struct RadixPrefix {
    pub base: u32,
    pub start: usize,
}

// [02 T-03] One item of a block: a string literal that stands in the source, and its setting, by their numbers.
// Stays: the C interface lays an item out as four numbers of 32 bits.
#[derive(Clone, Copy)]
pub struct Item {
    pub kind: u32,
    pub setting: u32,
    pub start: u32,
    pub end: u32,
}

// What is told of an item: 0 or the refusal's number; how its text is answered (0 not, 1 borrowed, 2 written); where the text begins, in the source or in the
// buffer, or the place of a 6, in the text; and how long it is.
// Stays: the C interface lays an item's answer out as four numbers of 32 bits.
#[derive(Clone, Copy)]
pub struct Four {
    pub number: u32,
    pub how: u32,
    pub start: u32,
    pub len: u32,
}

// [02 T-05] A day of the calendar, years 1 to 9999, and its number: 0001-01-01 has 1.
#[derive(Clone, Copy)]
pub struct CalendarDay {
    pub year: u32,
    pub month: u32,
    pub day: u32,
    pub number: u32,
}

// [02 T-07] A bit string as packed bytes at the buffer's start, the first bit the top one of the first byte, and how many bits they hold.
#[derive(Clone, Copy)]
pub struct PackedBits {
    pub len: usize,
    pub bits: u64,
}

// Why a bit string is not written: 12, 16 and 9.
#[derive(Clone, Copy)]
pub enum BitWritingError {
    OverLimit,
    BadBits,
    NoRoom { needed: usize },
}
