// A row of the input: a head of 48 bytes, then the text with its padding, the value, the name. tools/replay.py says what stands where.
use crate::told::Told;
use leaves::bytes::byte_at;
use leaves::views::part_of;
use meaning::{BitStringRadix, Form, Literal, LiteralKind, PartSize, Settings, Span, TimeZone};

// The question of a row that is a block of literals in one call.
pub(crate) const BLOCK: u8 = 21;

// The bytes at a place of a row; zeros where it ends before them.
fn bytes_at<const N: usize>(row: &[u8], at: usize) -> [u8; N] {
    let Some(rest) = row.get(at..) else {
        return [0; N];
    };
    match rest.first_chunk::<N>() {
        Some(bytes) => *bytes,
        None => [0; N],
    }
}

// Numbers of two, four and eight bytes, the lowest first.
// Stays: each is one call of `bytes_at`, generic over the length; their numbers are of three types.
fn two(row: &[u8], at: usize) -> usize {
    usize::from(u16::from_le_bytes(bytes_at(row, at)))
}

fn four(row: &[u8], at: usize) -> u32 {
    u32::from_le_bytes(bytes_at(row, at))
}

fn eight(row: &[u8], at: usize) -> u64 {
    u64::from_le_bytes(bytes_at(row, at))
}

// How many bytes the row that begins here takes.
pub(crate) fn row_len(row: &[u8]) -> usize {
    two(row, 26)
}

// Numbers of four bytes, 0 past the last.
pub(crate) fn numbers_in(bytes: &[u8]) -> [u32; 128] {
    let mut numbers = [0; 128];
    let (given, _) = bytes.as_chunks::<4>();
    for (number, bytes) in numbers.iter_mut().zip(given) {
        *number = u32::from_le_bytes(*bytes);
    }
    numbers
}

fn temporal_kind(code: u8) -> LiteralKind {
    // Stays: a program does what it did on every input: `kind_of` of admitting takes a byte that is no code for another kind.
    match code {
        8 => LiteralKind::Date,
        9 => LiteralKind::Time(TimeZone::Unspecified),
        10 => LiteralKind::Timestamp(TimeZone::Unspecified),
        _ => LiteralKind::Interval(None, None),
    }
}

// A kind by its code, which is the row's and any byte: time zones unspecified, interval data absent.
fn kind_of(code: u8) -> LiteralKind {
    // Stays: a program does what it did on every input: `kind_of` of admitting takes a byte that is no code for another kind.
    match code {
        1 => LiteralKind::Integer,
        2 => LiteralKind::Float,
        3 => LiteralKind::Decimal,
        4 => LiteralKind::String,
        5 => LiteralKind::Boolean(true),
        6 => LiteralKind::Boolean(false),
        7 => LiteralKind::Null,
        12 => LiteralKind::BitString(BitStringRadix::Binary),
        13 => LiteralKind::BitString(BitStringRadix::Hex),
        14 => LiteralKind::Money,
        _ => temporal_kind(code),
    }
}

// A row, and by how many bytes its literal's span is moved: by none, but where the source is asked with its padding.
#[derive(Clone, Copy)]
pub(crate) struct Row<'a> {
    bytes: &'a [u8],
    by: u8,
}

impl<'a> Row<'a> {
    pub(crate) fn new(bytes: &'a [u8]) -> Row<'a> {
        Row { bytes, by: 0 }
    }

    // The row as it is asked with its padding.
    pub(crate) fn moved(self) -> Row<'a> {
        Row {
            bytes: self.bytes,
            by: self.front(),
        }
    }

    pub(crate) fn question(self) -> u8 {
        byte_at(self.bytes, 0)
    }

    pub(crate) fn has_padding(self) -> bool {
        byte_at(self.bytes, 13) != 0
    }

    // How long the buffer is in the first asking.
    pub(crate) fn room(self) -> usize {
        byte_at(self.bytes, 14) as usize
    }

    // A part of a row, by the places of two numbers that tell where it begins and ends.
    fn part_by(self, from: usize, until: usize) -> &'a [u8] {
        part_of(self.bytes, two(self.bytes, from), two(self.bytes, until))
    }

    pub(crate) fn source(self) -> &'a [u8] {
        self.part_by(18, 20)
    }

    pub(crate) fn padded_source(self) -> &'a [u8] {
        part_of(self.bytes, 48, two(self.bytes, 22))
    }

    pub(crate) fn value(self) -> &'a [u8] {
        self.part_by(22, 24)
    }

    pub(crate) fn name(self) -> &'a [u8] {
        part_of(self.bytes, two(self.bytes, 24), self.bytes.len())
    }

    // Of a block, where the value stands in other rows: the items, the answer slice as it is lent and as it is due, by numbers of four bytes, and the bytes written.
    pub(crate) fn items(self) -> &'a [u8] {
        self.part_by(22, 4)
    }

    pub(crate) fn lent(self) -> &'a [u8] {
        self.part_by(4, 6)
    }

    pub(crate) fn slice_due(self) -> &'a [u8] {
        self.part_by(6, 8)
    }

    pub(crate) fn written(self) -> &'a [u8] {
        self.part_by(8, 24)
    }

    // The span, moved by so many bytes.
    fn span(self) -> Span {
        Span {
            start: four(self.bytes, 4).wrapping_add(self.by as u32),
            end: four(self.bytes, 8).wrapping_add(self.by as u32),
        }
    }

    // The literal that is asked of, its span moved by so many bytes.
    pub(crate) fn literal(self) -> Literal {
        Literal {
            kind: kind_of(byte_at(self.bytes, 1)),
            synthetic: byte_at(self.bytes, 3) == 1,
            span: self.span(),
        }
    }

    pub(crate) fn settings(self) -> Settings {
        Settings {
            backslash: byte_at(self.bytes, 2) == 1,
        }
    }

    // The writer's part size, where the start stands in other rows.
    pub(crate) fn size(self) -> PartSize {
        if byte_at(self.bytes, 1) == 0 {
            return PartSize::Whole;
        }
        PartSize::AtMost(four(self.bytes, 4) as usize)
    }

    // The form that a value is written in, where the kind stands in other rows.
    // Stays: any byte names one of the two; a From<u8> of `Form` would belong into meaning, for this program alone.
    pub(crate) fn form(self) -> Form {
        if byte_at(self.bytes, 1) == 1 {
            return Form::Escape;
        }
        Form::Unicode
    }

    // How many bytes of padding stand before the source.
    pub(crate) fn front(self) -> u8 {
        byte_at(self.bytes, 12)
    }

    // The number of a day, where the start stands in other rows.
    pub(crate) fn day_number(self) -> u32 {
        four(self.bytes, 4)
    }

    // The bit count of bytes, where start and end stand in other rows; and the radix of their literal, where the kind does.
    pub(crate) fn bit_count(self) -> u64 {
        eight(self.bytes, 4)
    }

    // Stays: any byte names one of the two; a From<u8> of `BitStringRadix` would belong into meaning, for this program alone.
    pub(crate) fn radix(self) -> BitStringRadix {
        if byte_at(self.bytes, 1) == 12 {
            return BitStringRadix::Binary;
        }
        BitStringRadix::Hex
    }

    // What is due: a letter, a number and four values.
    pub(crate) fn due(self) -> Told {
        Told {
            number: byte_at(self.bytes, 16) as u32,
            letter: byte_at(self.bytes, 15),
            first: eight(self.bytes, 28) as usize,
            second: four(self.bytes, 36) as usize,
            third: four(self.bytes, 40) as usize,
            fourth: four(self.bytes, 44) as usize,
        }
    }
}
