// The character at a place: how many bytes it has, and its number.
ghost use Rattle.std.specs.Prelude.{◌≡◌, drop};
ghost use Rattle.meaning.specs.Chars.{width};
ghost use Rattle.utf8.specs.Tails.{due_of};
ghost use Rattle.scalars.specs.Scalars.{pending, lead_bits, scalar_of};

use utf8::tail::{Utf8Tail, is_whole, utf8_tail_push};

// How many bytes the character has that a byte begins; 0 if it begins none.
// Stays: no Option: a public function that could not fail still can't, and its definition `width` says 0 for none.
// Rules out: C0 or C1 said to begin a character; a byte above F4 said to begin one (must-fail: range_too_wide, last_mistaken).
pub fn utf8_width(byte: u8) -> usize
    ensures { result ≡ width byte }
{
    if byte <= 0x7F {
        return 1;
    }
    if byte <= 0xC1 {
        return 0;
    }
    if byte <= 0xDF {
        return 2;
    }
    if byte <= 0xEF {
        return 3;
    }
    if byte <= 0xF4 {
        return 4;
    }
    0
}

// What the first byte of a character adds to its number; 0 for a byte that begins none.
// Stays: its definition `lead_bits` says 0; whether a character begins is told by `utf8_tail_push`, beside which the number is made.
fn lead_bits(byte: u8) -> u32
    ensures { result ≡ lead_bits byte }
{
    if byte < 0x80 {
        return byte as u32;
    }
    if byte < 0xC2 {
        return 0;
    }
    if byte < 0xE0 {
        return (byte - 0xC0) as u32;
    }
    if byte < 0xF0 {
        return (byte - 0xE0) as u32;
    }
    if byte < 0xF5 {
        return (byte - 0xF0) as u32;
    }
    0
}

// Whether a later byte is due.
fn is_due(tail: Utf8Tail) -> bool
    ensures { result ≡ pending (due_of tail) }
{
    !matches!(tail, Utf8Tail::Start | Utf8Tail::Broken)
}

// The number that the bytes of the character at a place make; 0 where none begins there, or one of its bytes is missing or not as due.
// Stays: no Option: a public function that could not fail still can't, and its definition `scalar_of` says 0 there.
// Rules out: later bytes of five bits; a later byte passed over (must-fail: another_width, later_byte_mistaken).
pub fn scalar_at(text: &[u8], at: usize) -> u32
    ensures { result ≡ scalar_of (drop at text.now) }
{
    if text.len() <= at {
        return 0;
    }
    let first = text[at];
    let mut tail = utf8_tail_push(Utf8Tail::Start, first);
    let mut number = lead_bits(first);
    for place in at + 1..text.len() {
        if !is_due(tail) {
            break;
        }
        let byte = text[place];
        tail = utf8_tail_push(tail, byte);
        number = number * 64 + u32::from(byte % 64);
    }
    if is_whole(tail) {
        return number;
    }
    0
}
