// UTF-8 (RFC 3629), a byte at a time: the states of a text that may end inside a character.
ghost use Rattle.std.specs.Prelude.{◌≡◌};
ghost use Rattle.meaning.specs.Chars.{push, whole};
ghost use Rattle.utf8.specs.Tails.{due_of, due_next};

// What is due: nothing; some later bytes; some of which the first has a narrower range; or the text is broken. The eight states that
// `utf8_tail_push` can reach, and the refusal.
#[derive(Clone, Copy)]
pub enum Utf8Tail {
    Start,
    One,
    Two,
    TwoFromA0,
    TwoUpTo9F,
    Three,
    ThreeFrom90,
    ThreeUpTo8F,
    Broken,
}

// The state that a first byte leads to.
// Rules out: a surrogate or a scalar above 10FFFF begun like any other.
fn utf8_lead(byte: u8) -> Utf8Tail
    ensures { due_of result ≡ push (due_of Utf8Tail.Start) byte }
{
    if byte < 0x80 {
        return Utf8Tail::Start;
    }
    if byte < 0xC2 {
        return Utf8Tail::Broken;
    }
    if byte < 0xE0 {
        return Utf8Tail::One;
    }
    if byte < 0xE1 {
        return Utf8Tail::TwoFromA0;
    }
    if byte < 0xED {
        return Utf8Tail::Two;
    }
    if byte < 0xEE {
        return Utf8Tail::TwoUpTo9F;
    }
    if byte < 0xF0 {
        return Utf8Tail::Two;
    }
    if byte < 0xF1 {
        return Utf8Tail::ThreeFrom90;
    }
    if byte < 0xF4 {
        return Utf8Tail::Three;
    }
    if byte < 0xF5 {
        return Utf8Tail::ThreeUpTo8F;
    }
    Utf8Tail::Broken
}

// One byte more.
// Rules out: an overlong form accepted; a surrogate accepted (must-fail: too_much_accepted, surrogate_accepted).
pub fn utf8_tail_push(tail: Utf8Tail, byte: u8) -> Utf8Tail
    ensures { due_of result ≡ push (due_of tail) byte }
{
    // Stays: Broken is a state that no byte leaves, as in `push`, and no refusal of this call: a public function that could not fail still can't.
    match tail {
        Utf8Tail::Start => utf8_lead(byte),
        Utf8Tail::One => due_next(byte, 0x80, 0xBF, Utf8Tail::Start),
        Utf8Tail::Two => due_next(byte, 0x80, 0xBF, Utf8Tail::One),
        Utf8Tail::TwoFromA0 => due_next(byte, 0xA0, 0xBF, Utf8Tail::One),
        Utf8Tail::TwoUpTo9F => due_next(byte, 0x80, 0x9F, Utf8Tail::One),
        Utf8Tail::Three => due_next(byte, 0x80, 0xBF, Utf8Tail::Two),
        Utf8Tail::ThreeFrom90 => due_next(byte, 0x90, 0xBF, Utf8Tail::Two),
        Utf8Tail::ThreeUpTo8F => due_next(byte, 0x80, 0x8F, Utf8Tail::Two),
        Utf8Tail::Broken => Utf8Tail::Broken,
    }
}

// The next state where a byte is in its range, and the refusal where it is not.
fn due_next(byte: u8, low: u8, high: u8, next: Utf8Tail) -> Utf8Tail
    ensures { result ≡ due_next low high next byte }
{
    if (low <= byte) & (byte <= high) {
        return next;
    }
    Utf8Tail::Broken
}

// Whether nothing is due and nothing is broken.
// Rules out: an unfinished sequence taken for whole; no text whole (must-fail: too_much_accepted, all_refused).
pub fn is_whole(tail: Utf8Tail) -> bool
    ensures { result ≡ whole (due_of tail) }
{
    matches!(tail, Utf8Tail::Start)
}
