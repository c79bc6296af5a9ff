// UTF-8 by places: whether each byte may stand where it stands is told by the three before it, so that many places are asked at once, with no branch among
// them. A lead byte asks for its later bytes at the next places; the byte before a place bounds it, if one is due there.
ghost use Rattle.std.specs.Prelude.{◌≡◌, ◌+◌, ◌-◌, ◌<◌, ◌≤◌, true, ◌&&◌, length, drop, nat_le};
ghost use Rattle.meaning.specs.Bytes.{◌!◌};
ghost use Rattle.meaning.specs.Chars.{utf8};
ghost use Rattle.leaves.specs.Blocks.{passes};
ghost use Rattle.utf8.specs.Places.{low_of, high_of, is_due, fits, fitted, is_one, padded};

// From where on the second byte of a character may lie, by its first.
// Stays: no value of a type is converted: it is a bound of a range, by a byte, and its definition `low_of` has just these ifs.
// Rules out: an overlong form of three bytes accepted (must-fail: second_byte_lost).
fn second_low(first: u8) -> u8
    ensures { result ≡ low_of first }
{
    if first == 0xE0 {
        return 0xA0;
    }
    if first == 0xF0 {
        return 0x90;
    }
    0x80
}

// Up to where it may lie.
// Stays: no value of a type is converted: it is a bound of a range, by a byte, and its definition `high_of` has just these ifs.
// Rules out: a surrogate; a scalar above 10FFFF (must-fail: surrogate_accepted).
fn second_high(first: u8) -> u8
    ensures { result ≡ high_of first }
{
    if first == 0xED {
        return 0x9F;
    }
    if first == 0xF4 {
        return 0x8F;
    }
    0xBF
}

// Whether a later byte is due behind three bytes.
// Rules out: the fourth byte of a character not asked for (must-fail: fourth_byte_not_due).
fn is_due(third: u8, second: u8, before: u8) -> bool
    ensures { result ≡ is_due third second before }
{
    (0xC0 <= before) | (0xE0 <= second) | (0xF0 <= third)
}

// Whether a byte may stand behind three bytes and is not below a least one.
// Rules out: the least byte itself refused (must-fail: least_refused).
fn fits_behind(third: u8, second: u8, before: u8, byte: u8, least: u8) -> bool
    ensures { result ≡ fits least third second before byte }
{
    let later = (second_low(before) <= byte) & (byte <= second_high(before));
    let first = (byte < 0x80) | ((0xC2 <= byte) & (byte <= 0xF4));
    let due = is_due(third, second, before);
    (least <= byte) & ((due & later) | (!due & first))
}

// Whether the bytes at n places fit, from the fourth place of a text or a later one on. They are counted: a count is compiled to one vector test.
// Stays: bytes and least go down five inner functions as they came, and no struct says more; n counts places, and is no length of the slice.
// Rules out: the block at the start asked for any (must-fail: block_at_the_start).
fn fits_block(bytes: &[u8], at: usize, n: usize, least: u8) -> bool
    requires { (3 ≤ at) × (at + n ≤ length bytes.now) × (n ≤ 32) }
    ensures { result ≡ passes is_one n (drop at (fitted least 0 0 0 bytes.now)) }
{
    let mut count: u8 = 0;
    for j in 0..n {
        let i = at + j;
        count += u8::from(fits_behind(bytes[i - 3], bytes[i - 2], bytes[i - 1], bytes[i], least));
    }
    count as usize == n
}

// Whether all bytes fit, of which the first three do, by blocks of n; the last overlaps the one before it.
// Stays: n is a block's size, and no length of the slice.
// Rules out: the least byte forgotten in some blocks (must-fail: least_lost, last_block_asked_less).
fn fits_by(bytes: &[u8], n: usize, least: u8) -> bool
    requires { (0 < n) × (3 + n ≤ length bytes.now) × (n ≤ 32) × (passes is_one 3 (fitted least 0 0 0 bytes.now) ≡ true) }
    ensures { result ≡ passes is_one (length bytes.now) (fitted least 0 0 0 bytes.now) }
{
    let last = bytes.len() - n;
    for i in (3..last).step_by(n) {
        if !fits_block(bytes, i, n, least) {
            return false;
        }
    }
    fits_block(bytes, last, n, least)
}

// Whether the first n bytes fit, one after the other.
// Rules out: a byte asked behind others than the three before it (must-fail: bytes_before_exchanged).
fn front_fits(bytes: &[u8], n: usize, least: u8) -> bool
    requires { n ≤ length bytes.now }
    ensures { result ≡ passes is_one n (fitted least 0 0 0 bytes.now) }
{
    let mut third: u8 = 0;
    let mut second: u8 = 0;
    let mut before: u8 = 0;
    for i in 0..n {
        if !fits_behind(third, second, before, bytes[i], least) {
            return false;
        }
        third = second;
        second = before;
        before = bytes[i];
    }
    true
}

// The byte k places before the end, or 0.
// Stays: 0 is no missing answer: it is the byte that `padded` has before a text.
fn back(bytes: &[u8], k: usize) -> u8
    requires { (0 < k) × (k ≤ 3) }
    ensures { result ≡ padded bytes.now ! (length bytes.now + 3 - k) }
{
    if bytes.len() < k {
        return 0;
    }
    bytes[bytes.len() - k]
}

// Whether every byte fits: of a long text the first three one after the other, and the others by blocks of sixteen.
// Rules out: the least byte forgotten in short texts (must-fail: least_lost_in_short_texts).
fn all_fit(bytes: &[u8], least: u8) -> bool
    ensures { result ≡ passes is_one (length bytes.now) (fitted least 0 0 0 bytes.now) }
{
    if bytes.len() < 19 {
        return front_fits(bytes, bytes.len(), least);
    }
    front_fits(bytes, 3, least) && fits_by(bytes, 16, least)
}

// Whether a slice is UTF-8 and holds no byte below a least one: every byte fits, and none is due at the end.
// Rules out: an unfinished character at the end accepted (must-fail: too_much_accepted).
pub(crate) fn is_text(bytes: &[u8], least: u8) -> bool
    ensures { result ≡ (utf8 bytes.now && passes (nat_le least) (length bytes.now) bytes.now) }
{
    if is_due(back(bytes, 3), back(bytes, 2), back(bytes, 1)) {
        return false;
    }
    all_fit(bytes, least)
}
