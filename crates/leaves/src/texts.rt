// What a whole text is asked: another text at a place of it, a mark at both its ends, a raw NUL.
ghost use Rattle.std.specs.Prelude.{◌≡◌, drop};
ghost use Rattle.meaning.specs.Bytes.{starts};
ghost use Rattle.meaning.specs.Helpers.{embeds_nul};
ghost use Rattle.meaning.specs.Spelling.{encloses};

use crate::blocks::{Stops, is_free};
use crate::bytes::byte_at;

// How many bytes are compared one by one before the others are by blocks: where texts differ mostly the first bytes tell, and a block costs more than these.
const FRONT: usize = 16;

// Whether a text begins with another, asked by blocks: a call of its own, since few searches come to it.
// Rules out: the second half not asked (must-fail: rest_not_looked_at).
#[inline(never)]
fn begins_by_blocks(text: &[u8], prefix: &[u8]) -> bool
    ensures { result ≡ starts prefix.now text.now }
{
    text.starts_with(prefix)
}

// Whether a text stands at a place, which may lie past the end. Where a text is sought, it is asked for at each byte, and mostly the first tells: that is
// tested before anything else, and all but the blocks at the call's own place. By `starts_with` alone a search takes two to three times as long.
// Rules out: one byte asked for all; the first byte of the text asked for all; a text refused by another byte than its first; the last byte not asked; a byte
// behind the front passed over; a text at the very end missed; a text sought at the start (must-fail: other_bytes, start_asked_again, another_byte_taken,
// one_left_out, bytes_passed_over, off_by_one, other_place).
#[inline(always)]
pub fn starts_at(body: &[u8], at: usize, prefix: &[u8]) -> bool
    ensures { result ≡ starts prefix.now (drop at body.now) }
{
    if body.len() < at {
        return prefix.len() == 0;
    }
    let text = &body[at..];
    if byte_at(text, 0) != byte_at(prefix, 0) {
        return prefix.len() == 0;
    }
    let front = prefix.len().min(FRONT);
    // Stays: by `starts_with` alone a search through a body of other dollar tags takes 1.4 times as long and more.
    for place in 1..front {
        if byte_at(text, place) != prefix[place] {
            return false;
        }
    }
    if text.len() < prefix.len() {
        return false;
    }
    (prefix.len() <= FRONT) || begins_by_blocks(&text[front..], &prefix[front..])
}

// Whether a mark stands at a place and, as another byte, at the text's end.
// Rules out: a mark before the last byte taken; one mark taken for both (must-fail: other_place, too_much_taken).
pub fn is_enclosed(text: &[u8], at: usize, mark: u8) -> bool
    ensures { result ≡ encloses at mark text.now }
{
    if text.len() <= at {
        return false;
    }
    if text.len() - at < 2 {
        return false;
    }
    (text[at] == mark) & (text[text.len() - 1] == mark)
}

// [`string_literal_embeds_nul`] Whether a text holds a raw NUL.
// Rules out: another byte looked for; the answers exchanged (must-fail: other_bytes, turned_round).
pub fn string_literal_embeds_nul(text: &[u8]) -> bool
    ensures { result ≡ embeds_nul text.now }
{
    !is_free(
        text,
        Stops {
            first: 0,
            second: 0,
            third: 0,
        },
    )
}
