// A run of bytes that stand for themselves, copied while it is looked for: sixteen bytes are copied whether or not all of them belong to it, and what is too
// much is written over by what comes next.
ghost use Rattle.std.specs.Prelude.{◌≡◌, ◌++◌, ◌≤◌, ◌<◌, length, take, drop};
ghost use Rattle.strings.specs.Quick.{Copies};

use leaves::words::eight_run;

// Copies the first N bytes of a text to a buffer's start. They go through an array, so that they are loaded and stored as one: for all that is known of two slices,
// they might overlap, and which of them comes first would be asked each time.
pub(crate) fn copy_front<const N: usize>(text: &[u8], out: &mut [u8])
    requires { (N ≤ length text.now) × (N ≤ length out.old) }
    ensures { out.new ≡ take N text.now ++ drop N out.old }
{
    let mut block = [0u8; N];
    block.copy_from_slice(&text[..N]);
    out[..N].copy_from_slice(&block);
}

// The last bytes of a text, less than eight, one by one.
fn copy_last(text: &[u8], first: u8, second: u8, out: &mut [u8]) -> usize
    requires { (length text.now < 8) × (16 ≤ length out.old) }
    ensures { Copies first second text.now out.old result out.new }
{
    for (place, byte) in text.iter().enumerate() {
        if (*byte == first) | (*byte == second) {
            return place;
        }
        out[place] = *byte;
    }
    text.len()
}

// The last bytes of a text, from eight to fifteen, by two words that overlap: the first eight and the last eight. Most segments end with as many, and one by one
// each byte would cost a branch. Where the first eight belong to the run, so do the bytes that both words hold, and those before the last word.
// Rules out: the run in the last word counted from behind the first (must-fail: last_word_behind_the_first).
fn copy_short(text: &[u8], first: u8, second: u8, out: &mut [u8]) -> usize
    requires { (8 ≤ length text.now) × (length text.now < 16) × (16 ≤ length out.old) }
    ensures { Copies first second text.now out.old result out.new }
{
    let last = text.len() - 8;
    copy_front::<8>(text, out);
    copy_front::<8>(&text[last..], &mut out[last..]);
    let low = eight_run(text, 0, first, second);
    if low < 8 {
        return low;
    }
    last + eight_run(text, last, first, second)
}

// Copies the run at a text's front, up to sixteen bytes, and says how long it is.
pub(crate) fn copy_run(text: &[u8], first: u8, second: u8, out: &mut [u8]) -> usize
    requires { 16 ≤ length out.old }
    ensures { Copies first second text.now out.old result out.new }
{
    if text.len() < 8 {
        return copy_last(text, first, second, out);
    }
    if text.len() < 16 {
        return copy_short(text, first, second, out);
    }
    copy_front::<16>(text, out);
    let low = eight_run(text, 0, first, second);
    if low < 8 {
        return low;
    }
    8 + eight_run(text, 8, first, second)
}
