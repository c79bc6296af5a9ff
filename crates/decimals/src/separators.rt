// [01 Numbers] "`_` only between two digits of the base": decimal text, of which nothing else is checked.
ghost use Rattle.std.specs.Prelude.{◌≡◌, ◌<◌, ◌≤◌, ◌++◌, length, drop};
ghost use Rattle.meaning.specs.Numbers.{strip};
ghost use Rattle.decimals.specs.Separating.{is_between, separators_of};

use leaves::digits::is_radix_digit;

// Whether the bytes on both sides of a place are decimal digits.
// Rules out: a separator before the point accepted; a separator behind the point accepted (must-fail: limit_or_place_mistaken, separator_behind_the_point).
fn is_between(text: &[u8], at: usize) -> bool
    requires { at < length text.now }
    ensures { result ≡ is_between text.now at }
{
    if at == 0 {
        return false;
    }
    let next = at + 1;
    if text.len() <= next {
        return false;
    }
    is_radix_digit(text[at - 1], 10) & is_radix_digit(text[next], 10)
}

// The number of `_` in a decimal text, if each stands between two digits: one scan, which looks around a `_` alone.
pub(crate) fn count_separators(text: &[u8]) -> Option<usize>
    ensures { result ≡ separators_of text.now }
{
    let mut n = 0;
    for (place, byte) in text.iter().enumerate() {
        if *byte == 95 {
            if !is_between(text, place) {
                return None;
            }
            n += 1;
        }
    }
    Some(n)
}

// Copies a text less `_` to the start of the buffer.
// Rules out: another byte left out.
pub(crate) fn copy_without(text: &[u8], out: &mut [u8])
    requires { length (strip text.now) ≤ length out.old }
    ensures { out.new ≡ strip text.now ++ drop (length (strip text.now)) out.old }
{
    let mut end = 0;
    for byte in text {
        if *byte != 95 {
            out[end] = *byte;
            end += 1;
        }
    }
}
