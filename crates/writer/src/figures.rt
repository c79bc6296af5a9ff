// Numbers by so many digits of a base, in upper case.
ghost use Rattle.std.specs.Prelude.{◌≡◌, ◌≤◌, ◌<◌, length};
ghost use Rattle.meaning.specs.Forms as forms;

// The byte of a digit below 16.
// Stays: `char::from_digit` gives lower case, and a char in an Option.
// Rules out: lower-case letters.
pub(crate) fn figure(digit: u32) -> u8
    requires { digit < 16 }
    ensures { result ≡ forms.figure digit }
{
    if digit < 10 {
        return 48 + (digit as u8);
    }
    55 + (digit as u8)
}

// Fills a buffer with a number's digits, the last one at its end: as many as the buffer has bytes, zeros in front.
// Rules out: the low digit first; a zero in front left out.
pub(crate) fn put_figures(number: u32, base: u32, out: &mut [u8])
    requires { (1 ≤ base) × (base ≤ 16) }
    ensures { out.new ≡ forms.figures base (length out.old) number }
{
    let mut rest = number;
    for place in (0..out.len()).rev() {
        out[place] = figure(rest % base);
        rest /= base;
    }
}
