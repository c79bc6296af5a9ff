// [01 Numbers] "Decimal text base ten is the text less `_`, unchecked and borrowed if it has none"; with a radix, the number printed.
ghost use Rattle.std.specs.Prelude.{◌≡◌};
ghost use Rattle.meaning.specs.Reads.{Reads};
ghost use Rattle.meaning.specs.Numbers.{within_bits, negated_by, printed_by, decimal_of};
ghost use Rattle.numbers.specs.Values.{parsed_apart, radix_by};
ghost use Rattle.decimals.specs.Separating.{plain_of};

use crate::halves::read_radix_halves;
use crate::printing::print_halves;
use crate::separators::{copy_without, count_separators};
use meaning::{ReadRefusal, ReadText};
use numbers::prefix::{split_radix_prefix, split_sign};

// Decimal text in base ten: the text less `_`, borrowed if it has none. Refused at place 0: a misplaced `_`. Refused, borrowed and without room the
// buffer is as it was lent.
// Rules out: a text with _ borrowed; a made-up length (must-fail: separated_text_borrowed, length_made_up).
fn read_plain(text: &[u8], out: &mut [u8]) -> Result<ReadText, ReadRefusal>
    ensures { Reads (plain_of text.now) out.old result out.new }
{
    let Some(n) = count_separators(text) else {
        return Err(ReadRefusal::At { place: 0 });
    };
    if n == 0 {
        return Ok(ReadText::Borrowed {
            from: 0,
            until: text.len(),
        });
    }
    let needed = text.len() - n;
    if out.len() < needed {
        return Err(ReadRefusal::NoRoom { needed });
    }
    copy_without(text, out);
    Ok(ReadText::Written { len: needed })
}

// The number of the body behind a radix prefix, with the sign before the prefix put to it, printed. Refused and without room the buffer is as it was lent.
fn read_radix_text(
    minus: bool,
    body: &[u8],
    base: u32,
    out: &mut [u8],
) -> Result<ReadText, ReadRefusal>
    requires { radix_by base ≡ base }
    ensures { Reads (printed_by (within_bits 127 (negated_by minus (parsed_apart 127 base body.now)))) out.old result out.new }
{
    match read_radix_halves(minus, body, base) {
        Some(halves) => print_halves(halves, out),
        None => Err(ReadRefusal::At { place: 0 }),
    }
}

// The decimal text that a text stands for: in base ten the text less `_`; with a radix the number, printed in at most 40 bytes. Refused at place 0: a
// misplaced `_`, and with a radix what is no number of 128 bits. Refused, borrowed and without room the buffer is as it was lent.
// Rules out: the first sign not put to a radix value; the second sign passed over; a separator beside the point; a made-up length; -2^127 behind a minus
// accepted (must-fail: first_sign_ignored, second_base_passed_over).
pub fn read_decimal(text: &[u8], out: &mut [u8]) -> Result<ReadText, ReadRefusal>
    ensures { Reads (decimal_of text.now) out.old result out.new }
{
    let sign = split_sign(text);
    let start = sign.len;
    let rest = &text[start..];
    let prefix = split_radix_prefix(rest);
    let base = prefix.base;
    if base == 10 {
        return read_plain(text, out);
    }
    read_radix_text(sign.minus, &rest[2..], base, out)
}
