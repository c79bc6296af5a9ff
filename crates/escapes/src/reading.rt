// A body, read by units into a buffer: measured first, and written if it is to be written and there is room.
ghost use Rattle.std.specs.Prelude.{length};
ghost use Rattle.meaning.specs.Reading.{answer};
ghost use Rattle.meaning.specs.Reads.{Reads};
ghost use Rattle.escapes.specs.Families.{course_by, course_of};

use crate::escape::Escape;
use crate::families::EscapeFamily;
use crate::passing::pass_units;
use crate::standard::Standard;
use crate::unicode::Unicode;
use crate::units::Family;
use meaning::{ReadRefusal, ReadText};

// Reads a body by a family's rules.
// Rules out: a plain body cut short; the place of a refusal lost; a value written by the rules of E (must-fail: body_written_for_value, plain_cut_short,
// refused_at_the_start).
fn read_by<F: EscapeFamily>(
    body: &[u8],
    family: &F,
    out: &mut [u8],
) -> Result<ReadText, ReadRefusal>
    ensures { Reads (answer 0 (length body.now) (course_by (F.step family.now) (F.is_checked family.now) body.now)) out.old result out.new }
{
    let mut none = [0u8; 0];
    match pass_units(body, family, &mut none) {
        Ok(None) => Ok(ReadText::Borrowed {
            from: 0,
            until: body.len(),
        }),
        Ok(Some(len)) => {
            if out.len() < len {
                return Err(ReadRefusal::NoRoom { needed: len });
            }
            let _ = pass_units(body, family, out);
            Ok(ReadText::Written { len })
        }
        Err(place) => Err(ReadRefusal::At { place }),
    }
}

// Reads a body: all of it where each byte stands for itself, so many bytes at the buffer's start, the place of the unit at which reading stops, or the length
// for which there is no room.
// Stays: a public function, which takes a body and an escape character; inside, `Unicode` holds that, and its two helpers take it once each.
// It is compiled into its callers, since its own frame would stand between theirs and the pass: some 100 bytes of stack more.
// Rules out: the setting on the backslash lost; the body taken for the escape character (must-fail: body_for_character, setting_lost).
#[inline(always)]
pub fn read_units(
    body: &[u8],
    family: Family,
    escape: &[u8],
    out: &mut [u8],
) -> Result<ReadText, ReadRefusal>
    ensures { Reads (answer 0 (length body.now) (course_of family escape.now body.now)) out.old result out.new }
{
    // Stays: the spelling chooses a family while the program runs; it is asked for once, here, and what follows is generic over it.
    match family {
        Family::Standard { mark, backslash } => {
            read_by(body, &Standard { mark, backslash }, out)
        }
        Family::Escape => read_by(body, &Escape, out),
        Family::Unicode { mark } => {
            let unicode = Unicode {
                mark,
                character: escape,
            };
            read_by(body, &unicode, out)
        }
    }
}
