// The text of a value that is spelled whole: the opening, the value's characters, the mark. Runs that stand for themselves are copied as runs.
ghost use Rattle.std.specs.Prelude.{true, ◌≡◌, ◌≤◌, length};
ghost use Rattle.meaning.specs.Chars.{utf8};
ghost use Rattle.writer.specs.Manners.{units_by, text_by};
ghost use Rattle.writer.specs.Texts.{PutBytes, Fits};

use crate::manners::Spelling;
use crate::scans::kept_run;
use crate::units::put_unit;
use leaves::puts::put_bytes;

// Writes the characters of a value by runs and units, and says how many bytes that is.
fn write_units<S: Spelling>(value: &[u8], spelling: &S, out: &mut [u8]) -> usize
    requires { (utf8 value.now ≡ true) × (length (units_by (S.manner spelling.now) value.now) ≤ length out.old) }
    ensures { PutBytes (units_by (S.manner spelling.now) value.now) out.old result out.new }
{
    let mut n: usize = 0;
    let mut at: usize = 0;
    // Stays: a step is a run or a character, whichever stands there; an iterator would hold the same place.
    while at < value.len() {
        let run = kept_run(value, at, spelling);
        if 0 < run {
            let end = at + run;
            n += put_bytes(&value[at..end], &mut out[n..]);
            at = end;
        } else {
            n += put_unit(value, at, spelling, &mut out[n..]);
            at += spelling.unit_width(value[at]);
        }
    }
    n
}

// Writes the characters of a value; one of which each byte stands for itself is copied whole.
fn put_value<S: Spelling>(value: &[u8], spelling: &S, whole: bool, out: &mut [u8]) -> usize
    requires { Fits (S.manner spelling.now) whole value.now (units_by (S.manner spelling.now) value.now) (length out.old) }
    ensures { PutBytes (units_by (S.manner spelling.now) value.now) out.old result out.new }
{
    if whole {
        return put_bytes(value, out);
    }
    write_units(value, spelling, out)
}

// Writes the text, for which there is room, and says how long it is.
// Stays: each part of a value is another value: a struct of value, spelling and `whole` would be built anew for each, in `write_parts`.
pub(crate) fn write_text<S: Spelling>(
    value: &[u8],
    spelling: &S,
    whole: bool,
    out: &mut [u8],
) -> usize
    requires { Fits (S.manner spelling.now) whole value.now (text_by (S.manner spelling.now) value.now) (length out.old) }
    ensures { PutBytes (text_by (S.manner spelling.now) value.now) out.old result out.new }
{
    let from = put_bytes(spelling.opening(), out);
    let until = from + put_value(value, spelling, whole, &mut out[from..]);
    out[until] = 39;
    until + 1
}
