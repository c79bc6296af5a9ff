// The pass over a body, by units: it counts what they stand for and writes it as far as there is room. E's expansion is checked to be UTF-8 on the way, so
// that the first of all refusals is found.
ghost use Rattle.std.specs.Prelude.{◌≡◌};
ghost use Rattle.escapes.specs.Families.{course_by};
ghost use Rattle.escapes.specs.Passing.{Near, Moves, Ready, Turns, Passes};

use crate::families::EscapeFamily;
use crate::pieces::Piece;
use crate::units::unit_at;
use leaves::puts::{least, put_bytes};
use scalars::encoding::encode_utf8;
use utf8::tail::{Utf8Tail, is_whole};

// Where a pass stands: the units up to a place stand for n bytes; whether each byte stood for itself; and what UTF-8 makes due, where it counts.
#[derive(Clone, Copy)]
pub(crate) struct Pass {
    pub at: usize,
    pub n: usize,
    pub plain: bool,
    pub tail: Utf8Tail,
}

// Goes past a unit that stands for some bytes, `more` of the body behind its first; `own` says whether it is a byte that stands for itself. The bytes are
// counted, and written if there is room for them behind what is written so far. Bytes that break UTF-8 refuse.
// Stays: one family goes over a body with two buffers, none and the caller's: a struct of family and buffer would be built for each pass.
// Rules out: a body with an escape called plain; bytes written over those before them (must-fail: escaped_is_plain, bytes_at_the_start).
fn go_past<F: EscapeFamily>(
    family: &F,
    pass: Pass,
    own: bool,
    more: usize,
    bytes: &[u8],
    out: &mut [u8],
) -> Option<Pass>
    requires { Near pass more bytes.now }
    ensures { Moves (F.is_checked family.now) pass own more bytes.now out.old result out.new }
{
    let tail = pass.tail;
    let next = family.next_tail(tail, bytes);
    if let Utf8Tail::Broken = next {
        return None;
    }
    let from = least(pass.n, out.len());
    put_bytes(bytes, &mut out[from..]);
    Some(Pass {
        at: pass.at + 1 + more,
        n: pass.n + bytes.len(),
        plain: pass.plain & own,
        tail: next,
    })
}

// One unit, at a place inside the body: it refuses, or the pass goes past it.
// Rules out: a number that is no character taken; a unit of two bytes taken for one (must-fail: no_character_taken, two_bytes_taken_for_one).
fn take_unit<F: EscapeFamily>(body: &[u8], family: &F, pass: Pass, out: &mut [u8]) -> Option<Pass>
    requires { Ready (F.step family.now) (F.is_checked family.now) body.now pass }
    ensures { Turns (F.step family.now) (F.is_checked family.now) body.now out.old pass result out.new }
{
    let at = pass.at;
    // Stays: Refused is one of six cases of a unit, and no Err that `?` could pass on.
    match unit_at(body, at, family) {
        Piece::Keep => go_past(family, pass, true, 0, &body[at..at + 1], out),
        Piece::Byte(byte, more) => {
            let one = [byte];
            go_past(family, pass, false, more, &one, out)
        }
        Piece::Two(first, second, more) => {
            let two = [first, second];
            go_past(family, pass, false, more, &two, out)
        }
        Piece::Scalar(scalar, more) => {
            let mut four = [0u8; 4];
            let n = encode_utf8(scalar, &mut four);
            if (scalar == 0) | (n == 0) {
                return None;
            }
            go_past(family, pass, false, more, &four[..n], out)
        }
        Piece::Escape(more) => go_past(family, pass, false, more, family.escape_bytes(), out),
        Piece::Refused => None,
    }
}

// All units of a body: how long its value is, which stands at the buffer's start, where there is room for all of it; `None` where each byte stood for itself,
// so that the value is the body. A refusal leaves the place at which reading stops.
// Rules out: a place taken for a length (must-fail: place_for_length).
pub(crate) fn pass_units<F: EscapeFamily>(
    body: &[u8],
    family: &F,
    out: &mut [u8],
) -> Result<Option<usize>, usize>
    ensures { Passes (course_by (F.step family.now) (F.is_checked family.now) body.now) out.old result out.new }
{
    let mut pass = Pass {
        at: 0,
        n: 0,
        plain: true,
        tail: Utf8Tail::Start,
    };
    // Stays: no iterator counts these turns: how far each goes is what its unit takes.
    while pass.at < body.len() {
        let Some(next) = take_unit(body, family, pass, out) else {
            return Err(pass.at);
        };
        pass = next;
    }
    let tail = pass.tail;
    if !is_whole(tail) {
        return Err(pass.at);
    }
    if pass.plain {
        return Ok(None);
    }
    Ok(Some(pass.n))
}
