// The family of E's bodies.
ghost use Rattle.std.specs.Prelude.{true, [], refl};
ghost use Rattle.meaning.specs.Steps.{escape_step};
ghost use Rattle.escapes.specs.Steadies.{steady_escape};

use crate::families::EscapeFamily;
use crate::pieces::Piece;
use crate::units::{escaped_unit, mark_unit};
use cutting::marks::Mark;
use utf8::check::utf8_from;
use utf8::tail::Utf8Tail;

// E has one mark, and its backslash is no escape character that a text could choose.
#[derive(Clone, Copy)]
pub struct Escape;

impl EscapeFamily for Escape {
    ghost step = { λ _. escape_step };

    // E has no escape character that could be chosen. No unit is empty, so that what `unit` tells by no bytes holds whatever the bytes are.
    ghost escape = { λ _. [] };

    ghost is_checked = { λ _. true };

    // Rules out: two backslashes told as an escape character that a caller chose; the backslash taken for the letter behind it; another mark (must-fail:
    // backslash_by_the_escape_character, letter_at_the_backslash, other_mark_doubled).
    fn unit(&self, body: &[u8], at: usize) -> Piece {
        if body[at] == 92 {
            return escaped_unit(body, at + 1);
        }
        mark_unit(body, at, Mark::Quote)
    }

    // Rules out: a backslash told, or a mark (must-fail: another_escape_told, mark_told).
    fn escape_bytes(&self) -> &[u8] {
        b""
    }

    // Rules out: the state before the bytes lost; the bytes passed over (must-fail: bytes_not_checked, state_not_carried).
    fn next_tail(&self, tail: Utf8Tail, bytes: &[u8]) -> Utf8Tail {
        utf8_from(tail, bytes)
    }

    ghost steady = { λ _. steady_escape };

    ghost ends = { λ _. refl };
}
