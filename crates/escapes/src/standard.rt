// The family of bodies with MySQL's escapes or without them.
ghost use Rattle.std.specs.Prelude.{false, [], refl};
ghost use Rattle.meaning.specs.Steps.{standard_step};
ghost use Rattle.cutting.specs.Marks.{mark_of};
ghost use Rattle.escapes.specs.Steadies.{steady_standard};

use crate::families::EscapeFamily;
use crate::pieces::Piece;
use crate::units::{mark_unit, mysql_unit};
use cutting::marks::Mark;
use utf8::tail::Utf8Tail;

// The mark that ends a body, and whether a backslash escapes.
#[derive(Clone, Copy)]
pub struct Standard {
    pub mark: Mark,
    pub backslash: bool,
}

impl EscapeFamily for Standard {
    ghost step = { λ s. standard_step s.backslash (mark_of s.mark) };

    ghost escape = { λ _. [] };

    ghost is_checked = { λ _. false };

    // Rules out: a body read by the rules of E; the backslash taken for the letter behind it (must-fail: every_body_as_e, letter_at_the_backslash).
    fn unit(&self, body: &[u8], at: usize) -> Piece {
        if self.backslash & (body[at] == 92) {
            return mysql_unit(body, at + 1);
        }
        mark_unit(body, at, self.mark)
    }

    // Rules out: a backslash told, or the mark (must-fail: another_escape_told, mark_told).
    fn escape_bytes(&self) -> &[u8] {
        b""
    }

    // Rules out: a state lost, or one broken (must-fail: state_begun_anew, state_broken).
    fn next_tail(&self, tail: Utf8Tail, _bytes: &[u8]) -> Utf8Tail {
        tail
    }

    ghost steady = { λ s. steady_standard s.backslash s.mark };

    ghost ends = { λ _. refl };
}
