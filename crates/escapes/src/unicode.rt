// The family of U&'s bodies.
ghost use Rattle.std.specs.Prelude.{false, refl};
ghost use Rattle.meaning.specs.Steps.{unicode_step};
ghost use Rattle.cutting.specs.Marks.{mark_of};
ghost use Rattle.escapes.specs.Steadies.{steady_unicode};

use crate::families::EscapeFamily;
use crate::pieces::Piece;
use crate::units::{mark_unit, uescaped_unit};
use cutting::marks::{Mark, mark_byte};
use leaves::texts::starts_at;
use utf8::tail::Utf8Tail;

// The mark that ends a body, and the escape character's bytes.
#[derive(Clone, Copy)]
pub struct Unicode<'a> {
    pub mark: Mark,
    pub character: &'a [u8],
}

impl<'a> EscapeFamily for Unicode<'a> {
    ghost step = { λ s. unicode_step s.character.now (mark_of s.mark) };

    ghost escape = { λ s. s.character.now };

    ghost is_checked = { λ _. false };

    // The mark is looked for before the escape character.
    // Rules out: the body taken for the escape character; the mark taken for the escape character (must-fail: body_for_escape, mark_escapes).
    fn unit(&self, body: &[u8], at: usize) -> Piece {
        let escape = self.character;
        if (body[at] != mark_byte(self.mark)) & starts_at(body, at, escape) {
            return uescaped_unit(body, at + escape.len(), escape);
        }
        mark_unit(body, at, self.mark)
    }

    // Rules out: the backslash told for each, or a mark (must-fail: another_escape_told, mark_told).
    fn escape_bytes(&self) -> &[u8] {
        self.character
    }

    // Rules out: a state lost, or one broken (must-fail: state_begun_anew, state_broken).
    fn next_tail(&self, tail: Utf8Tail, _bytes: &[u8]) -> Utf8Tail {
        tail
    }

    ghost steady = { λ s. steady_unicode s.character.now s.mark };

    ghost ends = { λ _. refl };
}
