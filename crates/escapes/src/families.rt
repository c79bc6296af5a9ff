// [01 One segment] An escape family: how a unit of a body is read, what its escape character is, and whether UTF-8 counts. Each family is a type, so that one
// pass serves them all and no turn of it asks which family it is. The pass asks `units::unit_at`, which answers at every place.
ghost use Rattle.std.specs.Prelude.{◌≡◌, ◌<◌, Bool, List, [], ℕ, drop, length};
ghost use Rattle.meaning.specs.Walk.{Step, stop};
ghost use Rattle.laws.proofs.walking.StepBounds.{Steady};
ghost use Rattle.utf8.specs.Tails.{due_of};
ghost use Rattle.escapes.specs.Pieces.{IsBy};
ghost use Rattle.escapes.specs.Families.{due_by};

use crate::pieces::Piece;
use utf8::tail::Utf8Tail;

pub trait EscapeFamily {
    // what stands at a text's front
    ghost step: { Self → List ℕ → Step };

    // the escape character's bytes
    ghost escape: { Self → List ℕ };

    // whether the expansion must be UTF-8
    ghost is_checked: { Self → Bool };

    // The unit at a place inside a body.
    fn unit(&self, body: &[u8], at: usize) -> Piece
        requires { at < length body.now }
        ensures { IsBy (escape self.now) result (step self.now (drop at body.now)) };

    // The escape character's bytes; none where no unit stands for it.
    fn escape_bytes(&self) -> &[u8]
        ensures { result.now ≡ escape self.now };

    // The UTF-8 state behind some bytes, where it counts.
    fn next_tail(&self, tail: Utf8Tail, bytes: &[u8]) -> Utf8Tail
        ensures { due_of result ≡ due_by (is_checked self.now) (due_of tail) bytes.now };

    // a unit takes no more than is there, and stands for no more than it takes
    ghost steady: { (family : Self) → Steady (step family) };

    // behind a body's end nothing stands
    ghost ends: { (family : Self) → step family [] ≡ stop };
}
