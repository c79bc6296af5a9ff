// Scans for bytes that do not stand for themselves.
ghost use Rattle.std.specs.Prelude.{◌≡◌, ◌<◌, length, drop};
ghost use Rattle.meaning.specs.Bytes.{span};
ghost use Rattle.leaves.specs.Blocks.{passes};
ghost use Rattle.writer.specs.Manners.{kept_by, keeps};

use crate::manners::{Spelling, is_kept};
use leaves::blocks::{ByteTest, is_all, run};

// A byte passes that stands for itself. A test for each way to spell: one for all would be called, and its bounds looked up, at each character.
#[derive(Drop)]
struct KeptBy<'a, S> {
    spelling: &'a S,
}

impl<'a, S: Spelling> ByteTest for KeptBy<'a, S> {
    ghost takes = { λ test. keeps (kept_by (S.manner test.spelling.now)) };

    fn takes(&self, byte: u8) -> bool {
        is_kept(byte, self.spelling.kept())
    }
}

// Whether each byte stands for itself.
// Rules out: bytes behind the first block not looked at.
pub(crate) fn is_all_kept<S: Spelling>(value: &[u8], spelling: &S) -> bool
    ensures { result ≡ passes (keeps (kept_by (S.manner spelling.now))) (length value.now) value.now }
{
    is_all(value, &KeptBy { spelling })
}

// How many bytes at a place stand for themselves.
// Rules out: a run one byte too long.
pub(crate) fn kept_run<S: Spelling>(value: &[u8], at: usize, spelling: &S) -> usize
    requires { at < length value.now }
    ensures { result ≡ span (keeps (kept_by (S.manner spelling.now))) (drop at value.now) }
{
    run(value, at, &KeptBy { spelling })
}
