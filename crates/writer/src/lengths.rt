// How long a value's text is. A value that stands for itself is not measured any further.
ghost use Rattle.std.specs.Prelude.{◌≡◌, ◌≤◌, length};
ghost use Rattle.writer.specs.Manners.{costs_by};
ghost use Rattle.writer.specs.Texts.{Spellable, measured_by};

use crate::manners::Spelling;
use crate::scans::is_all_kept;

// The length of a text, and whether each byte of the value stands for itself.
// Stays: the length is told either way, and `whole` says how the value is written: an enum would hold the length twice.
#[derive(Clone, Copy)]
pub(crate) struct Measured {
    pub len: usize,
    pub whole: bool,
}

// What sixteen bytes or fewer cost: eight each at the most, so a byte holds the sum.
fn block_cost<S: Spelling>(block: &[u8], spelling: &S) -> usize
    requires { length block.now ≤ 16 }
    ensures { result ≡ costs_by (S.manner spelling.now) block.now }
{
    let mut sum: u8 = 0;
    for byte in block {
        sum += spelling.byte_cost(*byte);
    }
    usize::from(sum)
}

// What a value's bytes cost, by blocks of sixteen.
// Rules out: the bytes behind the last whole block passed over.
fn units_len<S: Spelling>(value: &[u8], spelling: &S) -> usize
    requires { length value.now ≤ 268435456 }
    ensures { result ≡ costs_by (S.manner spelling.now) value.now }
{
    let (blocks, rest) = value.as_chunks::<16>();
    let mut len: usize = 0;
    for block in blocks {
        len += block_cost(block, spelling);
    }
    len + block_cost(rest, spelling)
}

// How long the text of a value is that is spelled whole.
// Rules out: a length that counts the value and not its text.
pub(crate) fn measure<S: Spelling>(value: &[u8], spelling: &S) -> Measured
    requires { Spellable (S.manner spelling.now) value.now }
    ensures { result ≡ measured_by (S.manner spelling.now) value.now }
{
    let marks = spelling.opening().len() + 1;
    if is_all_kept(value, spelling) {
        return Measured {
            len: marks + value.len(),
            whole: true,
        };
    }
    Measured {
        len: marks + units_len(value, spelling),
        whole: false,
    }
}
