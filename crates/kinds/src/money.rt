// [01 Numbers and the other kinds, Money] The text behind a $.
ghost use Rattle.std.specs.Prelude.{◌≡◌};
ghost use Rattle.meaning.specs.Kinds.{money};
ghost use Rattle.meaning.specs.Reads.{read_of};

use leaves::bytes::byte_at;
use meaning::{ReadRefusal, ReadText};

// Reads a money text: the part behind its $, unchecked; refused where no $ begins it.
// Rules out: the $ handed back with the amount; another sign taken for $ (must-fail: byte_before_taken_in, one_for_another).
pub fn read_money(text: &[u8]) -> Result<ReadText, ReadRefusal>
    ensures { result ≡ read_of 0 (money text.now) }
{
    if byte_at(text, 0) == 36 {
        return Ok(ReadText::Borrowed {
            from: 1,
            until: text.len(),
        });
    }
    Err(ReadRefusal::At { place: 0 })
}
