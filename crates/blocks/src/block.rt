// The block call: every item in turn, each in the room that those before it have left.
ghost use Rattle.std.specs.Prelude.{◌≡◌};
ghost use Rattle.meaning.specs.Blocks.{block_call, Blocks};
ghost use Rattle.blocks.specs.Items.{bad_lengths};

use crate::items::{item_at, lay, read_item};

// Whether the lent slices are none of a block, by their lengths.
// Rules out: the buffer's limit off by one; a short last item; answers as long as the items refused; the first four of fewer filled (must-fail:
// room_taken_by_a_refusal, short_last_item, answers_longer_refused, first_four_filled).
fn is_bad_block(items: usize, answers: usize, out: usize) -> bool
    ensures { result ≡ bad_lengths items answers out }
{
    (items % 4 != 0) | (answers < items) | (0xFFFF_FFFF < out)
}

// Reads the items, and tells four numbers of each; or 15, and nothing is changed.
// Rules out: 15 told as 0; an item past the last; items or answers counted by the bytes that are taken, texts by the numbers that were read (must-fail:
// fifteen_told_as_nought, answers_past_the_items, item_sought_by_the_bytes, answers_laid_by_the_bytes, texts_put_by_the_numbers).
pub fn read_block(items: &[u32], source: &[u8], answers: &mut [u32], out: &mut [u8]) -> u32
    ensures { Blocks (block_call items.now source.now answers.old out.old) result
        answers.new out.new }
{
    if is_bad_block(items.len(), answers.len(), out.len()) {
        return 15;
    }
    let mut used: usize = 0;
    for place in 0..items.len() / 4 {
        let at = 4 * place;
        let told = read_item(item_at(&items[at..]), source, used, &mut out[used..]);
        lay(told.four, &mut answers[at..]);
        used += told.took;
    }
    0
}
