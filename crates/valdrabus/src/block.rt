// Many string literals in one call.
ghost use Rattle.meaning.specs.Blocks.{block_call, Blocks};

use blocks::block::read_block;

// Reads a block of string literals: four numbers an item in, four an item out. It tells the items' refusals, and 15 of its own: then neither slice is changed.
// Rules out: no item read; an empty source read (must-fail: one_for_another, empty_text_asked).
#[unsafe(no_mangle)]
pub extern "C" fn valdrabus_read_block(
    items: &[u32],
    source: &[u8],
    answers: &mut [u32],
    out: &mut [u8],
) -> u32
    ensures { Blocks (block_call items.now source.now answers.old out.old) result
        answers.new out.new }
{
    read_block(items, source, answers, out)
}
