// Replays the rows of standard input, which tools/replay.py makes of vectors/: asks each row's question in up to four ways, and holds the answer, the bytes
// it shows and every other byte of the buffer to what the row says is due. Prints for each stratum how many rows and askings it has and how many askings
// differ, and before that the first that does.
#![tactic(auto)]

mod asked;
mod askings;
mod calls;
mod rows;
mod said;
mod seen;
mod told;

ghost use Rattle.std.specs.Prelude.{◌≡◌, ◌<◌, ◌++◌, length, IfNone, IfSome};

use askings::Tally;
use rows::{Row, row_len};

const STDIN_FILENO: i32 = 0;

// The first row of a block, by its head, and what stands behind it; a row that is cut short, or has no length, is the last.
// Rules out: a block's last row left out (must-fail: last_row_left_out).
fn split_row(block: &[u8]) -> Option<(&[u8], &[u8])>
    ensures shorter { IfSome result (λ parts. length parts.1.now < length block.now) }
    ensures whole { IfSome result (λ parts. block.now ≡ parts.0.now ++ parts.1.now) }
    ensures none_left { IfNone result (length block.now ≡ 0) }
{
    if block.is_empty() {
        return None;
    }
    match row_len(block) {
        len if 0 < len && len < block.len() => Some(block.split_at(len)),
        _ => Some((block, &[])),
    }
}

// A block holds whole rows.
fn after_block(block: &[u8], tally: &mut Tally) {
    let mut rest = block;
    while let Some((row, behind)) = split_row(rest) {
        tally.take(Row::new(row));
        rest = behind;
    }
}

fn main() {
    let mut tally = Tally::default();
    for _ in 0..u64::MAX {
        let mut block = io::large_buffer();
        let n = io::read_full(STDIN_FILENO, &mut block);
        after_block(&block[..n], &mut tally);
        if n < block.len() {
            return;
        }
    }
}
