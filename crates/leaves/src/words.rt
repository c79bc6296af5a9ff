// A run of bytes told by one word of eight. A byte is looked for in all eight at once, so that a short run costs no branch for each of its bytes.
ghost use Rattle.std.specs.Prelude.{◌≡◌, ℕ, ◌+◌, ◌≤◌, List, length, take, drop};
ghost use Rattle.leaves.specs.Words.{other, neither, eight_run, Word, Flags};

// In each byte of a word bit 7 as a flag: set where `stop` stands first, clear below. Above, a borrow may set others, so only the lowest is told.
fn flags(word: u64, stop: u8) -> u64
    ensures { (t : List ℕ) → length t ≡ 8 → Word t word → Flags (other stop) t result }
{
    let differing = word ^ ((stop as u64) * 0x0101010101010101);
    differing.wrapping_sub(0x0101010101010101) & (differing ^ 0xFFFFFFFFFFFFFFFF)
}

// How many bytes at a place stand before the first that is one of two, eight at the most; 0 where eight are not there.
// Stays: no Option: a public function that could not fail still can't, and its definition `eight_run` says 0 there.
// Rules out: the second byte not looked for; the word at the text's start asked (must-fail: second_byte_not_looked_for, word_at_the_start).
pub fn eight_run(text: &[u8], at: usize, first: u8, second: u8) -> usize
    ensures { result ≡ eight_run (neither first second) text.now at }
{
    if text.len() < at {
        return 0;
    }
    let Some(block) = text[at..].first_chunk::<8>() else {
        return 0;
    };
    let word = u64::from_le_bytes(*block);
    let both = (flags(word, first) | flags(word, second)) & 0x8080808080808080;
    both.trailing_zeros() as usize / 8
}
