// Scans for bytes that pass a test, a block at a time. The loop over a block has no branch. Where all of a text is asked, the last block overlaps the one
// before it; where a run is, its last bytes are looked at one by one.
ghost use Rattle.std.specs.Prelude.{◌≡◌, ℕ, ◌<◌, ◌≤◌, Bool, true, length, drop};
ghost use Rattle.meaning.specs.Bytes.{span};
ghost use Rattle.std.specs.Prelude.{if◌then◌else◌};
ghost use Rattle.leaves.specs.Blocks.{free_of, passes};

// A test of a byte.
pub trait ByteTest {
    ghost takes: { Self → ℕ → Bool };

    fn takes(&self, byte: u8) -> bool
        ensures { result ≡ takes self.now byte };
}

// Three bytes that a text is searched for; they may be the same.
#[derive(Clone, Copy)]
pub struct Stops {
    pub first: u8,
    pub second: u8,
    pub third: u8,
}

// A byte passes that is none of the three.
// Rules out: a stop taken for free (must-fail: stop_taken).
impl ByteTest for Stops {
    ghost takes = { free_of };

    fn takes(&self, byte: u8) -> bool {
        (byte != self.first) & (byte != self.second) & (byte != self.third)
    }
}

// 1 for yes, 0 for no: what is counted.
// Stays: another name for `u8::from`; a public function keeps its name.
// Rules out: the answers exchanged; 0 for both (must-fail: one_for_another, none_for_both).
pub fn one_if(test: bool) -> u8
    ensures { result ≡ (if test then 1 else 0) }
{
    u8::from(test)
}

// Whether a block's bytes all pass. They are counted: a count is compiled to one vector test, a chain of tests is not.
// Stays: N < 256 is of a const parameter, which no type holds; it bounds a count in one byte (by `&=` in place of a count a block takes 8.7 times as long).
// Rules out: a block that skips its last byte (must-fail: block_without_its_last_byte).
#[inline(always)]
fn is_block<const N: usize, T: ByteTest>(block: &[u8; N], test: &T) -> bool
    requires { N < 256 }
    ensures { result ≡ passes (T.takes test.now) N block.now }
{
    let mut count: u8 = 0;
    for byte in block {
        count += u8::from(test.takes(*byte));
    }
    count as usize == N
}

// Whether each byte of a text of N bytes or more does, by blocks of N.
// Rules out: a byte between two blocks passed over; a last block that begins too late; one not looked at, or the first asked again in its place (must-fail:
// byte_between_blocks, rest_not_looked_at, start_asked_again).
fn is_all_by<const N: usize, T: ByteTest>(text: &[u8], test: &T) -> bool
    requires { (0 < N) × (N ≤ length text.now) × (N < 256) }
    ensures { result ≡ passes (T.takes test.now) (length text.now) text.now }
{
    let (blocks, _) = text[..text.len() - 1].as_chunks::<N>();
    for block in blocks {
        if !is_block(block, test) {
            return false;
        }
    }
    match text.last_chunk::<N>() {
        Some(last) => is_block(last, test),
        None => true,
    }
}

// Whether each byte of a text passes a test.
// Stays: a text and a test are a scan's two arguments, as those of `all` and `position` are; a struct of both would be built for each call.
// Rules out: of 4 to 7 bytes the first four looked at alone; of 16 to 31 the last sixteen alone (must-fail: bytes_passed_over, front_not_looked_at).
pub fn is_all<T: ByteTest>(text: &[u8], test: &T) -> bool
    ensures { result ≡ passes (T.takes test.now) (length text.now) text.now }
{
    let len = text.len();
    if 128 <= len {
        return is_all_by::<128, T>(text, test);
    }
    if 32 <= len {
        return is_all_by::<32, T>(text, test);
    }
    if 16 <= len {
        return is_all_by::<16, T>(text, test);
    }
    if 8 <= len {
        return is_all_by::<8, T>(text, test);
    }
    if 4 <= len {
        return is_all_by::<4, T>(text, test);
    }
    text.iter().all(|byte| test.takes(*byte))
}

// Whether none of three bytes is in a text.
// Stays: the bytes come one by one: a struct comes by a pointer to what was stored just before, and waits for it (8 bytes: 10.6 ns for 6.0).
fn is_free_of(text: &[u8], first: u8, second: u8, third: u8) -> bool
    ensures { result ≡ passes (free_of (record { first = first; second = second; third = third })) (length text.now) text.now }
{
    is_all(
        text,
        &Stops {
            first,
            second,
            third,
        },
    )
}

// Whether none of the three is in a text.
// Stays: a public function, as `is_free_eight` and `free_run` are: their clauses speak of a text and of what is looked for in it.
// Rules out: short texts not looked at; bytes behind the first block not looked at (must-fail: short_texts_not_looked_at, some_left_out).
#[inline(always)]
pub fn is_free(text: &[u8], stops: Stops) -> bool
    ensures { result ≡ passes (free_of stops) (length text.now) text.now }
{
    is_free_of(text, stops.first, stops.second, stops.third)
}

// Whether eight bytes from a place on are there, and none of them is one of the three.
// Stays: no crate calls it since runs go by blocks of their own; a public function keeps its name and its clause (docs/CONTRACTS).
// Rules out: the block at the text's start asked; the last eight bytes not looked at (must-fail: other_bytes, rest_not_looked_at).
pub fn is_free_eight(text: &[u8], at: usize, stops: Stops) -> bool
    ensures { result ≡ passes (free_of stops) 8 (drop at text.now) }
{
    if text.len() < 8 {
        return false;
    }
    if text.len() - 8 < at {
        return false;
    }
    is_all(&text[at..at + 8], &stops)
}

// How many bytes at a text's front, by whole blocks of N, pass.
// Rules out: a byte behind a block passed over; a block that does not pass told as past; one that is not looked at (must-fail: byte_between_blocks,
// limit_off_by_one, rest_not_looked_at).
#[inline(always)]
fn past_blocks<const N: usize, T: ByteTest>(text: &[u8], test: &T) -> usize
    requires { (0 < N) × (N < 256) }
    ensures { (result ≤ length text.now) × (passes (T.takes test.now) result text.now ≡ true) }
{
    let mut past = 0;
    let (blocks, _) = text.as_chunks::<N>();
    for block in blocks {
        if !is_block(block, test) {
            return past;
        }
        past += N;
    }
    past
}

// How many bytes at a text's front pass. Between escapes the run is often empty, so the first byte is looked at alone.
// Rules out: every other byte passed over; the first byte asked again at each turn (must-fail: bytes_passed_over, start_asked_again).
fn front_run<T: ByteTest>(text: &[u8], test: &T) -> usize
    ensures { result ≡ span (T.takes test.now) text.now }
{
    if text.len() == 0 {
        return 0;
    }
    if !test.takes(text[0]) {
        return 0;
    }
    for place in past_blocks::<8, T>(text, test)..text.len() {
        if !test.takes(text[place]) {
            return place;
        }
    }
    text.len()
}

// How many bytes at a place of a text pass a test.
// Rules out: the run at the text's start told; the byte at the place passed over (must-fail: run_at_the_start, run_one_byte_later).
pub fn run<T: ByteTest>(text: &[u8], at: usize, test: &T) -> usize
    ensures { result ≡ span (T.takes test.now) (drop at text.now) }
{
    if text.len() <= at {
        return 0;
    }
    front_run(&text[at..], test)
}

// How many bytes at a place are none of the three.
// Rules out: the place told for the number; the third byte not looked for (must-fail: other_place, third_not_looked_for).
pub fn free_run(text: &[u8], at: usize, stops: Stops) -> usize
    ensures { result ≡ span (free_of stops) (drop at text.now) }
{
    run(text, at, &stops)
}
